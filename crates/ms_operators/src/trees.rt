//! Two operands as trees.

ghost use Rattle.std.specs.Prelude.{◌≡◌, IfOk, Ok};
ghost use Rattle.ms_rules.specs.Operands as r;

use ms_rules::{condition_of, integer_of};
use ms_values::{Operand, Placed};
use std::alloc::{AllocError, Global};

/// Both answers as one.
pub fn both<A: Drop, B: Drop>(
    first: Result<A, AllocError>,
    second: Result<B, AllocError>,
) -> Result<(A, B), AllocError>
    ensures { IfOk result (λ pair. (first ≡ Ok pair.0) × (second ≡ Ok pair.1)) }
{
    match (first, second) {
        (Ok(first), Ok(second)) => Ok((first, second)),
        (Err(refused), _) => Err(refused),
        (_, Err(refused)) => Err(refused),
    }
}

/// Both as integer trees.
pub fn both_integers(alloc: Global, x: Operand, y: Operand) -> Result<(Placed, Placed), AllocError>
    ensures { IfOk result (λ pair. (pair.0 ≡ r.integer_of x) × (pair.1 ≡ r.integer_of y)) }
{
    both(integer_of(alloc, x), integer_of(alloc, y))
}

/// Both as Boolean trees.
pub fn both_conditions(
    alloc: Global,
    x: Operand,
    y: Operand,
) -> Result<(Placed, Placed), AllocError>
    ensures { IfOk result (λ pair. (pair.0 ≡ r.condition_of x) × (pair.1 ≡ r.condition_of y)) }
{
    both(condition_of(alloc, x), condition_of(alloc, y))
}
