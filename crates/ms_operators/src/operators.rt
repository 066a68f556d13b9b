//! All operators and signs.

ghost use Rattle.std.specs.Prelude.{◌≡◌, IfOk};
ghost use Rattle.ms_rules.specs.Operators as o;

use crate::comparisons::{at_most, less};
use crate::concatenation::concatenate;
use crate::connectives::{conjunction, deny, disjunction, equivalence, exclusive, implication};
use crate::equality::{equal, unequal};
use crate::numbers::{difference, negate, product, quotient, remainder, sum};
use crate::sets::{membership, range};
use ms_syntax::{Operator, Sign};
use ms_values::Operand;
use std::alloc::{AllocError, Global};

/// What the operator makes of two operands; none where a number leaves the limits.
#[tactic(auto, unfolding(ms_rules::specs::Operators::join))]
pub fn join(
    alloc: Global,
    operator: Operator,
    x: Operand,
    y: Operand,
) -> Result<Option<Operand>, AllocError>
    ensures { IfOk result (λ z. z ≡ o.join operator x y) }
{
    match operator {
        Operator::Equivalent => Ok(Some(equivalence(alloc, x, y)?)),
        Operator::Implies => Ok(Some(implication(alloc, x, y)?)),
        Operator::ImpliedBy => Ok(Some(implication(alloc, y, x)?)),
        Operator::Or => Ok(Some(disjunction(alloc, x, y)?)),
        Operator::Xor => Ok(Some(exclusive(alloc, x, y)?)),
        Operator::And => Ok(Some(conjunction(alloc, x, y)?)),
        Operator::Equal => Ok(Some(equal(alloc, x, y)?)),
        Operator::NotEqual => Ok(Some(unequal(alloc, x, y)?)),
        Operator::Less => Ok(Some(less(alloc, x, y)?)),
        Operator::AtMost => Ok(Some(at_most(alloc, x, y)?)),
        Operator::Greater => Ok(Some(less(alloc, y, x)?)),
        Operator::AtLeast => Ok(Some(at_most(alloc, y, x)?)),
        Operator::In => Ok(Some(membership(alloc, x, y)?)),
        Operator::To => Ok(Some(range(alloc, x, y)?)),
        Operator::Plus => sum(alloc, x, y),
        Operator::Minus => difference(alloc, x, y),
        Operator::Times => product(alloc, x, y),
        Operator::Div => quotient(alloc, x, y),
        Operator::Mod => remainder(alloc, x, y),
        Operator::Concat => Ok(Some(concatenate(alloc, x, y)?)),
    }
}

/// What the sign makes of an operand; none where a number leaves the limits.
#[tactic(auto, unfolding(ms_rules::specs::Operators::signed))]
pub fn signed(alloc: Global, sign: Sign, x: Operand) -> Result<Option<Operand>, AllocError>
    ensures { IfOk result (λ z. z ≡ o.signed sign x) }
{
    match sign {
        Sign::Not => Ok(Some(deny(alloc, x)?)),
        Sign::Minus => negate(alloc, x),
    }
}
