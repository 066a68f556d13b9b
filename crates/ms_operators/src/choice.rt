//! An `if` with a variable condition.

ghost use Rattle.std.specs.Prelude.{◌≡◌, IfOk};
ghost use Rattle.ms_tree_nodes.specs.Nodes as n;
ghost use Rattle.ms_rules.specs.Operands as r;
ghost use Rattle.ms_rules.specs.Operators as o;
ghost use Rattle.ms_values.specs.declared.operand.Operand.TheVariants as v;

use crate::trees::{both, both_conditions, both_integers};
use ms_rules::{condition_of, is_logical};
use ms_tree_nodes::truths;
use ms_values::Operand;
use std::alloc::{AllocError, Global};

fn choose_truth(alloc: Global, c: Operand, x: Operand, y: Operand) -> Result<Operand, AllocError>
    ensures { IfOk result (λ z. z ≡ v.Condition (n.choice_of_truths (r.condition_of c) (r.condition_of x) (r.condition_of y))) }
{
    let (c, (x, y)) = both(condition_of(alloc, c), both_conditions(alloc, x, y))?;
    Ok(Operand::Condition(truths::choice_of_truths(alloc, c, x, y)?))
}

fn choose_number(alloc: Global, c: Operand, x: Operand, y: Operand) -> Result<Operand, AllocError>
    ensures { IfOk result (λ z. z ≡ v.Integer (n.choice (r.condition_of c) (r.integer_of x) (r.integer_of y))) }
{
    let (c, (x, y)) = both(condition_of(alloc, c), both_integers(alloc, x, y))?;
    Ok(Operand::Integer(truths::choice(alloc, c, x, y)?))
}

/// The taken branch alone; both are integers, or both are Booleans.
pub fn choose(alloc: Global, c: Operand, x: Operand, y: Operand) -> Result<Operand, AllocError>
    ensures { IfOk result (λ z. z ≡ o.choice c x y) }
{
    if is_logical(&x) {
        choose_truth(alloc, c, x, y)
    } else {
        choose_number(alloc, c, x, y)
    }
}
