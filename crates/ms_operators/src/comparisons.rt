//! Comparisons of integers: false where a part is undefined.

ghost use Rattle.std.specs.Prelude.{◌≡◌, IfOk, int_lt, int_le};
ghost use Rattle.ms_num.specs.Numbers.{int_eq};
ghost use Rattle.ms_trees.specs.Value.{compare, int_ne};
ghost use Rattle.ms_tree_nodes.specs.Nodes as n;
ghost use Rattle.ms_rules.specs.Operands as r;
ghost use Rattle.ms_rules.specs.Operators as o;
ghost use Rattle.ms_values.specs.declared.operand.Operand.TheVariants as v;

use crate::trees::both_integers;
use ms_rules::{either_variable, number_of};
use ms_tree_nodes::truths;
use ms_values::{Narrow, Operand};
use std::alloc::{AllocError, Global};

fn is_equal(x: Option<Narrow>, y: Option<Narrow>) -> bool
    ensures { result ≡ compare int_eq x y }
{
    match (x, y) {
        (Some(x), Some(y)) => x.get() == y.get(),
        _ => false,
    }
}

fn equal_of_trees(alloc: Global, x: Operand, y: Operand) -> Result<Operand, AllocError>
    ensures { IfOk result (λ z. z ≡ v.Condition (n.equal (r.integer_of x) (r.integer_of y))) }
{
    let (x, y) = both_integers(alloc, x, y)?;
    Ok(Operand::Condition(truths::equal(alloc, x, y)?))
}

pub fn equal(alloc: Global, x: Operand, y: Operand) -> Result<Operand, AllocError>
    ensures { IfOk result (λ z. z ≡ o.compared int_eq n.equal x y) }
{
    if either_variable(&x, &y) {
        equal_of_trees(alloc, x, y)
    } else {
        Ok(Operand::Truth(is_equal(number_of(&x), number_of(&y))))
    }
}

fn is_unequal(x: Option<Narrow>, y: Option<Narrow>) -> bool
    ensures { result ≡ compare int_ne x y }
{
    match (x, y) {
        (Some(x), Some(y)) => x.get() != y.get(),
        _ => false,
    }
}

fn unequal_of_trees(alloc: Global, x: Operand, y: Operand) -> Result<Operand, AllocError>
    ensures { IfOk result (λ z. z ≡ v.Condition (n.unequal (r.integer_of x) (r.integer_of y))) }
{
    let (x, y) = both_integers(alloc, x, y)?;
    Ok(Operand::Condition(truths::unequal(alloc, x, y)?))
}

pub fn unequal(alloc: Global, x: Operand, y: Operand) -> Result<Operand, AllocError>
    ensures { IfOk result (λ z. z ≡ o.compared int_ne n.unequal x y) }
{
    if either_variable(&x, &y) {
        unequal_of_trees(alloc, x, y)
    } else {
        Ok(Operand::Truth(is_unequal(number_of(&x), number_of(&y))))
    }
}

fn is_less(x: Option<Narrow>, y: Option<Narrow>) -> bool
    ensures { result ≡ compare int_lt x y }
{
    match (x, y) {
        (Some(x), Some(y)) => x.get() < y.get(),
        _ => false,
    }
}

fn less_of_trees(alloc: Global, x: Operand, y: Operand) -> Result<Operand, AllocError>
    ensures { IfOk result (λ z. z ≡ v.Condition (n.less (r.integer_of x) (r.integer_of y))) }
{
    let (x, y) = both_integers(alloc, x, y)?;
    Ok(Operand::Condition(truths::less(alloc, x, y)?))
}

pub fn less(alloc: Global, x: Operand, y: Operand) -> Result<Operand, AllocError>
    ensures { IfOk result (λ z. z ≡ o.compared int_lt n.less x y) }
{
    if either_variable(&x, &y) {
        less_of_trees(alloc, x, y)
    } else {
        Ok(Operand::Truth(is_less(number_of(&x), number_of(&y))))
    }
}

fn is_at_most(x: Option<Narrow>, y: Option<Narrow>) -> bool
    ensures { result ≡ compare int_le x y }
{
    match (x, y) {
        (Some(x), Some(y)) => x.get() <= y.get(),
        _ => false,
    }
}

fn at_most_of_trees(alloc: Global, x: Operand, y: Operand) -> Result<Operand, AllocError>
    ensures { IfOk result (λ z. z ≡ v.Condition (n.at_most (r.integer_of x) (r.integer_of y))) }
{
    let (x, y) = both_integers(alloc, x, y)?;
    Ok(Operand::Condition(truths::at_most(alloc, x, y)?))
}

pub fn at_most(alloc: Global, x: Operand, y: Operand) -> Result<Operand, AllocError>
    ensures { IfOk result (λ z. z ≡ o.compared int_le n.at_most x y) }
{
    if either_variable(&x, &y) {
        at_most_of_trees(alloc, x, y)
    } else {
        Ok(Operand::Truth(is_at_most(number_of(&x), number_of(&y))))
    }
}
