//! Operations on integers: known where both are known, and else a node.

ghost use Rattle.std.specs.Prelude.{◌≡◌, IfOk, Some, None, ◌+ℤ◌, ◌-ℤ◌, ◌*ℤ◌};
ghost use Rattle.ms_num.specs.Numbers.{neg_at, add_at, sub_at, mul_at, div_at, mod_at};
ghost use Rattle.ms_trees.specs.Value.{both, image};
ghost use Rattle.ms_tree_nodes.specs.Nodes as n;
ghost use Rattle.ms_rules.specs.Operands as r;
ghost use Rattle.ms_rules.specs.Operators as o;

use crate::trees::both_integers;
use ms_rules::{either_variable, integer, integer_of, is_variable, known_number, number_of};
use ms_tree_nodes::numbers;
use ms_values::{Narrow, Operand};
use std::alloc::{AllocError, Global};

// The product, which may pass the end of 64 bits.
fn known_times(x: Narrow, y: Narrow) -> Option<Operand>
    ensures { result ≡ r.known_number (Some (x *ℤ y)) }
{
    match x.get().checked_mul(y.get()) {
        Some(product) => known_number(Some(product)),
        None => None,
    }
}

fn known_over(x: Narrow, y: Narrow) -> Option<Operand>
    ensures { result ≡ r.known_number (div_at x y) }
{
    let (x, y) = (x.get(), y.get());
    if y == 0 {
        Some(Operand::Number(None))
    } else {
        known_number(Some(x / y))
    }
}

fn known_rest(x: Narrow, y: Narrow) -> Option<Operand>
    ensures { result ≡ r.known_number (mod_at x y) }
{
    let (x, y) = (x.get(), y.get());
    if y == 0 {
        Some(Operand::Number(None))
    } else {
        known_number(Some(x % y))
    }
}

fn known_sum(x: Option<Narrow>, y: Option<Narrow>) -> Option<Operand>
    ensures { result ≡ r.known_number (both add_at x y) }
{
    match (x, y) {
        (Some(x), Some(y)) => known_number(Some(x.get() + y.get())),
        _ => Some(Operand::Number(None)),
    }
}

fn sum_of_trees(alloc: Global, x: Operand, y: Operand) -> Result<Option<Operand>, AllocError>
    ensures { IfOk result (λ z. z ≡ o.integer (n.sum (r.integer_of x) (r.integer_of y))) }
{
    let (x, y) = both_integers(alloc, x, y)?;
    Ok(integer(numbers::sum(alloc, x, y)?))
}

pub fn sum(alloc: Global, x: Operand, y: Operand) -> Result<Option<Operand>, AllocError>
    ensures { IfOk result (λ z. z ≡ o.operate add_at n.sum x y) }
{
    if either_variable(&x, &y) {
        sum_of_trees(alloc, x, y)
    } else {
        Ok(known_sum(number_of(&x), number_of(&y)))
    }
}

fn known_difference(x: Option<Narrow>, y: Option<Narrow>) -> Option<Operand>
    ensures { result ≡ r.known_number (both sub_at x y) }
{
    match (x, y) {
        (Some(x), Some(y)) => known_number(Some(x.get() - y.get())),
        _ => Some(Operand::Number(None)),
    }
}

fn difference_of_trees(alloc: Global, x: Operand, y: Operand) -> Result<Option<Operand>, AllocError>
    ensures { IfOk result (λ z. z ≡ o.integer (n.difference (r.integer_of x) (r.integer_of y))) }
{
    let (x, y) = both_integers(alloc, x, y)?;
    Ok(integer(numbers::difference(alloc, x, y)?))
}

pub fn difference(alloc: Global, x: Operand, y: Operand) -> Result<Option<Operand>, AllocError>
    ensures { IfOk result (λ z. z ≡ o.operate sub_at n.difference x y) }
{
    if either_variable(&x, &y) {
        difference_of_trees(alloc, x, y)
    } else {
        Ok(known_difference(number_of(&x), number_of(&y)))
    }
}

fn known_product(x: Option<Narrow>, y: Option<Narrow>) -> Option<Operand>
    ensures { result ≡ r.known_number (both mul_at x y) }
{
    match (x, y) {
        (Some(x), Some(y)) => known_times(x, y),
        _ => Some(Operand::Number(None)),
    }
}

fn product_of_trees(alloc: Global, x: Operand, y: Operand) -> Result<Option<Operand>, AllocError>
    ensures { IfOk result (λ z. z ≡ o.integer (n.product (r.integer_of x) (r.integer_of y))) }
{
    let (x, y) = both_integers(alloc, x, y)?;
    Ok(integer(numbers::product(alloc, x, y)?))
}

pub fn product(alloc: Global, x: Operand, y: Operand) -> Result<Option<Operand>, AllocError>
    ensures { IfOk result (λ z. z ≡ o.operate mul_at n.product x y) }
{
    if either_variable(&x, &y) {
        product_of_trees(alloc, x, y)
    } else {
        Ok(known_product(number_of(&x), number_of(&y)))
    }
}

fn known_quotient(x: Option<Narrow>, y: Option<Narrow>) -> Option<Operand>
    ensures { result ≡ r.known_number (both div_at x y) }
{
    match (x, y) {
        (Some(x), Some(y)) => known_over(x, y),
        _ => Some(Operand::Number(None)),
    }
}

fn quotient_of_trees(alloc: Global, x: Operand, y: Operand) -> Result<Option<Operand>, AllocError>
    ensures { IfOk result (λ z. z ≡ o.integer (n.quotient (r.integer_of x) (r.integer_of y))) }
{
    let (x, y) = both_integers(alloc, x, y)?;
    Ok(integer(numbers::quotient(alloc, x, y)?))
}

pub fn quotient(alloc: Global, x: Operand, y: Operand) -> Result<Option<Operand>, AllocError>
    ensures { IfOk result (λ z. z ≡ o.operate div_at n.quotient x y) }
{
    if either_variable(&x, &y) {
        quotient_of_trees(alloc, x, y)
    } else {
        Ok(known_quotient(number_of(&x), number_of(&y)))
    }
}

fn known_remainder(x: Option<Narrow>, y: Option<Narrow>) -> Option<Operand>
    ensures { result ≡ r.known_number (both mod_at x y) }
{
    match (x, y) {
        (Some(x), Some(y)) => known_rest(x, y),
        _ => Some(Operand::Number(None)),
    }
}

fn remainder_of_trees(alloc: Global, x: Operand, y: Operand) -> Result<Option<Operand>, AllocError>
    ensures { IfOk result (λ z. z ≡ o.integer (n.remainder (r.integer_of x) (r.integer_of y))) }
{
    let (x, y) = both_integers(alloc, x, y)?;
    Ok(integer(numbers::remainder(alloc, x, y)?))
}

pub fn remainder(alloc: Global, x: Operand, y: Operand) -> Result<Option<Operand>, AllocError>
    ensures { IfOk result (λ z. z ≡ o.operate mod_at n.remainder x y) }
{
    if either_variable(&x, &y) {
        remainder_of_trees(alloc, x, y)
    } else {
        Ok(known_remainder(number_of(&x), number_of(&y)))
    }
}

fn known_negation(x: Option<Narrow>) -> Option<Operand>
    ensures { result ≡ r.known_number (image neg_at x) }
{
    match x {
        Some(x) => known_number(Some(-x.get())),
        None => Some(Operand::Number(None)),
    }
}

fn negation_of_tree(alloc: Global, x: Operand) -> Result<Option<Operand>, AllocError>
    ensures { IfOk result (λ z. z ≡ o.integer (n.negation (r.integer_of x))) }
{
    let x = integer_of(alloc, x)?;
    Ok(integer(numbers::negation(alloc, x)?))
}

pub fn negate(alloc: Global, x: Operand) -> Result<Option<Operand>, AllocError>
    ensures { IfOk result (λ z. z ≡ o.negate x) }
{
    if is_variable(&x) {
        negation_of_tree(alloc, x)
    } else {
        Ok(known_negation(number_of(&x)))
    }
}
