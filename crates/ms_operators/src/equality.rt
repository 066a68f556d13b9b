//! Equality of Booleans, integers, sets and strings.

ghost use Rattle.std.specs.Prelude.{◌≡◌, IfOk};
ghost use Rattle.ms_rules.specs.Operands as r;
ghost use Rattle.ms_rules.specs.Operators as o;
ghost use Rattle.ms_rules.specs.Sets.{same_ranges as same_ranges_of};
ghost use Rattle.ms_values.specs.declared.operand.Operand.TheVariants as v;

use crate::comparisons;
use crate::connectives::{equivalence, exclusive};
use ms_base::Bytes;
use ms_num::{Iv, Ranges};
use ms_rules::{is_logical, set_of, text_of};
use ms_values::{Operand, Shared};
use std::alloc::{AllocError, Global};

fn same_ranges(xs: &[Iv], ys: &[Iv]) -> bool
    ensures { result ≡ same_ranges_of xs.now ys.now }
{
    xs == ys
}

fn are_equal_sets(x: &Option<Shared<Ranges>>, y: &Option<Shared<Ranges>>) -> bool
    ensures { result ≡ o.equal_sets x.now y.now }
{
    match (x, y) {
        (Some(x), Some(y)) => same_ranges(x.get().ranges(), y.get().ranges()),
        _ => false,
    }
}

fn are_unequal_sets(x: &Option<Shared<Ranges>>, y: &Option<Shared<Ranges>>) -> bool
    ensures { result ≡ o.unequal_sets x.now y.now }
{
    match (x, y) {
        (Some(x), Some(y)) => !same_ranges(x.get().ranges(), y.get().ranges()),
        _ => false,
    }
}

fn equal_sets(x: Option<Shared<Ranges>>, y: Option<Shared<Ranges>>) -> Operand
    ensures { result ≡ v.Truth (o.equal_sets x y) }
{
    Operand::Truth(are_equal_sets(&x, &y))
}

fn unequal_sets(x: Option<Shared<Ranges>>, y: Option<Shared<Ranges>>) -> Operand
    ensures { result ≡ v.Truth (o.unequal_sets x y) }
{
    Operand::Truth(are_unequal_sets(&x, &y))
}

fn are_equal_texts(x: &Option<Shared<Bytes>>, y: &Option<Shared<Bytes>>) -> bool
    ensures { result ≡ o.equal_texts x.now y.now }
{
    match (x, y) {
        (Some(x), Some(y)) => x.get().as_slice() == y.get().as_slice(),
        _ => false,
    }
}

fn are_unequal_texts(x: &Option<Shared<Bytes>>, y: &Option<Shared<Bytes>>) -> bool
    ensures { result ≡ o.unequal_texts x.now y.now }
{
    match (x, y) {
        (Some(x), Some(y)) => x.get().as_slice() != y.get().as_slice(),
        _ => false,
    }
}

fn equal_texts(x: Option<Shared<Bytes>>, y: Option<Shared<Bytes>>) -> Operand
    ensures { result ≡ v.Truth (o.equal_texts x y) }
{
    Operand::Truth(are_equal_texts(&x, &y))
}

fn unequal_texts(x: Option<Shared<Bytes>>, y: Option<Shared<Bytes>>) -> Operand
    ensures { result ≡ v.Truth (o.unequal_texts x y) }
{
    Operand::Truth(are_unequal_texts(&x, &y))
}

fn equal_plain(alloc: Global, x: Operand, y: Operand) -> Result<Operand, AllocError>
    ensures { IfOk result (λ z. z ≡ o.equal_plain x y) }
{
    if is_logical(&x) && is_logical(&y) {
        equivalence(alloc, x, y)
    } else {
        comparisons::equal(alloc, x, y)
    }
}

fn unequal_plain(alloc: Global, x: Operand, y: Operand) -> Result<Operand, AllocError>
    ensures { IfOk result (λ z. z ≡ o.unequal_plain x y) }
{
    if is_logical(&x) && is_logical(&y) {
        exclusive(alloc, x, y)
    } else {
        comparisons::unequal(alloc, x, y)
    }
}

/// `x = y`
pub fn equal(alloc: Global, x: Operand, y: Operand) -> Result<Operand, AllocError>
    ensures { IfOk result (λ z. z ≡ o.equal x y) }
{
    match x {
        Operand::Set(set) => Ok(equal_sets(set, set_of(y))),
        Operand::Text(text) => Ok(equal_texts(text, text_of(y))),
        Operand::Number(m) => equal_plain(alloc, Operand::Number(m), y),
        Operand::Truth(b) => equal_plain(alloc, Operand::Truth(b), y),
        Operand::Integer(x) => equal_plain(alloc, Operand::Integer(x), y),
        Operand::Condition(x) => equal_plain(alloc, Operand::Condition(x), y),
        Operand::Array(_) => Ok(Operand::Truth(false)),
        Operand::NoArray(_) => Ok(Operand::Truth(false)),
    }
}

/// `x != y`
pub fn unequal(alloc: Global, x: Operand, y: Operand) -> Result<Operand, AllocError>
    ensures { IfOk result (λ z. z ≡ o.unequal x y) }
{
    match x {
        Operand::Set(set) => Ok(unequal_sets(set, set_of(y))),
        Operand::Text(text) => Ok(unequal_texts(text, text_of(y))),
        Operand::Number(m) => unequal_plain(alloc, Operand::Number(m), y),
        Operand::Truth(b) => unequal_plain(alloc, Operand::Truth(b), y),
        Operand::Integer(x) => unequal_plain(alloc, Operand::Integer(x), y),
        Operand::Condition(x) => unequal_plain(alloc, Operand::Condition(x), y),
        Operand::Array(_) => Ok(Operand::Truth(false)),
        Operand::NoArray(_) => Ok(Operand::Truth(false)),
    }
}
