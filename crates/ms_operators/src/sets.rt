//! Sets.

ghost use Rattle.std.specs.Prelude.{◌≡◌, IfOk, IfSome, IsTrue, option_map};
ghost use Rattle.std.specs.List.{list_all};
ghost use Rattle.ms_num.specs.Span.{is_within};
ghost use Rattle.ms_operators.specs.Known.{known_of};
ghost use Rattle.ms_rules.specs.Operands as r;
ghost use Rattle.ms_rules.specs.Sets as s;
ghost use Rattle.ms_values.specs.declared.operand.Operand.TheVariants as v;

use crate::trees::both;
use ms_num::{Iv, Ranges};
use ms_rules::{integer_of, is_variable, number_of, set_of};
use ms_tree_nodes::leaves::truth_leaf;
use ms_tree_nodes::truths::member;
use ms_values::{Narrow, Operand, Placed, Shared};
use std::alloc::{AllocError, Global};

fn ranges_between(alloc: Global, low: Narrow, high: Narrow) -> Result<Ranges, AllocError>
    ensures { IfOk result (λ rs. rs ≡ s.ranges_between low high) }
{
    let (low, high) = (low.get(), high.get());
    if low <= high {
        Ranges::from_iv(alloc, Iv::new(low, high))
    } else {
        Ok(Ranges::empty(alloc))
    }
}

fn set_between(alloc: Global, low: Narrow, high: Narrow) -> Result<Shared<Ranges>, AllocError>
    ensures { IfOk result (λ rs. rs ≡ s.ranges_between low high) }
{
    Shared::new(alloc, ranges_between(alloc, low, high)?)
}

fn between(alloc: Global, low: Option<Narrow>, high: Option<Narrow>) -> Result<Operand, AllocError>
    ensures { IfOk result (λ x. x ≡ v.Set (s.between low high)) }
{
    match (low, high) {
        (Some(low), Some(high)) => Ok(Operand::Set(Some(set_between(alloc, low, high)?))),
        _ => Ok(Operand::Set(None)),
    }
}

/// `x .. y`
pub fn range(alloc: Global, x: Operand, y: Operand) -> Result<Operand, AllocError>
    ensures { IfOk result (λ z. z ≡ s.range x y) }
{
    between(alloc, number_of(&x), number_of(&y))
}

fn is_in(number: Option<Narrow>, set: &Option<Shared<Ranges>>) -> bool
    ensures { result ≡ s.is_in number set.now }
{
    match (number, set) {
        (Some(number), Some(set)) => set.get().has(number.get()),
        _ => false,
    }
}

fn known_in(x: &Operand, set: Option<Shared<Ranges>>) -> Operand
    ensures { result ≡ v.Truth (s.is_in (r.number_of x.now) set) }
{
    Operand::Truth(is_in(number_of(x), &set))
}

fn copy_of(alloc: Global, set: Option<Shared<Ranges>>) -> Result<Option<Ranges>, AllocError>
    ensures { IfOk result (λ copied. copied ≡ set) }
{
    match &set {
        Some(set) => Ok(Some(set.get().copy(alloc)?)),
        None => Ok(None),
    }
}

fn member_of(alloc: Global, set: Option<Ranges>, x: Placed) -> Result<Placed, AllocError>
    ensures { IfOk result (λ z. z ≡ s.member_of set x) }
{
    match set {
        Some(set) => member(alloc, set, x),
        None => truth_leaf(alloc, false),
    }
}

fn tree_in(alloc: Global, x: Operand, set: Option<Shared<Ranges>>) -> Result<Operand, AllocError>
    ensures { IfOk result (λ z. z ≡ v.Condition (s.member_of set (r.integer_of x))) }
{
    let (x, set) = both(integer_of(alloc, x), copy_of(alloc, set))?;
    Ok(Operand::Condition(member_of(alloc, set, x)?))
}

/// `x in set`
pub fn membership(alloc: Global, x: Operand, set: Operand) -> Result<Operand, AllocError>
    ensures { IfOk result (λ z. z ≡ s.membership x set) }
{
    if is_variable(&x) {
        tree_in(alloc, x, set_of(set))
    } else {
        Ok(known_in(&x, set_of(set)))
    }
}

// The numbers of a list, where all have a value.
fn known_numbers(alloc: Global, numbers: &[Option<Narrow>]) -> Result<Option<Vec<i64>>, AllocError>
    ensures numbers { IfOk result (λ known. option_map (λ zs. zs.items) known ≡ known_of numbers.now) }
    ensures within { IfOk result (λ known. IfSome known (λ zs. IsTrue (list_all is_within zs.items))) }
{
    let mut known = Vec::with_capacity(alloc, numbers.len())?;
    for number in numbers {
        match number {
            Some(number) => known.push(number.get())?,
            None => return Ok(None),
        }
    }
    Ok(Some(known))
}

/// The set of the numbers of a list, in any order; none where one is undefined.
pub fn ranges_of(alloc: Global, numbers: &[Option<Narrow>]) -> Result<Option<Ranges>, AllocError>
    ensures { IfOk result (λ set. set ≡ s.ranges_of numbers.now) }
{
    match known_numbers(alloc, numbers)? {
        Some(known) => Ok(Some(Ranges::from_list(alloc, known.as_slice())?)),
        None => Ok(None),
    }
}
