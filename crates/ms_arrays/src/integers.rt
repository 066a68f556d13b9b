//! Integers that are made of an array. None where a number leaves -2^50..2^50.

ghost use Rattle.std.specs.Prelude.{◌≡◌, IfOk, Some, pos, map, is_some, if◌then◌else◌};
ghost use Rattle.std.specs.List.{list_all};
ghost use Rattle.ms_num.specs.Numbers.{add_at, int_eq};
ghost use Rattle.ms_trees.specs.Extreme.{extreme_at};
ghost use Rattle.ms_trees.specs.Value.{numeric_meaning, both, folded as folded_of, extreme, how_many as how_many_of, compare, counted as counted_of};
ghost use Rattle.ms_rules.specs.Operands as r;
ghost use Rattle.ms_rules.specs.Arrays as a;

use crate::arguments::{array_of, has_trees, numbers_in, trees_of, with_numbers};
use ms_num::LIMIT;
use ms_rules::{
    integer, integer_of, is_variable, is_variable_kind, known_number, no_number, number_of,
};
use ms_tree_nodes::lists;
use ms_trees::Extreme;
use ms_values::{Array, Kind, Narrow, Operand, Shared};
use std::alloc::{AllocError, Global};

fn undefined_by_kind(alloc: Global, kind: Kind) -> Result<Option<Operand>, AllocError>
    ensures { IfOk result (λ z. z ≡ a.undefined_by_kind kind) }
{
    Ok(Some(no_number(alloc, is_variable_kind(kind))?))
}

/// How many there are, as a known number.
pub fn number_of_count(count: usize) -> Option<Operand>
    ensures { result ≡ r.known_number (Some (pos count)) }
{
    if count as u64 <= LIMIT as u64 {
        known_number(Some(count as i64))
    } else {
        None
    }
}

/// The sum of the elements, tested after each addition.
pub fn sum(alloc: Global, x: Operand) -> Result<Option<Operand>, AllocError>
    ensures { IfOk result (λ z. z ≡ a.sum x) }
{
    match array_of(x) {
        Ok(array) => sum_of(alloc, array),
        Err(kind) => undefined_by_kind(alloc, kind),
    }
}

fn sum_of(alloc: Global, array: Shared<Array>) -> Result<Option<Operand>, AllocError>
    ensures { IfOk result (λ z. z ≡ a.sum_of array.cells) }
{
    if has_trees(array.get()) {
        let trees = trees_of(alloc, array)?;
        Ok(integer(lists::total(alloc, trees)?))
    } else {
        let array = with_numbers(alloc, array)?;
        Ok(total(numbers_in(&array.get().cells)))
    }
}

fn total(numbers: &[Option<Narrow>]) -> Option<Operand>
    ensures { result ≡ a.sum_from (Some (pos 0)) numbers.now }
{
    let mut total = Narrow::new(0);
    for number in numbers {
        total = added(total, *number)?;
    }
    Some(Operand::Number(total))
}

fn added(total: Option<Narrow>, number: Option<Narrow>) -> Option<Option<Narrow>>
    ensures { result ≡ a.within (both add_at total number) }
{
    match (total, number) {
        (Some(total), Some(number)) => match Narrow::new(total.get() + number.get()) {
            Some(total) => Some(Some(total)),
            None => None,
        },
        _ => Some(None),
    }
}

/// The least or the greatest element.
pub fn extreme_of_array(
    alloc: Global,
    which: Extreme,
    x: Operand,
) -> Result<Option<Operand>, AllocError>
    ensures { IfOk result (λ z. z ≡ a.extreme_of_array which x) }
{
    match array_of(x) {
        Ok(array) => extreme_of(alloc, which, array),
        Err(kind) => undefined_by_kind(alloc, kind),
    }
}

fn extreme_of(
    alloc: Global,
    which: Extreme,
    array: Shared<Array>,
) -> Result<Option<Operand>, AllocError>
    ensures { IfOk result (λ z. z ≡ a.extreme_of which array.cells) }
{
    if has_trees(array.get()) {
        let trees = trees_of(alloc, array)?;
        Ok(integer(lists::extreme(alloc, which, trees)?))
    } else {
        let array = with_numbers(alloc, array)?;
        Ok(known_number(extreme_number(which, numbers_in(&array.get().cells))))
    }
}

fn extreme_number(which: Extreme, numbers: &[Option<Narrow>]) -> Option<i64>
    ensures { result ≡ extreme (extreme_at which) (map numeric_meaning numbers.now) }
{
    match numbers {
        [] => None,
        [first, rest @ ..] => folded(which, first.map(Narrow::get), rest),
    }
}

fn folded(which: Extreme, first: Option<i64>, numbers: &[Option<Narrow>]) -> Option<i64>
    ensures { result ≡ folded_of (extreme_at which) first (map numeric_meaning numbers.now) }
{
    let mut best = first;
    for number in numbers {
        best = of_both(which, best, *number);
    }
    best
}

fn of_both(which: Extreme, best: Option<i64>, number: Option<Narrow>) -> Option<i64>
    ensures { result ≡ both (extreme_at which) best number }
{
    match (best, number) {
        (Some(best), Some(number)) => Some(which.take(Some(best), number.get())),
        _ => None,
    }
}

/// How many elements are `y`.
pub fn count(alloc: Global, x: Operand, y: Operand) -> Result<Option<Operand>, AllocError>
    ensures { IfOk result (λ z. z ≡ a.count x y) }
{
    match array_of(x) {
        Ok(array) => count_in(alloc, array, y),
        Err(kind) => count_undefined(alloc, kind, y),
    }
}

fn count_undefined(alloc: Global, kind: Kind, y: Operand) -> Result<Option<Operand>, AllocError>
    ensures { IfOk result (λ z. z ≡ a.count_undefined y kind) }
{
    let variable = is_variable_kind(kind) || is_variable(&y);
    Ok(Some(no_number(alloc, variable)?))
}

fn count_in(alloc: Global, array: Shared<Array>, y: Operand) -> Result<Option<Operand>, AllocError>
    ensures { IfOk result (λ z. z ≡ a.count_in y array.cells) }
{
    if has_trees(array.get()) || is_variable(&y) {
        let y = integer_of(alloc, y)?;
        let trees = trees_of(alloc, array)?;
        Ok(integer(lists::count(alloc, trees, y)?))
    } else {
        let y = number_of(&y);
        let array = with_numbers(alloc, array)?;
        Ok(counted(numbers_in(&array.get().cells), y))
    }
}

fn counted(numbers: &[Option<Narrow>], y: Option<Narrow>) -> Option<Operand>
    ensures { result ≡ r.known_number (counted_of (map numeric_meaning numbers.now) y) }
{
    match y {
        Some(y) => counted_one(numbers, y),
        None => known_number(None),
    }
}

fn counted_one(numbers: &[Option<Narrow>], y: Narrow) -> Option<Operand>
    ensures { result ≡ r.known_number (counted_of (map numeric_meaning numbers.now) (Some y)) }
{
    if all_defined(numbers) {
        number_of_count(how_many(numbers, &y))
    } else {
        known_number(None)
    }
}

fn all_defined(numbers: &[Option<Narrow>]) -> bool
    ensures { result ≡ list_all (λ n. is_some n) numbers.now }
{
    numbers.iter().all(|number| number.is_some())
}

fn how_many(numbers: &[Option<Narrow>], y: &Narrow) -> usize
    ensures { result ≡ how_many_of (λ m. compare int_eq m.number (Some y.now)) (map numeric_meaning numbers.now) }
{
    let mut count = 0usize;
    for number in numbers {
        count += one_if_equal(*number, y);
    }
    count
}

// 1 where it is the number, else 0.
fn one_if_equal(x: Option<Narrow>, y: &Narrow) -> usize
    ensures { result ≡ (if compare int_eq x (Some y.now) then 1 else 0) }
{
    match x {
        Some(x) => one_if_same(x.get(), y.get()),
        None => 0,
    }
}

fn one_if_same(x: i64, y: i64) -> usize
    ensures { result ≡ (if int_eq x y then 1 else 0) }
{
    if x == y { 1 } else { 0 }
}
