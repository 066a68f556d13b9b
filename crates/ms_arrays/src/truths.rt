//! Booleans that are made of an array.

ghost use Rattle.std.specs.Prelude.{◌≡◌, IfOk};
ghost use Rattle.std.specs.List.{list_all, list_any};
ghost use Rattle.ms_trees.specs.Value.{all_true as all_true_of, any_true};
ghost use Rattle.ms_tree_nodes.specs.Nodes as n;
ghost use Rattle.ms_rules.specs.Cells as c;
ghost use Rattle.ms_rules.specs.Arrays as a;

use crate::arguments::{array_of, has_trees, numbers_in, trees_of, with_numbers};
use crate::repeats::are_distinct;
use ms_rules::{cells_of, conditions_of, is_variable_kind, no_truth};
use ms_tree_nodes::lists;
use ms_values::{Array, Cells, Elements, Kind, Operand, Placed, Shared};
use std::alloc::{AllocError, Global};

/// False, of an array that is undefined.
pub fn false_of(alloc: Global, kind: Kind) -> Result<Operand, AllocError>
    ensures { IfOk result (λ z. z ≡ a.false_of kind) }
{
    no_truth(alloc, is_variable_kind(kind))
}

fn boolean_trees(alloc: Global, array: Shared<Array>) -> Result<Elements<Placed>, AllocError>
    ensures { IfOk result (λ trees. trees ≡ c.conditions_of array.cells) }
{
    conditions_of(alloc, cells_of(alloc, array)?)
}

/// All elements are true.
pub fn all(alloc: Global, x: Operand) -> Result<Operand, AllocError>
    ensures { IfOk result (λ z. z ≡ a.all x) }
{
    match array_of(x) {
        Ok(array) => all_of(alloc, array),
        Err(kind) => false_of(alloc, kind),
    }
}

fn all_of(alloc: Global, array: Shared<Array>) -> Result<Operand, AllocError>
    ensures { IfOk result (λ z. z ≡ a.truth_over all_true_of n.all array.cells) }
{
    if has_trees(array.get()) {
        let trees = boolean_trees(alloc, array)?;
        Ok(Operand::Condition(lists::all(alloc, trees)?))
    } else {
        Ok(Operand::Truth(all_known(&array.get().cells)))
    }
}

fn all_known(cells: &Cells) -> bool
    ensures { result ≡ all_true_of (c.truth_meanings cells.now) }
{
    match cells {
        Cells::Numbers(numbers) => numbers.len() == 0,
        Cells::Truths(truths) => all_true(truths.as_slice()),
        _ => true,
    }
}

fn all_true(truths: &[bool]) -> bool
    ensures { result ≡ list_all (λ b. b) truths.now }
{
    truths.iter().all(|truth| *truth)
}

/// An element is true.
pub fn some(alloc: Global, x: Operand) -> Result<Operand, AllocError>
    ensures { IfOk result (λ z. z ≡ a.some x) }
{
    match array_of(x) {
        Ok(array) => some_of(alloc, array),
        Err(kind) => false_of(alloc, kind),
    }
}

fn some_of(alloc: Global, array: Shared<Array>) -> Result<Operand, AllocError>
    ensures { IfOk result (λ z. z ≡ a.truth_over any_true n.some array.cells) }
{
    if has_trees(array.get()) {
        let trees = boolean_trees(alloc, array)?;
        Ok(Operand::Condition(lists::some(alloc, trees)?))
    } else {
        Ok(Operand::Truth(some_known(&array.get().cells)))
    }
}

fn some_known(cells: &Cells) -> bool
    ensures { result ≡ any_true (c.truth_meanings cells.now) }
{
    match cells {
        Cells::Numbers(_) => false,
        Cells::Truths(truths) => some_true(truths.as_slice()),
        _ => false,
    }
}

fn some_true(truths: &[bool]) -> bool
    ensures { result ≡ list_any (λ b. b) truths.now }
{
    truths.iter().any(|truth| *truth)
}

/// Each element is a number, and no two are the same.
pub fn distinct(alloc: Global, x: Operand) -> Result<Operand, AllocError>
    ensures { IfOk result (λ z. z ≡ a.distinct x) }
{
    match array_of(x) {
        Ok(array) => distinct_of(alloc, array),
        Err(kind) => false_of(alloc, kind),
    }
}

fn distinct_of(alloc: Global, array: Shared<Array>) -> Result<Operand, AllocError>
    ensures { IfOk result (λ z. z ≡ a.distinct_of array.cells) }
{
    if has_trees(array.get()) {
        let trees = trees_of(alloc, array)?;
        Ok(Operand::Condition(lists::distinct(alloc, trees)?))
    } else {
        let array = with_numbers(alloc, array)?;
        Ok(Operand::Truth(are_distinct(alloc, numbers_in(&array.get().cells))?))
    }
}
