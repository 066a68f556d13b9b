//! What is read of an operand.

ghost use Rattle.std.specs.Prelude.{◌≡◌, IfOk, Some};
ghost use Rattle.ms_trees.specs.Value.{bit as bit_of};
ghost use Rattle.ms_rules.specs.Operands as r;
ghost use Rattle.ms_rules.specs.Operators as p;

use crate::kinds::{count_of, is_variable_kind, kind_of};
use ms_base::Bytes;
use ms_num::Ranges;
use ms_tree_nodes::leaves::{number_leaf, truth_leaf};
use ms_tree_nodes::truths::bit;
use ms_values::{Array, Indices, Narrow, Operand, Placed, Shared};
use std::alloc::{AllocError, Global};

/// A tree, or an array of trees.
pub fn is_variable(x: &Operand) -> bool
    ensures { result ≡ r.is_variable x.now }
{
    match x {
        Operand::Integer(_) | Operand::Condition(_) => true,
        Operand::Array(array) => is_variable_kind(kind_of(&array.get().cells)),
        Operand::NoArray(kind) => is_variable_kind(*kind),
        Operand::Number(_) | Operand::Truth(_) | Operand::Set(_) | Operand::Text(_) => false,
    }
}

/// A single Boolean, known or variable.
pub fn is_logical(x: &Operand) -> bool
    ensures { result ≡ r.is_logical x.now }
{
    match x {
        Operand::Truth(_) | Operand::Condition(_) => true,
        _ => false,
    }
}

pub fn either_variable(x: &Operand, y: &Operand) -> bool
    ensures { result ≡ p.either_variable x.now y.now }
{
    is_variable(x) || is_variable(y)
}

/// The number of a truth value.
pub fn bit_number(truth: bool) -> Option<Narrow>
    ensures { result ≡ Some (bit_of truth) }
{
    Narrow::new(if truth { 1 } else { 0 })
}

/// The number of a known integer or Boolean.
pub fn number_of(x: &Operand) -> Option<Narrow>
    ensures { result ≡ r.number_of x.now }
{
    match x {
        Operand::Number(number) => *number,
        Operand::Truth(truth) => bit_number(*truth),
        _ => None,
    }
}

/// The same, of an operand that is let go.
pub fn number(x: Operand) -> Option<Narrow>
    ensures { result ≡ r.number_of x }
{
    number_of(&x)
}

/// A known Boolean; false for all else.
pub fn truth_of(x: &Operand) -> bool
    ensures { result ≡ r.truth_of x.now }
{
    match x {
        Operand::Truth(truth) => *truth,
        _ => false,
    }
}

/// The same, of an operand that is let go.
pub fn truth(x: Operand) -> bool
    ensures { result ≡ r.truth_of x }
{
    truth_of(&x)
}

/// A known set.
pub fn set_of(x: Operand) -> Option<Shared<Ranges>>
    ensures { result ≡ r.set_of x }
{
    match x {
        Operand::Set(set) => set,
        Operand::Number(_) => None,
        Operand::Truth(_) => None,
        Operand::Text(_) => None,
        Operand::Integer(_) => None,
        Operand::Condition(_) => None,
        Operand::Array(_) => None,
        Operand::NoArray(_) => None,
    }
}

/// A known string.
pub fn text_of(x: Operand) -> Option<Shared<Bytes>>
    ensures { result ≡ r.text_of x }
{
    match x {
        Operand::Text(text) => text,
        Operand::Number(_) => None,
        Operand::Truth(_) => None,
        Operand::Set(_) => None,
        Operand::Integer(_) => None,
        Operand::Condition(_) => None,
        Operand::Array(_) => None,
        Operand::NoArray(_) => None,
    }
}

/// An integer or Boolean, known or variable, as an integer tree.
pub fn integer_of(alloc: Global, x: Operand) -> Result<Placed, AllocError>
    ensures { IfOk result (λ y. y ≡ r.integer_of x) }
{
    match x {
        Operand::Number(number) => number_leaf(alloc, number),
        Operand::Truth(truth) => number_leaf(alloc, bit_number(truth)),
        Operand::Integer(tree) => Ok(tree),
        Operand::Condition(tree) => bit(alloc, tree),
        Operand::Set(_) => number_leaf(alloc, None),
        Operand::Text(_) => number_leaf(alloc, None),
        Operand::Array(_) => number_leaf(alloc, None),
        Operand::NoArray(_) => number_leaf(alloc, None),
    }
}

/// A Boolean, known or variable, as a Boolean tree.
pub fn condition_of(alloc: Global, x: Operand) -> Result<Placed, AllocError>
    ensures { IfOk result (λ y. y ≡ r.condition_of x) }
{
    match x {
        Operand::Truth(truth) => truth_leaf(alloc, truth),
        Operand::Condition(tree) => Ok(tree),
        Operand::Number(_) => truth_leaf(alloc, false),
        Operand::Integer(_) => truth_leaf(alloc, false),
        Operand::Set(_) => truth_leaf(alloc, false),
        Operand::Text(_) => truth_leaf(alloc, false),
        Operand::Array(_) => truth_leaf(alloc, false),
        Operand::NoArray(_) => truth_leaf(alloc, false),
    }
}

/// A known number; none where it leaves the limits.
pub fn known_number(number: Option<i64>) -> Option<Operand>
    ensures { result ≡ r.known_number number }
{
    match number {
        None => Some(Operand::Number(None)),
        Some(z) => match Narrow::new(z) {
            Some(narrow) => Some(Operand::Number(Some(narrow))),
            None => None,
        },
    }
}

/// An integer tree, where its meaning is within the limits.
pub fn integer(tree: Option<Placed>) -> Option<Operand>
    ensures { result ≡ p.integer tree }
{
    match tree {
        None => None,
        Some(tree) => Some(Operand::Integer(tree)),
    }
}

/// How deep the tree is.
pub fn nesting_of(x: &Operand) -> u64
    ensures { result ≡ r.nesting_of x.now }
{
    match x {
        Operand::Integer(tree) => tree.nesting,
        Operand::Condition(tree) => tree.nesting,
        _ => 0,
    }
}

/// An index set has fewer indices than this.
pub const INDEX_LIMIT: u32 = u32::MAX;

// How many elements an array has, or how many indices, where its index set has too many.
fn extent_of(array: &Array) -> usize
    ensures { result ≡ r.extent_of array.now }
{
    let count = count_of(&array.cells);
    match array.indices {
        Indices::Line(_) => count,
        Indices::Grid(rows, columns) => {
            let most = rows.count.max(columns.count);
            if most < INDEX_LIMIT {
                count
            } else {
                most as usize
            }
        }
    }
}

fn ranges_in(set: &Option<Shared<Ranges>>) -> usize
    ensures { result ≡ r.ranges_in set.now }
{
    match set {
        None => 0,
        Some(set) => set.get().ranges().len(),
    }
}

/// How many elements an array has, or ranges a set.
pub fn elements_of(x: &Operand) -> usize
    ensures { result ≡ r.elements_of x.now }
{
    match x {
        Operand::Set(set) => ranges_in(set),
        Operand::Array(array) => extent_of(array.get()),
        _ => 0,
    }
}
