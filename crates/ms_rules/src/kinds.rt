//! Kinds of elements, and what is undefined.

ghost use Rattle.std.specs.Prelude.{◌≡◌, IfOk};
ghost use Rattle.ms_rules.specs.Operands as r;

use ms_tree_nodes::leaves::{number_leaf, truth_leaf};
use ms_values::{Cells, Kind, Operand};
use std::alloc::{AllocError, Global};

pub fn kind_of(cells: &Cells) -> Kind
    ensures { result ≡ r.kind_of cells.now }
{
    match cells {
        Cells::Numbers(_) => Kind::Number,
        Cells::Truths(_) => Kind::Truth,
        Cells::Texts(_) => Kind::Text,
        Cells::Integers(_) => Kind::Integer,
        Cells::Conditions(_) => Kind::Condition,
    }
}

pub fn count_of(cells: &Cells) -> usize
    ensures { result ≡ r.count_of cells.now }
{
    match cells {
        Cells::Numbers(numbers) => numbers.len(),
        Cells::Truths(truths) => truths.len(),
        Cells::Texts(texts) => texts.len(),
        Cells::Integers(trees) => trees.len(),
        Cells::Conditions(trees) => trees.len(),
    }
}

/// Elements of the kind are trees.
pub fn is_variable_kind(kind: Kind) -> bool
    ensures { result ≡ r.is_variable_kind kind }
{
    match kind {
        Kind::Number | Kind::Truth | Kind::Text => false,
        Kind::Integer | Kind::Condition => true,
    }
}

/// Elements of the kind are Booleans.
pub fn is_logical_kind(kind: Kind) -> bool
    ensures { result ≡ r.is_logical_kind kind }
{
    match kind {
        Kind::Truth | Kind::Condition => true,
        Kind::Number | Kind::Text | Kind::Integer => false,
    }
}

/// An undefined integer, variable or known.
pub fn no_number(alloc: Global, variable: bool) -> Result<Operand, AllocError>
    ensures { IfOk result (λ x. x ≡ r.no_number variable) }
{
    if variable {
        Ok(Operand::Integer(number_leaf(alloc, None)?))
    } else {
        Ok(Operand::Number(None))
    }
}

/// A false Boolean, variable or known.
pub fn no_truth(alloc: Global, variable: bool) -> Result<Operand, AllocError>
    ensures { IfOk result (λ x. x ≡ r.no_truth variable) }
{
    if variable {
        Ok(Operand::Condition(truth_leaf(alloc, false)?))
    } else {
        Ok(Operand::Truth(false))
    }
}

/// An element that there is not.
pub fn undefined_of(alloc: Global, kind: Kind) -> Result<Operand, AllocError>
    ensures { IfOk result (λ x. x ≡ r.undefined_of kind) }
{
    match kind {
        Kind::Number => no_number(alloc, false),
        Kind::Truth => no_truth(alloc, false),
        Kind::Text => Ok(Operand::Text(None)),
        Kind::Integer => no_number(alloc, true),
        Kind::Condition => no_truth(alloc, true),
    }
}
