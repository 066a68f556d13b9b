//! Operands brought to a type.

ghost use Rattle.std.specs.Prelude.{◌≡◌, IfOk};
ghost use Rattle.ms_rules.specs.Conversions as c;

use crate::cells::converted;
use crate::operands::{condition_of, integer_of, number, text_of, truth};
use ms_typing::{ExprType, Scalar, Shape};
use ms_values::{Array, Cells, Kind, Operand, Placed, Shared};
use std::alloc::{AllocError, Global};

/// What values of a type are; the element of an array without elements counts as an integer.
pub fn kind_by(scalar: Scalar, known: bool) -> Kind
    ensures { result ≡ c.kind_by scalar known }
{
    match (scalar, known) {
        (Scalar::Truth, true) => Kind::Truth,
        (Scalar::Truth, false) => Kind::Condition,
        (Scalar::Number, true) | (Scalar::Empty, true) => Kind::Number,
        (Scalar::Number, false) | (Scalar::Empty, false) => Kind::Integer,
    }
}

/// What the elements of an array of the type are.
pub fn kind_of_type(kind: ExprType) -> Kind
    ensures { result ≡ c.kind_of_type kind }
{
    match kind {
        ExprType::Plain(scalar, _, known) => kind_by(scalar, known),
        ExprType::Text(_) => Kind::Text,
        ExprType::Set | ExprType::Search => Kind::Number,
    }
}

fn as_kind(alloc: Global, kind: Kind, x: Operand) -> Result<Operand, AllocError>
    ensures { IfOk result (λ y. y ≡ c.as_kind kind x) }
{
    match kind {
        Kind::Number => Ok(Operand::Number(number(x))),
        Kind::Truth => Ok(Operand::Truth(truth(x))),
        Kind::Text => Ok(Operand::Text(text_of(x))),
        Kind::Integer => Ok(Operand::Integer(integer_of(alloc, x)?)),
        Kind::Condition => Ok(Operand::Condition(condition_of(alloc, x)?)),
    }
}

fn convert_array(alloc: Global, kind: Kind, array: Shared<Array>) -> Result<Operand, AllocError>
    ensures { IfOk result (λ y. y ≡ c.as_array kind (Operand.Array array)) }
{
    let indices = array.get().indices;
    let cells = converted(alloc, kind, array)?;
    Ok(Operand::Array(Shared::new(alloc, Array { indices, cells })?))
}

fn as_array(alloc: Global, kind: Kind, x: Operand) -> Result<Operand, AllocError>
    ensures { IfOk result (λ y. y ≡ c.as_array kind x) }
{
    match x {
        Operand::Array(array) => convert_array(alloc, kind, array),
        Operand::NoArray(_) => Ok(Operand::NoArray(kind)),
        Operand::Number(_) => Ok(Operand::NoArray(kind)),
        Operand::Truth(_) => Ok(Operand::NoArray(kind)),
        Operand::Set(_) => Ok(Operand::NoArray(kind)),
        Operand::Text(_) => Ok(Operand::NoArray(kind)),
        Operand::Integer(_) => Ok(Operand::NoArray(kind)),
        Operand::Condition(_) => Ok(Operand::NoArray(kind)),
    }
}

fn shaped(alloc: Global, shape: Shape, kind: Kind, x: Operand) -> Result<Operand, AllocError>
    ensures { IfOk result (λ y. y ≡ c.shaped shape kind x) }
{
    match shape {
        Shape::Single => as_kind(alloc, kind, x),
        Shape::Line => as_array(alloc, kind, x),
        Shape::Grid => as_array(alloc, kind, x),
    }
}

/// The operand brought to the type.
#[tactic(auto, unfolding(crate::specs::Conversions::convert))]
pub fn convert(alloc: Global, kind: ExprType, x: Operand) -> Result<Operand, AllocError>
    ensures { IfOk result (λ y. y ≡ c.convert kind x) }
{
    match kind {
        ExprType::Plain(scalar, shape, known) => shaped(alloc, shape, kind_by(scalar, known), x),
        ExprType::Text(shape) => shaped(alloc, shape, Kind::Text, x),
        ExprType::Set => Ok(x),
        ExprType::Search => Ok(x),
    }
}

fn made_nesting(kind: Kind, tree: &Placed) -> u64
    ensures { result ≡ c.made_nesting kind tree.now }
{
    match kind {
        Kind::Integer => tree.nesting.saturating_add(1),
        Kind::Number | Kind::Truth | Kind::Text | Kind::Condition => 0,
    }
}

fn deepest_made(kind: Kind, trees: &[Placed]) -> u64
    ensures { result ≡ c.deepest_made kind trees.now }
{
    let mut deepest = 0u64;
    for tree in trees {
        deepest = deepest.max(made_nesting(kind, tree));
    }
    deepest
}

fn nesting_made(kind: Kind, x: &Operand) -> u64
    ensures { result ≡ c.nesting_made kind x.now }
{
    match x {
        Operand::Condition(tree) => made_nesting(kind, tree),
        Operand::Array(array) => deepest_made_of(kind, &array.get().cells),
        _ => 0,
    }
}

fn deepest_made_of(kind: Kind, cells: &Cells) -> u64
    ensures { result ≡ c.deepest_made_of kind cells.now }
{
    match cells {
        Cells::Conditions(trees) => deepest_made(kind, trees.as_slice()),
        _ => 0,
    }
}

/// How deep the trees are that a conversion makes; 0 where it makes none.
#[tactic(auto, unfolding(crate::specs::Conversions::conversion_nesting))]
pub fn conversion_nesting(kind: ExprType, x: &Operand) -> u64
    ensures { result ≡ c.conversion_nesting kind x.now }
{
    match kind {
        ExprType::Plain(scalar, _, known) => nesting_made(kind_by(scalar, known), x),
        ExprType::Text(_) => 0,
        ExprType::Set => 0,
        ExprType::Search => 0,
    }
}
