//! What the kind of a declaration says of its name, and what it asks of the sets that it names.

ghost use Rattle.std.specs.Prelude.{◌≡◌, ◌++◌, IfOk};
ghost use Rattle.ms_syntax.specs.Tree.{Maybe, base_view, index, indices_view, kind_view, maybe_view};
ghost use Rattle.ms_typing.specs.Kinds as spec;
ghost use Rattle.ms_typing.specs.Term.{value_types};

use ms_syntax::{Base, Expr, Index, Kind, Mode};
use ms_typing::{ExprType, Scalar, Shape};
use std::alloc::{AllocError, Global};

pub(crate) fn is_variable(mode: Mode) -> bool
    ensures { result ≡ spec.is_variable mode }
{
    match mode {
        Mode::Unmarked => false,
        Mode::Var => true,
        Mode::Par => false,
    }
}

/// The shape of an array with an index set before these.
fn shape_with(rest: &[Index]) -> Shape
    ensures { (first : Maybe) → result ≡ spec.shape_of_indices (index first (indices_view rest.now)) }
{
    match rest.split_first() {
        None => Shape::Line,
        Some(_) => Shape::Grid,
    }
}

fn shape_of_indices(indices: &[Index]) -> Shape
    ensures { result ≡ spec.shape_of_indices (indices_view indices.now) }
{
    match indices.split_first() {
        None => Shape::Single,
        Some((_, rest)) => shape_with(rest),
    }
}

/// The type of a known value, or of an array where the language has none.
fn known_single(shape: Shape, single: ExprType) -> ExprType
    ensures { result ≡ spec.known_single shape single }
{
    match shape {
        Shape::Single => single,
        Shape::Line => ExprType::Plain(Scalar::Number, Shape::Line, true),
        Shape::Grid => ExprType::Plain(Scalar::Number, Shape::Grid, true),
    }
}

fn type_of_base(shape: Shape, known: bool, base: &Base) -> ExprType
    ensures { result ≡ spec.type_of_base shape known (base_view base.now) }
{
    match base {
        Base::Bool => ExprType::Plain(Scalar::Truth, shape, known),
        Base::Int => ExprType::Plain(Scalar::Number, shape, known),
        Base::String => ExprType::Text(shape),
        Base::Ann => known_single(shape, ExprType::Search),
        Base::SetOfInt => known_single(shape, ExprType::Set),
        Base::SetOf(_) => known_single(shape, ExprType::Set),
        Base::Within(_) => ExprType::Plain(Scalar::Number, shape, known),
    }
}

/// The type that a kind gives to its name.
pub fn type_of_kind(kind: &Kind) -> ExprType
    ensures { result ≡ spec.type_of_kind (kind_view kind.now) }
{
    type_of_base(
        shape_of_indices(kind.indices.as_slice()),
        !is_variable(kind.mode),
        &kind.base,
    )
}

/// Adds a set for each index set that is given.
fn push_index_sets(asked: &mut Vec<ExprType>, indices: &[Index]) -> Result<(), AllocError>
    ensures { IfOk result (λ _. asked.new.items ≡ asked.old.items ++ spec.index_sets (indices_view indices.now)) }
{
    for index in indices {
        match index {
            Index::AnyInt => {}
            Index::Over(_) => asked.push(ExprType::Set)?,
        }
    }
    Ok(())
}

/// Adds a set where the values come from one.
fn push_value_set(asked: &mut Vec<ExprType>, base: &Base) -> Result<(), AllocError>
    ensures { IfOk result (λ _. asked.new.items ≡ asked.old.items ++ spec.value_set (base_view base.now)) }
{
    match base {
        Base::SetOf(_) => asked.push(ExprType::Set)?,
        Base::Within(_) => asked.push(ExprType::Set)?,
        _ => {}
    }
    Ok(())
}

/// What the sets that a kind names are to be, in the order of the text: each is to be a set.
pub fn kind_sets(alloc: Global, kind: &Kind) -> Result<Vec<ExprType>, AllocError>
    ensures { IfOk result (λ asked. asked.items ≡ spec.kind_sets (kind_view kind.now)) }
{
    let mut asked = Vec::new(alloc);
    push_index_sets(&mut asked, kind.indices.as_slice())?;
    push_value_set(&mut asked, &kind.base)?;
    Ok(asked)
}

/// What the parts of a declaration are to be: the sets of its kind, and then its value, if it has
/// one, of this type.
pub fn declared_parts(
    alloc: Global,
    kind: &Kind,
    asked: ExprType,
    value: &Option<Expr>,
) -> Result<Vec<ExprType>, AllocError>
    ensures { IfOk result (λ parts. parts.items ≡ spec.kind_sets (kind_view kind.now) ++ value_types asked (maybe_view value.now)) }
{
    let mut parts = kind_sets(alloc, kind)?;
    match value {
        Some(_) => parts.push(asked)?,
        None => {}
    }
    Ok(parts)
}
