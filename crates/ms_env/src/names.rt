//! An env's names as the parameters of a function, among which an expression is typed.

ghost use Rattle.std.specs.Prelude.{◌≡◌, [], ◌∷◌, map, reverse, IfOk};
ghost use Rattle.ms_syntax.specs.Tree as x;
ghost use Rattle.ms_typing.specs.Items.{with_params};
ghost use Rattle.ms_typing.specs.Kinds as k;
ghost use Rattle.ms_env.specs.Entries as e;

use crate::env::Entry;
use ms_syntax::{Base, Index, Kind, Mode, Parameter, Place};
use ms_typing::{ExprType, Scalar, Shape};
use std::alloc::{AllocError, Global};

fn one_index(alloc: Global) -> Result<Vec<Index>, AllocError>
    ensures { IfOk result (λ is. map x.index_view is.items ≡ x.absent ∷ []) }
{
    let mut indices = Vec::new(alloc);
    indices.push(Index::AnyInt)?;
    Ok(indices)
}

fn two_indices(alloc: Global) -> Result<Vec<Index>, AllocError>
    ensures { IfOk result (λ is. map x.index_view is.items ≡ x.absent ∷ x.absent ∷ []) }
{
    let mut indices = Vec::new(alloc);
    indices.push(Index::AnyInt)?;
    indices.push(Index::AnyInt)?;
    Ok(indices)
}

fn indices_of(alloc: Global, shape: Shape) -> Result<Vec<Index>, AllocError>
    ensures { IfOk result (λ is. k.shape_of_indices (x.indices_view is.items) ≡ shape) }
{
    match shape {
        Shape::Single => Ok(Vec::new(alloc)),
        Shape::Line => one_index(alloc),
        Shape::Grid => two_indices(alloc),
    }
}

fn plain_kind(indices: Vec<Index>, scalar: Scalar, known: bool) -> Kind
    ensures { k.type_of_kind (x.kind_view result) ≡ e.counted (ExprType.Plain scalar (k.shape_of_indices (x.indices_view indices.items)) known) }
{
    Kind {
        indices,
        mode: if known { Mode::Par } else { Mode::Var },
        base: match scalar {
            Scalar::Truth => Base::Bool,
            Scalar::Number => Base::Int,
            Scalar::Empty => Base::Int,
        },
    }
}

fn text_kind(indices: Vec<Index>) -> Kind
    ensures { k.type_of_kind (x.kind_view result) ≡ ExprType.Text (k.shape_of_indices (x.indices_view indices.items)) }
{
    Kind {
        indices,
        mode: Mode::Par,
        base: Base::String,
    }
}

fn set_kind(alloc: Global) -> Kind
    ensures { k.type_of_kind (x.kind_view result) ≡ ExprType.Set }
{
    Kind {
        indices: Vec::new(alloc),
        mode: Mode::Par,
        base: Base::SetOfInt,
    }
}

fn search_kind(alloc: Global) -> Kind
    ensures { k.type_of_kind (x.kind_view result) ≡ ExprType.Search }
{
    Kind {
        indices: Vec::new(alloc),
        mode: Mode::Par,
        base: Base::Ann,
    }
}

// A kind that gives the type.
fn kind_of(alloc: Global, kind: ExprType) -> Result<Kind, AllocError>
    ensures { IfOk result (λ written. k.type_of_kind (x.kind_view written) ≡ e.counted kind) }
{
    match kind {
        ExprType::Plain(scalar, shape, known) => {
            Ok(plain_kind(indices_of(alloc, shape)?, scalar, known))
        }
        ExprType::Text(shape) => Ok(text_kind(indices_of(alloc, shape)?)),
        ExprType::Set => Ok(set_kind(alloc)),
        ExprType::Search => Ok(search_kind(alloc)),
    }
}

fn parameter_of(alloc: Global, entry: &Entry) -> Result<Parameter, AllocError>
    ensures { IfOk result (λ p. (p.name, k.type_of_kind (x.kind_view p.kind)) ≡ e.name_of entry.now) }
{
    let place = Place {
        file: 0,
        line: 1,
        col: 1,
    };
    let name = entry.name.copy(alloc)?;
    let kind = kind_of(alloc, entry.kind)?;
    Ok(Parameter { place, kind, name })
}

/// Entries with the latest at the end, as parameters.
pub fn parameters_of(alloc: Global, entries: &[Entry]) -> Result<Vec<Parameter>, AllocError>
    ensures { IfOk result (λ ps. with_params (x.params_view ps.items) [] ≡ e.names_in (reverse entries.now)) }
{
    let mut parameters = Vec::new(alloc);
    for entry in entries {
        parameters.push(parameter_of(alloc, entry)?)?;
    }
    Ok(parameters)
}
