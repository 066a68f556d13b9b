//! Why a node has no type.

ghost use Rattle.std.specs.Prelude.{◌≡◌, map, length, IfOk};
ghost use Rattle.ms_built_ins.specs.BuiltIns as names;
ghost use Rattle.ms_typing.specs.Conversion as spec;
ghost use Rattle.ms_typing.specs.Fault as faults;
ghost use Rattle.ms_typing.specs.Least as least;
ghost use Rattle.ms_rows.specs.Forms.{form_of, meaning_of, told_of, Tells};

use crate::conversion::{as_known, shape_of};
use crate::form::{Form, Meaning, Told};
use crate::rows::row;
use ms_built_ins::BuiltIn;
use ms_syntax::Place;
use ms_typing::{Cause, ExprType, Shape};
use std::alloc::{AllocError, Global};
use thiserror::Error;

/// Why a model or an expression is not well typed, and where.
#[derive(Debug, Drop, Error)]
pub enum TypeFault {
    /// An `include` of a file that may not be included: where it stands.
    #[error("a text is included")]
    Include(Place),
    /// A name that is declared twice: the earlier place, and the later one.
    #[error("a name is declared twice")]
    Twice(Place, Place),
    /// A model without a solve item. A second one is `Twice`.
    #[error("no solve item")]
    NoSolve,
    /// A declaration that depends on itself.
    #[error("a declaration depends on itself")]
    Cycle(Place),
    /// A name that stands for nothing.
    #[error("a name stands for nothing")]
    Unknown(Place),
    /// A number of arguments or indices that no form of the name takes.
    #[error("a number of arguments that no form of the name takes")]
    Arity(Place),
    /// It would have a type if the parts that are variable were known.
    #[error("a value has to be known")]
    NotKnown(Place),
    /// A kind, a declaration or an item that is not supported.
    #[error("not supported")]
    Unsupported(Place),
    /// Types that do not go together.
    #[error("types that do not go together")]
    Mismatch(Place),
    /// Memory did not suffice.
    #[error("out of memory")]
    Memory,
}

impl From<AllocError> for TypeFault {
    ghost use Rattle.ms_rows.specs.declared.fault.TypeFault.TheVariants.{Memory};
    ghost use Rattle.std.specs.Prelude.{◌≡◌};

    ghost from_gives = { λ _ e. e ≡ Memory };

    fn from(_: AllocError) -> TypeFault {
        TypeFault::Memory
    }
}

/// Whether a name takes so many arguments in brackets.
fn takes(name: BuiltIn, count: usize) -> bool
    ensures { result ≡ names.takes name count }
{
    match name {
        BuiltIn::Min => count == 1 || count == 2,
        BuiltIn::Max => count == 1 || count == 2,
        BuiltIn::Print => count == 0 || count == 1,
        BuiltIn::Count => count == 2,
        BuiltIn::Table => count == 2,
        BuiltIn::ArrayLine => count == 2,
        BuiltIn::ArrayGrid => count == 3,
        BuiltIn::Uniform => count == 2,
        BuiltIn::TimeLimit => count == 2,
        BuiltIn::HasSol => count == 0,
        BuiltIn::Next => count == 0,
        BuiltIn::Commit => count == 0,
        BuiltIn::Break => count == 0,
        BuiltIn::Fail => count == 0,
        BuiltIn::Skip => count == 0,
        BuiltIn::ClearFront => count == 0,
        BuiltIn::PrintFront => count == 0,
        _ => count == 1,
    }
}

fn takes_count(meaning: &Meaning<'_>, count: usize) -> bool
    ensures { result ≡ faults.takes_count (meaning_of meaning.now) count }
{
    match meaning {
        Meaning::Value(_) => true,
        Meaning::Function(params, _, _) => count == params.len(),
        Meaning::BuiltIn(name) => takes(*name, count),
    }
}

fn told_takes(told: &Told<'_>, count: usize) -> bool
    ensures { result ≡ faults.told_takes (told_of told.now) count }
{
    match told {
        Told::Unknown => true,
        Told::Means(meaning) => takes_count(meaning, count),
        Told::Barred(meaning) => takes_count(meaning, count),
    }
}

fn takes_indices(shape: Shape, count: usize) -> bool
    ensures { result ≡ faults.takes_indices shape count }
{
    match shape {
        Shape::Single => true,
        Shape::Line => count == 1,
        Shape::Grid => count == 2,
    }
}

/// An array, and another number of indices than it has.
fn wrong_indices(types: &[ExprType]) -> bool
    ensures { result ≡ faults.wrong_indices types.now }
{
    match types.split_first() {
        Some((array, indices)) => !takes_indices(shape_of(*array), indices.len()),
        None => false,
    }
}

fn wrong_count(form: &Form<'_>, types: &[ExprType]) -> bool
    ensures { result ≡ faults.wrong_count (form_of form.now) types.now }
{
    match form {
        Form::Calls(told) => !told_takes(told, types.len()),
        Form::Generates(told, _, _) => !told_takes(told, 1),
        Form::Access => wrong_indices(types),
        _ => false,
    }
}

fn is_told_unknown(told: &Told<'_>) -> bool
    ensures { result ≡ faults.is_told_unknown (told_of told.now) }
{
    match told {
        Told::Unknown => true,
        _ => false,
    }
}

fn is_unknown(form: &Form<'_>) -> bool
    ensures { result ≡ faults.is_unknown (form_of form.now) }
{
    match form {
        Form::Stands(told) => is_told_unknown(told),
        Form::Calls(told) => is_told_unknown(told),
        Form::Generates(told, _, _) => is_told_unknown(told),
        _ => false,
    }
}

fn is_unsupported(form: &Form<'_>) -> bool
    ensures { result ≡ faults.is_unsupported (form_of form.now) }
{
    match form {
        Form::Declares(supported, _, _) => !*supported,
        Form::Unsupported => true,
        _ => false,
    }
}

fn all_as_known(alloc: Global, types: &[ExprType]) -> Result<Vec<ExprType>, AllocError>
    ensures { IfOk result (λ v. v.items ≡ map spec.as_known types.now) }
{
    types.iter().map(|t| as_known(*t)).collect(alloc)
}

fn otherwise(alloc: Global, form: &Form<'_>, types: &[ExprType]) -> Result<Cause, AllocError>
    ensures { IfOk result (λ c. c ≡ least.otherwise (form_of form.now) types.now) }
{
    let known = all_as_known(alloc, types)?;
    match row(form, known.as_slice()) {
        Some(_) => Ok(Cause::NotKnown),
        None => Ok(Cause::Mismatch),
    }
}

/// Why a node has no type, whose parts have these types: the first cause that there is.
pub fn why(alloc: Global, form: &Form<'_>, types: &[ExprType]) -> Result<Cause, AllocError>
    ensures { IfOk result (λ c. c ≡ least.why (form_of form.now) types.now) }
{
    if is_unknown(form) {
        return Ok(Cause::Unknown);
    }
    if wrong_count(form, types) {
        return Ok(Cause::Arity);
    }
    if is_unsupported(form) {
        return Ok(Cause::Unsupported);
    }
    otherwise(alloc, form, types)
}

fn at_place(cause: Cause, place: Place) -> TypeFault
    ensures { Tells {A = ExprType} (least.fault cause place) (Err result) }
{
    match cause {
        Cause::Unknown => TypeFault::Unknown(place),
        Cause::Arity => TypeFault::Arity(place),
        Cause::Unsupported => TypeFault::Unsupported(place),
        Cause::NotKnown => TypeFault::NotKnown(place),
        Cause::Mismatch => TypeFault::Mismatch(place),
    }
}

/// The type of a node whose parts have these types, or why it has none.
pub fn settle(
    alloc: Global,
    place: Place,
    form: &Form<'_>,
    types: &[ExprType],
) -> Result<ExprType, TypeFault>
    ensures { Tells (least.settle place (form_of form.now) types.now
        (least.row (form_of form.now) types.now)) result }
{
    match row(form, types) {
        Some(t) => Ok(t),
        None => match why(alloc, form, types) {
            Ok(cause) => Err(at_place(cause, place)),
            Err(_) => Err(TypeFault::Memory),
        },
    }
}
