//! Calls of functions.

ghost use Rattle.std.specs.Prelude.{◌≡◌, ◌∷◌, [], map, IfOk};
ghost use Rattle.ms_rows.specs.Forms.{read, told_of};
ghost use Rattle.ms_code.specs.Code as code;
ghost use Rattle.ms_nodes.specs.Nodes as spec;
ghost use Rattle.ms_nodes.specs.Parts.{made as made_of};

use crate::conversions::{bring, bring_each};
use crate::parts::{Elaborated, kinds, made};
use ms_built_ins::BuiltIn;
use ms_code::{Code, Generators, Reference};
use ms_rows::{Meaning, Told, as_known, shaped, truths};
use ms_syntax::Place;
use ms_typing::{ExprType, Scalar, Shape};
use sqlite_items::Items;
use std::alloc::{AllocError, Global};

/// What a search with a limit of time asks for, where its arguments are of these types.
fn asked_of_time_limit(alloc: Global, types: &[ExprType]) -> Result<Vec<ExprType>, AllocError>
    ensures { IfOk result (λ v. v.items ≡ code.asked_of_built_in BuiltIn.TimeLimit types.now) }
{
    match types.split_first() {
        Some((first, _)) => Vec::from_slice(alloc, &[*first, ExprType::Search]),
        None => Ok(Vec::new(alloc)),
    }
}

/// What a built-in name asks for, where its arguments are of these types.
fn asked_of_built_in(
    alloc: Global,
    name: BuiltIn,
    types: &[ExprType],
) -> Result<Vec<ExprType>, AllocError>
    ensures { IfOk result (λ v. v.items ≡ code.asked_of_built_in name types.now) }
{
    match name {
        BuiltIn::Scope => Vec::from_slice(alloc, &[ExprType::Search]),
        BuiltIn::Repeat => Vec::from_slice(alloc, &[ExprType::Search]),
        BuiltIn::TimeLimit => asked_of_time_limit(alloc, types),
        BuiltIn::Post => Vec::from_slice(alloc, &[truths(false)]),
        BuiltIn::Keep => Vec::from_slice(
            alloc,
            &[ExprType::Plain(Scalar::Number, Shape::Line, false)],
        ),
        _ => Vec::from_slice(alloc, types),
    }
}

fn read_as(known: bool, t: ExprType) -> ExprType
    ensures { result ≡ read known t }
{
    if known { as_known(t) } else { t }
}

/// These types, each read as known where this is said.
fn read_all(alloc: Global, known: bool, types: &[ExprType]) -> Result<Vec<ExprType>, AllocError>
    ensures { IfOk result (λ v. v.items ≡ map (read known) types.now) }
{
    types.iter().map(|t| read_as(known, *t)).collect(alloc)
}

/// The types that a name asks of its arguments, where these are their own.
fn asked_of(alloc: Global, told: &Told<'_>, types: &[ExprType]) -> Result<Vec<ExprType>, AllocError>
    ensures { IfOk result (λ v. v.items ≡ code.asked_of (told_of told.now) types.now) }
{
    match told {
        Told::Means(Meaning::Function(parameters, known, _)) => {
            read_all(alloc, *known, parameters)
        }
        Told::Means(Meaning::BuiltIn(name)) => asked_of_built_in(alloc, *name, types),
        Told::Means(Meaning::Value(_)) => Vec::from_slice(alloc, types),
        Told::Barred(_) => Vec::from_slice(alloc, types),
        Told::Unknown => Vec::from_slice(alloc, types),
    }
}

/// A call of this type with these arguments.
pub fn call(
    alloc: Global,
    place: Place,
    kind: ExprType,
    told: &Told<'_>,
    reference: Reference,
    arguments: Vec<Elaborated>,
) -> Result<Elaborated, AllocError>
    ensures { IfOk result (λ m. m ≡ made_of kind (spec.call (told_of told.now) place reference arguments.items)) }
{
    let types = kinds(alloc, arguments.as_slice())?;
    let asked = asked_of(alloc, told, types.as_slice())?;
    let codes = bring_each(alloc, asked.as_slice(), arguments)?;
    made(alloc, kind, Code::Call(place, reference, codes))
}

fn first_or(t: ExprType, types: &[ExprType]) -> ExprType
    ensures { result ≡ code.first_or t types.now }
{
    match types.split_first() {
        Some((first, _)) => *first,
        None => t,
    }
}

/// The type of the array that a function is given, where its elements are of this type.
fn gathered(alloc: Global, told: &Told<'_>, element: ExprType) -> Result<ExprType, AllocError>
    ensures { IfOk result (λ t. t ≡ code.gathered (told_of told.now) element) }
{
    let line = shaped(Shape::Line, element);
    let asked = asked_of(alloc, told, &[line])?;
    Ok(first_or(line, asked.as_slice()))
}

fn is_repeat(told: &Told<'_>) -> bool
    ensures { result ≡ code.is_repeat (told_of told.now) }
{
    match told {
        Told::Means(Meaning::BuiltIn(BuiltIn::Repeat)) => true,
        _ => false,
    }
}

/// A search that is repeated for each element of a set.
fn repeat_each(
    alloc: Global,
    place: Place,
    kind: ExprType,
    generators: Generators,
    search: Elaborated,
) -> Result<Elaborated, AllocError>
    ensures { IfOk result (λ m. m ≡ made_of kind (spec.repeating place generators search)) }
{
    let search = bring(alloc, ExprType::Search, search)?;
    made(alloc, kind, Code::RepeatEach(place, generators, search))
}

/// The call of a function with an array that generators make.
fn gather(
    alloc: Global,
    place: Place,
    kind: ExprType,
    told: &Told<'_>,
    reference: Reference,
    generators: Generators,
    element: Elaborated,
) -> Result<Elaborated, AllocError>
    ensures { IfOk result (λ m. m ≡ made_of kind (spec.gather (told_of told.now) place reference generators element)) }
{
    let array = gathered(alloc, told, element.kind)?;
    let element = bring(alloc, shaped(Shape::Single, array), element)?;
    let mut arguments = Items::new(alloc);
    arguments.push(Code::Gathered(place, array, generators, element))?;
    made(alloc, kind, Code::Call(place, reference, arguments))
}

/// The call of a function whose array, or search, generators make.
pub fn generator_call(
    alloc: Global,
    place: Place,
    kind: ExprType,
    told: &Told<'_>,
    reference: Reference,
    generators: Generators,
    element: Elaborated,
) -> Result<Elaborated, AllocError>
    ensures { IfOk result (λ m. m ≡ made_of kind (spec.gathering (told_of told.now) place reference generators element)) }
{
    if is_repeat(told) {
        return repeat_each(alloc, place, kind, generators, element);
    }
    gather(alloc, place, kind, told, reference, generators, element)
}
