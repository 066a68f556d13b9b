//! Names that are called.

ghost use Rattle.std.specs.Prelude.{◌≡◌, map};
ghost use Rattle.ms_typing.specs.Least as least;
ghost use Rattle.ms_rows.specs.Forms.{asked_of, meaning_of, read, result_of, told_of};

use crate::arguments::{Asked, asks, asks_uniform, extreme, over_array, tested};
use crate::conversion::{
    is_array_type, is_element, is_fixed, is_grid, is_line, is_shown, numbers, shaped, truths,
};
use crate::form::{Meaning, Told};
use crate::operands::{
    Kind, a_number, a_truth, fit_params, fit_with_last, last_of, needs, operand, read_as,
};
use ms_built_ins::BuiltIn;
use ms_typing::{ExprType, Scalar, Shape};

/// How often a value stands in an array.
fn count(types: &[ExprType]) -> Option<Asked>
    ensures { result ≡ asked_of (least.call_built_in BuiltIn.Count types.now) }
{
    asks_uniform(
        &[Kind::Follows(Scalar::Number, Shape::Line), a_number()],
        a_number(),
        types,
    )
}

/// Whether an array is one of the rows of another, which are known.
fn table(types: &[ExprType]) -> Option<Asked>
    ensures { result ≡ asked_of (least.call_built_in BuiltIn.Table types.now) }
{
    let rows = ExprType::Plain(Scalar::Number, Shape::Grid, true);
    asks_uniform(
        &[
            Kind::Follows(Scalar::Number, Shape::Line),
            Kind::Fixed(rows),
        ],
        a_truth(),
        types,
    )
}

fn array_line(types: &[ExprType]) -> Option<Asked>
    ensures { result ≡ asked_of (least.call_built_in BuiltIn.ArrayLine types.now) }
{
    let t = operand(1, types);
    if is_array_type(t) {
        asks(types, &[ExprType::Set, t], shaped(Shape::Line, t))
    } else {
        None
    }
}

fn array_grid(types: &[ExprType]) -> Option<Asked>
    ensures { result ≡ asked_of (least.call_built_in BuiltIn.ArrayGrid types.now) }
{
    let t = operand(2, types);
    if is_array_type(t) {
        asks(
            types,
            &[ExprType::Set, ExprType::Set, t],
            shaped(Shape::Grid, t),
        )
    } else {
        None
    }
}

/// A value on the incumbent.
fn on_incumbent(types: &[ExprType]) -> Option<Asked>
    ensures { result ≡ asked_of (least.call_built_in BuiltIn.Sol types.now) }
{
    match operand(0, types) {
        ExprType::Plain(c, _, _) => asks(
            types,
            &[ExprType::Plain(c, Shape::Single, false)],
            ExprType::Plain(c, Shape::Single, true),
        ),
        _ => None,
    }
}

/// The incumbent, or a text.
fn print(types: &[ExprType]) -> Option<Asked>
    ensures { result ≡ asked_of (least.call_built_in BuiltIn.Print types.now) }
{
    match asks(types, &[], ExprType::Search) {
        Some(asked) => Some(asked),
        None => asks(types, &[ExprType::Text(Shape::Single)], ExprType::Search),
    }
}

/// A function of the language over arguments of these types.
fn call_built_in(name: BuiltIn, types: &[ExprType]) -> Option<Asked>
    ensures { result ≡ asked_of (least.call_built_in name types.now) }
{
    let first = operand(0, types);
    match name {
        BuiltIn::ForAll => over_array(Scalar::Truth, Scalar::Truth, types),
        BuiltIn::Exists => over_array(Scalar::Truth, Scalar::Truth, types),
        BuiltIn::Sum => over_array(Scalar::Number, Scalar::Number, types),
        BuiltIn::Min => extreme(types),
        BuiltIn::Max => extreme(types),
        BuiltIn::Abs => asks_uniform(&[a_number()], a_number(), types),
        BuiltIn::BoolToInt => asks_uniform(&[a_truth()], a_number(), types),
        BuiltIn::Count => count(types),
        BuiltIn::AllDifferent => over_array(Scalar::Number, Scalar::Truth, types),
        BuiltIn::Table => table(types),
        BuiltIn::Length => tested(is_array_type(first), numbers(true), types),
        BuiltIn::IndexSet => tested(is_line(first), ExprType::Set, types),
        BuiltIn::RowIndexSet => tested(is_grid(first), ExprType::Set, types),
        BuiltIn::ColumnIndexSet => tested(is_grid(first), ExprType::Set, types),
        BuiltIn::Card => asks(types, &[ExprType::Set], numbers(true)),
        BuiltIn::ArrayLine => array_line(types),
        BuiltIn::ArrayGrid => array_grid(types),
        BuiltIn::Show => tested(is_shown(first), ExprType::Text(Shape::Single), types),
        BuiltIn::Fix => tested(is_fixed(first), first, types),
        BuiltIn::Sol => on_incumbent(types),
        BuiltIn::HasSol => asks(types, &[], truths(true)),
        BuiltIn::Uniform => asks(types, &[numbers(true), numbers(true)], numbers(true)),
        BuiltIn::Next => asks(types, &[], ExprType::Search),
        BuiltIn::Post => asks(types, &[truths(false)], ExprType::Search),
        BuiltIn::Commit => asks(types, &[], ExprType::Search),
        BuiltIn::Print => print(types),
        BuiltIn::Scope => asks(types, &[ExprType::Search], ExprType::Search),
        BuiltIn::Repeat => asks(types, &[ExprType::Search], ExprType::Search),
        BuiltIn::Break => None,
        BuiltIn::Fail => None,
        BuiltIn::Skip => None,
        BuiltIn::TimeLimit => asks(types, &[numbers(true), ExprType::Search], ExprType::Search),
        BuiltIn::Keep => asks(
            types,
            &[ExprType::Plain(Scalar::Number, Shape::Line, false)],
            ExprType::Search,
        ),
        BuiltIn::ClearFront => asks(types, &[], ExprType::Search),
        BuiltIn::PrintFront => asks(types, &[], ExprType::Search),
    }
}

/// A function or predicate of the model or the library.
fn call_function(
    params: &[ExprType],
    known: bool,
    given: ExprType,
    types: &[ExprType],
) -> Option<Asked>
    ensures { result ≡ asked_of (least.needs types.now (map (read known) params.now) given) }
{
    if fit_params(types, params, known) {
        Some(Asked {
            first: read_as(known, operand(0, params)),
            result: given,
        })
    } else {
        None
    }
}

fn call(meaning: &Meaning<'_>, types: &[ExprType]) -> Option<Asked>
    ensures { result ≡ asked_of (least.call (meaning_of meaning.now) types.now) }
{
    match meaning {
        Meaning::Value(_) => None,
        Meaning::Function(params, known, given) => call_function(params, *known, *given, types),
        Meaning::BuiltIn(name) => call_built_in(*name, types),
    }
}

/// A name with arguments.
pub(crate) fn call_told(told: &Told<'_>, types: &[ExprType]) -> Option<ExprType>
    ensures { result ≡ result_of (least.call_told (told_of told.now) types.now) }
{
    match told {
        Told::Unknown => None,
        Told::Means(meaning) => match call(meaning, types) {
            Some(asked) => Some(asked.result),
            None => None,
        },
        Told::Barred(_) => None,
    }
}

/// Whether it is written without brackets.
fn is_bare(name: BuiltIn) -> bool
    ensures { result ≡ least.is_bare name }
{
    match name {
        BuiltIn::Break => true,
        BuiltIn::Fail => true,
        BuiltIn::Skip => true,
        _ => false,
    }
}

/// A name by itself.
pub(crate) fn stand_told(told: &Told<'_>, types: &[ExprType]) -> Option<ExprType>
    ensures { result ≡ result_of (least.stand_told (told_of told.now) types.now) }
{
    match told {
        Told::Means(Meaning::Value(t)) => needs(types, &[], *t),
        Told::Means(Meaning::BuiltIn(name)) => {
            if is_bare(*name) {
                needs(types, &[], ExprType::Search)
            } else {
                None
            }
        }
        _ => None,
    }
}

fn is_repeat(meaning: &Meaning<'_>) -> bool
    ensures { result ≡ least.is_repeat (meaning_of meaning.now) }
{
    match meaning {
        Meaning::BuiltIn(BuiltIn::Repeat) => true,
        _ => false,
    }
}

/// A function of the array that generators make of elements of a type.
fn generate_over(
    meaning: &Meaning<'_>,
    asked: &[ExprType],
    types: &[ExprType],
    element: ExprType,
) -> Option<ExprType>
    ensures { result ≡ result_of (least.generate_over (meaning_of meaning.now) asked.now types.now element) }
{
    if !is_element(element) {
        return None;
    }
    match call(meaning, &[shaped(Shape::Line, element)]) {
        Some(called) => {
            if fit_with_last(types, asked, shaped(Shape::Single, called.first)) {
                Some(called.result)
            } else {
                None
            }
        }
        None => None,
    }
}

fn generate(
    meaning: &Meaning<'_>,
    asked: &[ExprType],
    one: bool,
    types: &[ExprType],
) -> Option<ExprType>
    ensures { result ≡ result_of (least.generate (meaning_of meaning.now) asked.now one types.now) }
{
    if is_repeat(meaning) && one {
        if fit_with_last(types, asked, ExprType::Search) {
            return Some(ExprType::Search);
        }
        return None;
    }
    match last_of(types) {
        Some(element) => generate_over(meaning, asked, types, element),
        None => None,
    }
}

/// A name with generators.
pub(crate) fn generate_told(
    told: &Told<'_>,
    asked: &[ExprType],
    one: bool,
    types: &[ExprType],
) -> Option<ExprType>
    ensures { result ≡ result_of (least.generate_told (told_of told.now) asked.now one types.now) }
{
    match told {
        Told::Means(meaning) => generate(meaning, asked, one, types),
        _ => None,
    }
}
