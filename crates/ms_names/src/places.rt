//! Where what a name stands for may stand, and what it is told as there.

ghost use Rattle.std.specs.Prelude.{◌≡◌, ◌||◌, map, not, option_map, if◌then◌else◌};
ghost use Rattle.ms_built_ins.specs.BuiltIns as names;
ghost use Rattle.ms_rows.specs.Forms.{meaning_of, read, told_of};
ghost use Rattle.ms_typing.specs.Meaning as spec;

use ms_built_ins::BuiltIn;
use ms_rows::{Meaning, Told, as_known, is_search};
use ms_typing::{ExprType, Surroundings};

/// Whether every value is known there.
fn knows(surroundings: Surroundings) -> bool
    ensures { result ≡ spec.knows surroundings }
{
    match surroundings {
        Surroundings::Model => false,
        Surroundings::Search => false,
        Surroundings::Output => true,
        Surroundings::Called => true,
        Surroundings::Data => true,
    }
}

/// Whether an expression is a value of a data file.
pub fn is_data(surroundings: Surroundings) -> bool
    ensures { result ≡ spec.is_data surroundings }
{
    match surroundings {
        Surroundings::Model => false,
        Surroundings::Search => false,
        Surroundings::Output => false,
        Surroundings::Called => false,
        Surroundings::Data => true,
    }
}

fn is_in_search(surroundings: Surroundings) -> bool
    ensures { result ≡ spec.is_in_search surroundings }
{
    match surroundings {
        Surroundings::Model => false,
        Surroundings::Search => true,
        Surroundings::Output => false,
        Surroundings::Called => false,
        Surroundings::Data => false,
    }
}

fn is_in_output(surroundings: Surroundings) -> bool
    ensures { result ≡ spec.is_in_output surroundings }
{
    match surroundings {
        Surroundings::Model => false,
        Surroundings::Search => false,
        Surroundings::Output => true,
        Surroundings::Called => false,
        Surroundings::Data => false,
    }
}

/// Whether what a built-in name needs around it is there.
fn meets_needs(surroundings: Surroundings, name: BuiltIn) -> bool
    ensures { result ≡ spec.meets_needs surroundings (names.needs_around name) }
{
    match name {
        BuiltIn::Fix => is_in_output(surroundings),
        BuiltIn::Sol => is_in_search(surroundings),
        BuiltIn::HasSol => is_in_search(surroundings),
        BuiltIn::Uniform => is_in_search(surroundings),
        BuiltIn::Next => is_in_search(surroundings),
        BuiltIn::Post => is_in_search(surroundings),
        BuiltIn::Commit => is_in_search(surroundings),
        BuiltIn::Print => is_in_search(surroundings),
        BuiltIn::Scope => is_in_search(surroundings),
        BuiltIn::Repeat => is_in_search(surroundings),
        BuiltIn::Break => is_in_search(surroundings),
        BuiltIn::Fail => is_in_search(surroundings),
        BuiltIn::Skip => is_in_search(surroundings),
        BuiltIn::TimeLimit => is_in_search(surroundings),
        BuiltIn::Keep => is_in_search(surroundings),
        BuiltIn::ClearFront => is_in_search(surroundings),
        BuiltIn::PrintFront => is_in_search(surroundings),
        _ => !is_data(surroundings),
    }
}

/// Whether a value of a data file may use it.
fn makes_array(name: BuiltIn) -> bool
    ensures { result ≡ names.makes_array name }
{
    match name {
        BuiltIn::ArrayLine => true,
        BuiltIn::ArrayGrid => true,
        _ => false,
    }
}

fn may_call(surroundings: Surroundings, given: ExprType) -> bool
    ensures { result ≡ (if spec.is_search given then spec.is_in_search surroundings else not (spec.is_data surroundings)) }
{
    if is_search(given) {
        is_in_search(surroundings)
    } else {
        !is_data(surroundings)
    }
}

/// Whether what a name stands for may stand in these surroundings.
pub fn may_stand(surroundings: Surroundings, meaning: Meaning<'_>) -> bool
    ensures { result ≡ spec.may_stand surroundings (meaning_of meaning.entry) }
{
    match meaning {
        Meaning::Value(_) => !is_data(surroundings),
        Meaning::Function(_, _, given) => may_call(surroundings, given),
        Meaning::BuiltIn(name) => meets_needs(surroundings, name) || makes_array(name),
    }
}

/// A type as the surroundings see it.
pub fn seen(surroundings: Surroundings, t: ExprType) -> ExprType
    ensures { result ≡ spec.seen surroundings t }
{
    if knows(surroundings) { as_known(t) } else { t }
}

fn is_read_known(surroundings: Surroundings, known: bool) -> bool
    ensures { result ≡ (known || spec.knows surroundings) }
{
    known || knows(surroundings)
}

fn seen_function<'a>(
    surroundings: Surroundings,
    types: &'a [ExprType],
    known: bool,
    given: ExprType,
) -> Meaning<'a>
    ensures { meaning_of result ≡ spec.seen_meaning surroundings (spec.function (map (read known) types.now) given) }
{
    Meaning::Function(
        types,
        is_read_known(surroundings, known),
        seen(surroundings, given),
    )
}

fn seen_meaning<'a>(surroundings: Surroundings, meaning: Meaning<'a>) -> Meaning<'a>
    ensures { meaning_of result ≡ spec.seen_meaning surroundings (meaning_of meaning.entry) }
{
    match meaning {
        Meaning::Value(t) => Meaning::Value(seen(surroundings, t)),
        Meaning::Function(types, known, given) => {
            seen_function(surroundings, types, known, given)
        }
        Meaning::BuiltIn(name) => Meaning::BuiltIn(name),
    }
}

/// What a name is told as that stands for this, or for nothing.
pub fn tell<'a>(surroundings: Surroundings, found: Option<Meaning<'a>>) -> Told<'a>
    ensures { told_of result ≡ spec.tell surroundings (option_map meaning_of found.entry) }
{
    match found {
        None => Told::Unknown,
        Some(meaning) => {
            if may_stand(surroundings, meaning) {
                Told::Means(seen_meaning(surroundings, meaning))
            } else {
                Told::Barred(meaning)
            }
        }
    }
}
