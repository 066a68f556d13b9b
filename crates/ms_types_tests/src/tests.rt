//! What the checker says of the tables' texts.

use crate::answers::well_typed;
use crate::tables::{hold_expressions, hold_model, hold_models, hold_orders};
use ms_names::Scope;
use ms_syntax::{Item, Parameter, Tree};
use ms_type_tables::{calls, expressions, forms, items, large, library, orders};
use ms_typing::Surroundings;
use std::alloc::Global;
use std::process::Abort;
use std::test::Fail;

/// Holds tables of expressions that use the same names, each in its surroundings.
fn hold_all(rt: &impl Abort, alloc: Global, tables: &[(Surroundings, &str)]) -> Result<(), Fail> {
    let typed = well_typed(rt, alloc, expressions::NAMES, "")?;
    for (around, table) in tables {
        hold_expressions(rt, alloc, &typed, *around, &Scope::Outer, table)?;
    }
    Ok(())
}

const FORMS: &[(Surroundings, &str)] = &[
    (Surroundings::Model, forms::OPERATORS),
    (Surroundings::Model, forms::BRACKETS),
    (Surroundings::Search, forms::SEARCHES),
    (Surroundings::Search, forms::KNOWN_IN_SEARCHES),
    (Surroundings::Output, forms::OUTPUTS),
    (Surroundings::Called, forms::CALLED),
    (Surroundings::Data, forms::DATA),
];

#[test]
fn forms_have_their_types(rt: HostRuntime) -> Result<(), Fail> {
    hold_all(&rt, rt.alloc(), FORMS)
}

const CALLS: &[(Surroundings, &str)] = &[
    (Surroundings::Model, calls::OF_ARRAYS),
    (Surroundings::Model, calls::OF_VALUES),
    (Surroundings::Model, calls::BARRED),
    (Surroundings::Output, calls::OF_OUTPUTS),
    (Surroundings::Search, calls::OF_INCUMBENTS),
    (Surroundings::Search, calls::STEPS),
];

#[test]
fn calls_have_their_types(rt: HostRuntime) -> Result<(), Fail> {
    hold_all(&rt, rt.alloc(), CALLS)
}

#[test]
fn items_have_their_types(rt: HostRuntime) -> Result<(), Fail> {
    let alloc = rt.alloc();
    hold_models(&rt, alloc, "", items::KINDS, "; solve satisfy", "")?;
    hold_models(&rt, alloc, "", items::MODELS, "", "")
}

#[test]
fn names_are_declared_once_and_by_others(rt: HostRuntime) -> Result<(), Fail> {
    hold_models(&rt, rt.alloc(), "", items::TWICE, "", "")?;
    hold_models(&rt, rt.alloc(), "", items::CYCLES, "", "")
}

#[test]
fn faults_come_by_their_kind(rt: HostRuntime) -> Result<(), Fail> {
    hold_orders(&rt, rt.alloc(), orders::OF_FOUR)?;
    hold_orders(&rt, rt.alloc(), orders::OF_SOME)?;
    hold_orders(&rt, rt.alloc(), orders::UNSOLVED)?;
    hold_orders(&rt, rt.alloc(), orders::BESIDE)
}

/// The library does not see the model's names, and the model sees its.
#[test]
fn the_library_is_checked_first(rt: HostRuntime) -> Result<(), Fail> {
    let alloc = rt.alloc();
    let unknown = "constraint z > 0";
    hold_models(&rt, alloc, "", orders::BESIDE_UNKNOWN, "", unknown)?;
    hold_models(&rt, alloc, "", orders::BESIDE_NAME, "", "int: z")
}

#[test]
fn the_library_is_well_typed(rt: HostRuntime) -> Result<(), Fail> {
    let typed = well_typed(&rt, rt.alloc(), "solve satisfy", library::SEARCHES)?;
    assert_eq!(rt; typed.library().items.len(), 12);
    assert_eq!(rt; typed.tree().items.len(), 1);
    Ok(())
}

#[test]
fn models_call_the_library(rt: HostRuntime) -> Result<(), Fail> {
    let alloc = rt.alloc();
    let names = "; var 1..9: x; array[1..3] of var 1..9: a; array[1..2, 1..2] of var int: g";
    hold_models(
        &rt,
        alloc,
        "solve search ",
        library::GOALS,
        names,
        library::SEARCHES,
    )?;
    hold_models(&rt, alloc, "", library::HIDING, "", library::SEARCHES)
}

/// The parameters of a tree's first item.
fn first_parameters(tree: &Tree) -> &[Parameter] {
    match tree.items.first() {
        Some(Item::Predicate(_, _, parameters, _)) => parameters.as_slice(),
        _ => &[],
    }
}

/// Where the places of an expression are the library's, its names are; what stands around it hides what items declare.
#[test]
fn names_are_those_of_the_text(rt: HostRuntime) -> Result<(), Fail> {
    let alloc = rt.alloc();
    let typed = well_typed(&rt, alloc, expressions::OWN, expressions::OTHER)?;
    let outer = Scope::Outer;
    let inner = Scope::Parameters(first_parameters(typed.tree()), &outer);
    let around = Surroundings::Search;
    hold_expressions(&rt, alloc, &typed, around, &outer, expressions::OF_TEXTS)?;
    hold_expressions(
        &rt,
        alloc,
        &typed,
        around,
        &inner,
        expressions::AMONG_PARAMETERS,
    )
}

/// Holds models in which brackets stand around a value, so often.
fn hold_deep(
    rt: &impl Abort,
    alloc: Global,
    before: &str,
    middle: &str,
    table: &[(&str, &str, usize)],
) -> Result<(), Fail> {
    for (first, last, count) in table {
        let opened = first.repeat(alloc, *count)?;
        let closed = last.repeat(alloc, *count)?;
        let model = format!(in alloc; "solve {before}{opened}{middle}{closed}")?;
        hold_model(rt, alloc, model.as_str(), "", first, "accepted")?;
    }
    Ok(())
}

/// Each form that nests, as often as it may: 200 brackets deep.
#[test]
fn deep_texts_are_typed(rt: HostRuntime) -> Result<(), Fail> {
    hold_deep(&rt, rt.alloc(), "minimize ", "1", large::DEEP)?;
    hold_deep(&rt, rt.alloc(), "search ", "skip", large::DEEP_SEARCHES)
}

/// Long chains of operators, many branches, many items, and many subscripts, of which the second has nothing to select.
#[test]
fn long_texts_are_typed(rt: HostRuntime) -> Result<(), Fail> {
    let alloc = rt.alloc();
    for (before, piece, count, after, wanted) in large::LONG {
        let pieces = piece.repeat(alloc, *count)?;
        let model = format!(in alloc; "{before}{pieces}{after}")?;
        hold_model(&rt, alloc, model.as_str(), "", piece, wanted)?;
    }
    Ok(())
}
