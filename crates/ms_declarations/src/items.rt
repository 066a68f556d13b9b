//! The first name that is declared twice in a text, and the names of its items.

ghost use Rattle.std.specs.Prelude.{◌≡◌, ◌++◌, [], IfOk, None, map, option_map};
ghost use Rattle.std.specs.List.{flat_map};
ghost use Rattle.ms_syntax.specs.Tree.{exs_view, ex_view, goal_view, item_view, names_view};
ghost use Rattle.ms_declarations.specs.Declaring.{declarations, first_clash, names_in, names_of};
ghost use Rattle.ms_declarations.specs.Declaring.{names_of_set};
ghost use Rattle.ms_declarations.specs.Repeats.{AddsType, AreTypes, more, names_with, solved_by};
ghost use Rattle.ms_declarations.specs.Repeats.{Tells, TellsWith, twice_goal};
ghost use Rattle.ms_declarations.specs.Repeats.{twice_inside, twice_items, twice_solve};

use crate::names::NameList;
use crate::stop::Stop;
use crate::twice::{check, check_kind, check_maybe, check_parameters};
use ms_syntax::{Binder, Expr, Goal, Item, Place};
use std::alloc::{AllocError, Global};

/// The names that the items of a text declare in one list, or the first name of the text that is
/// declared twice.
pub fn declared_names(alloc: Global, items: &[Item]) -> Result<NameList, Stop>
    ensures { let view = map item_view items.now in TellsWith (first_clash (declarations view))
        (λ names. names_view names ≡ names_of view) result }
{
    let types = enumerations(alloc, items)?;
    declare_items(alloc, &types, items)
}

/// The same, where these are the names of the enumerated types.
fn declare_items(alloc: Global, types: &NameList, items: &[Item]) -> Result<NameList, Stop>
    ensures { let view = map item_view items.now in
        TellsWith (twice_items (names_view types.now) [] None view)
        (λ names. names_view names ≡ flat_map (names_with (names_view types.now)) view) result }
{
    let mut names = NameList::new(alloc);
    let mut solved = None;
    for item in items {
        declare(alloc, types, &mut names, item)?;
        solved = check_solve(solved, item)?;
        check_inside(alloc, item)?;
    }
    Ok(names)
}

/// The names of the enumerated types, each once.
fn enumerations(alloc: Global, items: &[Item]) -> Result<NameList, AllocError>
    ensures { IfOk result (λ types. AreTypes (map item_view items.now) (names_view types)) }
{
    let mut types = NameList::new(alloc);
    for item in items {
        add_type(alloc, &mut types, item)?;
    }
    Ok(types)
}

fn add_type(alloc: Global, types: &mut NameList, item: &Item) -> Result<(), AllocError>
    ensures { IfOk result (λ _. AddsType (names_view types.old) (item_view item.now)
        (names_view types.new)) }
{
    match item {
        Item::Enum(place, name, _) => types.add_once(alloc, *place, name),
        _ => Ok(()),
    }
}

/// Adds what an item declares in the list of all items.
fn declare(alloc: Global, types: &NameList, names: &mut NameList, item: &Item) -> Result<(), Stop>
    ensures { let own = names_with (names_view types.now) (item_view item.now) in
        TellsWith (more (names_view names.old) own) (λ _.
        names_view names.new ≡ names_view names.old ++ own) result }
{
    match item {
        Item::Declare(declaration) => { names.declare(alloc, declaration.place, &declaration.name) }
        Item::Enum(place, name, elements) => {
            names.declare(alloc, *place, name)?;
            match elements {
                Some(elements) => names.declare_all(alloc, elements),
                None => Ok(()),
            }
        }
        Item::Assign(_, name, value) => {
            if types.number(name).is_none() {
                return Ok(());
            }
            let elements = elements(alloc, value)?;
            names.declare_all(alloc, &elements)
        }
        Item::Predicate(place, name, _, _) => names.declare(alloc, *place, name),
        Item::Function(place, _, name, _, _) => names.declare(alloc, *place, name),
        _ => Ok(()),
    }
}

/// The names of a set that lists nothing else.
fn elements(alloc: Global, value: &Expr) -> Result<Vec<Binder>, AllocError>
    ensures { IfOk result (λ names. names_view names.items ≡ names_of_set (ex_view value.now)) }
{
    match value {
        Expr::Set(_, elements) => match all_names(alloc, elements)? {
            Some(names) => Ok(names),
            None => Ok(Vec::new(alloc)),
        },
        _ => Ok(Vec::new(alloc)),
    }
}

/// The names that are all of some expressions.
fn all_names(alloc: Global, elements: &[Expr]) -> Result<Option<Vec<Binder>>, AllocError>
    ensures { IfOk result (λ names. option_map (λ v. names_view v.items) names
        ≡ names_in (exs_view elements.now)) }
{
    let mut names = Vec::new(alloc);
    for element in elements {
        match element {
            Expr::Name(place, name) => {
                let name = name.copy(alloc)?;
                names.push(Binder {
                    place: *place,
                    name,
                })?;
            }
            _ => return Ok(None),
        }
    }
    Ok(Some(names))
}

/// Where the first solve item stands, behind one more item.
fn check_solve(solved: Option<Place>, item: &Item) -> Result<Option<Place>, Stop>
    ensures { TellsWith (twice_solve solved (item_view item.now)) (λ place.
        place ≡ solved_by solved (item_view item.now)) result }
{
    match item {
        Item::Solve(place, _, _) => match solved {
            Some(earlier) => Err(Stop::Twice(earlier, *place)),
            None => Ok(Some(*place)),
        },
        _ => Ok(solved),
    }
}

/// The lists of its own that an item has.
fn check_inside(alloc: Global, item: &Item) -> Result<(), Stop>
    ensures { Tells (twice_inside (item_view item.now)) result }
{
    match item {
        Item::Declare(declaration) => {
            check_kind(alloc, &declaration.kind)?;
            check_maybe(alloc, &declaration.value)
        }
        Item::Assign(_, _, value) => check(alloc, value),
        Item::Constraint(_, condition, _) => check(alloc, condition),
        Item::Solve(_, _, goal) => check_goal(alloc, goal),
        Item::Output(_, texts) => check(alloc, texts),
        Item::Predicate(_, _, parameters, body) => {
            check_parameters(alloc, parameters)?;
            check(alloc, body)
        }
        Item::Function(_, kind, _, parameters, body) => {
            check_kind(alloc, kind)?;
            check_parameters(alloc, parameters)?;
            check(alloc, body)
        }
        Item::Include(_, _) => Ok(()),
        Item::Enum(_, _, _) => Ok(()),
    }
}

fn check_goal(alloc: Global, goal: &Goal) -> Result<(), Stop>
    ensures { Tells (twice_goal (goal_view goal.now)) result }
{
    match goal {
        Goal::Satisfy(_) => Ok(()),
        Goal::Minimize(_, objective) => check(alloc, objective),
        Goal::Maximize(_, objective) => check(alloc, objective),
        Goal::Search(_, search) => check(alloc, search),
    }
}
