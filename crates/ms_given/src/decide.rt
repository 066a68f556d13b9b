//! The first fault, or where each value stands.

ghost use Rattle.std.specs.Prelude.{◌≡◌, ◌∷◌, [], ◌++◌, ℕ, List, Result, Ok, Err, Option, map, option_map, IfOk, OnOk};
ghost use Rattle.std.specs.HashMap.{get};
ghost use Rattle.std.specs.Str.{bytes_eq};
ghost use Rattle.std.specs.Option.{option_copied};
ghost use Rattle.ms_syntax.specs.Tree.{item_view, assignment_view};
ghost use Rattle.ms_names.specs.Worlds.{world_view};
ghost use Rattle.ms_given.specs.Givings as g;
ghost use Rattle.ms_given.specs.Sources as s;
ghost use Rattle.ms_given.specs.Views.{giving_of, givings_of, name_of, names_in};

use crate::giving::{Giving, givings};
use crate::map::put;
use crate::names::{Declared, declared_names};
use crate::source::{GivenFault, Source};
use ms_names::World;
use ms_syntax::{Assignment, Item, Word};
use std::alloc::{AllocError, Global};
use std::collections::HashMap;

fn is_assignment(source: Source) -> bool
    ensures { result ≡ g.is_assignment source }
{
    match source {
        Source::Declaration => false,
        Source::Item(_) | Source::Datum(_) => true,
    }
}

fn is_unknown(world: &World, giving: &Giving<'_>) -> bool
    ensures { result ≡ g.is_unknown (world_view world.now) (giving_of giving.now) }
{
    is_assignment(giving.source) && world.assigned(giving.place, giving.name).is_none()
}

fn first_unknown<'a, 'b>(world: &World, givens: &'b [Giving<'a>]) -> Option<&'b Giving<'a>>
    ensures { option_map giving_of (option_copied result) ≡ g.unknown (world_view world.now) (givings_of givens.now) }
{
    for giving in givens {
        if is_unknown(world, giving) {
            return Some(giving);
        }
    }
    None
}

/// Where each value stands, by its name; or the first that is one too many.
fn mapped(alloc: Global, givens: &[Giving<'_>]) -> Result<HashMap<Word, Source>, GivenFault>
    ensures { s.Maps (λ m w. get bytes_eq m w) (givings_of givens.now) result }
{
    let mut map = HashMap::new(alloc);
    for giving in givens {
        if map.contains_key(giving.name) {
            return Err(GivenFault::Twice(giving.name.copy(alloc)?, giving.place.file));
        }
        put(alloc, &mut map, giving.name, giving.source)?;
    }
    Ok(map)
}

fn is_missing(map: &HashMap<Word, Source>, name: &Declared<'_>) -> bool
    ensures { (givens : List g.Giving) → ((w : List ℕ) → get bytes_eq map.now w ≡ g.source_among givens w) → result ≡ g.is_missing givens (name_of name.now) }
{
    name.known && !map.contains_key(name.name)
}

fn first_missing<'a, 'b>(map: &HashMap<Word, Source>, names: &'b [Declared<'a>]) -> Option<&'a Word>
    ensures { (givens : List g.Giving) → ((w : List ℕ) → get bytes_eq map.now w ≡ g.source_among givens w) → option_copied result ≡ g.missing givens (names_in names.now) }
{
    for name in names {
        if is_missing(map, name) {
            return Some(name.name);
        }
    }
    None
}

fn sources_by(
    alloc: Global,
    map: &HashMap<Word, Source>,
    names: &[Declared<'_>],
) -> Result<Vec<Option<Source>>, AllocError>
    ensures { IfOk result (λ ss. (givens : List g.Giving) → ((w : List ℕ) → get bytes_eq map.now w ≡ g.source_among givens w) → ss.items ≡ g.sources_of givens (names_in names.now)) }
{
    let mut sources = Vec::new(alloc);
    for name in names {
        push_source(&mut sources, map.get(name.name).copied())?;
    }
    Ok(sources)
}

fn push_source(sources: &mut Vec<Option<Source>>, source: Option<Source>) -> Result<(), AllocError>
    ensures { OnOk result (sources.new.items ≡ sources.old.items ++ source ∷ []) }
{
    sources.push(source)?;
    Ok(())
}

fn decide(
    alloc: Global,
    world: &World,
    givens: &[Giving<'_>],
    names: &[Declared<'_>],
) -> Result<Vec<Option<Source>>, GivenFault>
    ensures { s.Tells (λ ss. ss.items) (s.decided (world_view world.now) (givings_of givens.now) (names_in names.now)) result }
{
    if let Some(giving) = first_unknown(world, givens) {
        return Err(GivenFault::Unknown(giving.name.copy(alloc)?, giving.place.file));
    }
    let map = mapped(alloc, givens)?;
    if let Some(name) = first_missing(&map, names) {
        return Err(GivenFault::Missing(name.copy(alloc)?));
    }
    Ok(sources_by(alloc, &map, names)?)
}

/// For each name that the items of a model declare, in their order, where its value stands, if it has one.
pub fn sources(
    alloc: Global,
    world: &World,
    items: &[Item],
    data: &[Assignment],
) -> Result<Vec<Option<Source>>, GivenFault>
    ensures { s.Tells (λ ss. ss.items) (s.sources_in (world_view world.now) (map item_view items.now) (map assignment_view data.now)) result }
{
    let givens = givings(alloc, items, data)?;
    let names = declared_names(alloc, items)?;
    decide(alloc, world, &givens, &names)
}
