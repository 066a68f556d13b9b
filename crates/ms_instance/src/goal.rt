//! What a model asks for, and its output items.

ghost use Rattle.std.specs.Prelude.{◌≡◌, Some, slice_get, IfOk, OnOk, ◌++◌, ◌∷◌, []};
ghost use Rattle.std.specs.Option.{option_copied};
ghost use Rattle.ms_instance.specs.Reading as d;

use ms_code::{Code, Goal, Item};
use ms_types::Typed;
use sqlite_items::at;
use std::alloc::{AllocError, Global};

fn goal_of(item: &Item) -> Option<&Goal>
    ensures { option_copied result ≡ d.goal_of item.now }
{
    match item {
        Item::Solve(_, goal) => Some(goal),
        _ => None,
    }
}

fn first_goal(items: &[Item]) -> Option<&Goal>
    ensures { option_copied result ≡ d.first_goal items.now }
{
    for item in items {
        if let Some(goal) = goal_of(item) {
            return Some(goal);
        }
    }
    None
}

/// The goal of a model's solve item.
pub fn goal_in(typed: &Typed) -> &Goal
    ensures { Some result.now ≡ d.goal_in typed.now }
{
    let _model = typed.tree();
    first_goal(typed.items()).unwrap()
}

fn output_of(item: &Item) -> Option<&Code>
    ensures { option_copied result ≡ d.output_of item.now }
{
    match item {
        Item::Output(_, e) => Some(e),
        _ => None,
    }
}

fn is_output(item: &Item) -> bool
    ensures { result ≡ d.is_output item.now }
{
    match item {
        Item::Output(_, _) => true,
        _ => false,
    }
}

/// The places of the output items.
pub fn output_places(alloc: Global, items: &[Item]) -> Result<Vec<usize>, AllocError>
    ensures { IfOk result (λ places. places.items ≡ d.output_places 0 items.now) }
{
    let mut places = Vec::new(alloc);
    for (place, item) in items.iter().enumerate() {
        if is_output(item) {
            places.push(place)?;
        }
    }
    Ok(places)
}

fn output_in(items: &[Item], place: usize) -> Option<&Code>
    ensures { option_copied result ≡ d.output_at items.now (Some place) }
{
    match at(items, place) {
        Some(item) => output_of(item),
        None => None,
    }
}

/// The output item with this number, from the places of all.
pub fn output_at<'a>(items: &'a [Item], places: &[usize], number: usize) -> Option<&'a Code>
    ensures { option_copied result ≡ d.output_at items.now (slice_get places.now number) }
{
    match at(places, number) {
        Some(place) => output_in(items, *place),
        None => None,
    }
}
