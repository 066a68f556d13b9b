//! Values of names and bodies of functions, by the numbers of the names.

ghost use Rattle.std.specs.Prelude.{◌≡◌, slice_get, IfOk, Some};
ghost use Rattle.std.specs.Option.{option_copied};
ghost use Rattle.ms_instance.specs.Names as d;

use ms_code::{Code, Function, Item};
use ms_values::Operand;
use sqlite_items::at;
use std::alloc::{AllocError, Global};

/// The value of the name with this number.
pub fn value_at(alloc: Global, values: &[Operand], number: usize) -> Result<Operand, AllocError>
    ensures { IfOk result (λ x. x ≡ d.value_or_nothing (slice_get values.now number)) }
{
    match at(values, number) {
        Some(x) => x.share(alloc),
        None => Ok(Operand::Number(None)),
    }
}

fn body_of(item: &Item) -> Option<&Code>
    ensures { option_copied result ≡ d.body_of item.now }
{
    match item {
        Item::Function(function) => Some(&function.body),
        _ => None,
    }
}

fn known_body(function: &Function) -> Option<&Code>
    ensures { option_copied result ≡ function.now.known_body }
{
    match &function.known_body {
        Some(body) => Some(body),
        None => None,
    }
}

fn known_body_of(item: &Item) -> Option<&Code>
    ensures { option_copied result ≡ d.known_body_of item.now }
{
    match item {
        Item::Function(function) => known_body(function),
        _ => None,
    }
}

fn body_in(items: &[Item], place: usize) -> Option<&Code>
    ensures { option_copied result ≡ d.at_item d.body_of items.now (Some place) }
{
    match at(items, place) {
        Some(item) => body_of(item),
        None => None,
    }
}

fn known_body_in(items: &[Item], place: usize) -> Option<&Code>
    ensures { option_copied result ≡ d.at_item d.known_body_of items.now (Some place) }
{
    match at(items, place) {
        Some(item) => known_body_of(item),
        None => None,
    }
}

/// The body of the function whose name has this number, from the places of the items that declare the names.
pub fn body_at<'a>(items: &'a [Item], places: &[usize], number: usize) -> Option<&'a Code>
    ensures { option_copied result ≡ d.body_at d.body_of items.now places.now number }
{
    match at(places, number) {
        Some(place) => body_in(items, *place),
        None => None,
    }
}

/// The same of the body where every value is known.
pub fn known_body_at<'a>(items: &'a [Item], places: &[usize], number: usize) -> Option<&'a Code>
    ensures { option_copied result ≡ d.body_at d.known_body_of items.now places.now number }
{
    match at(places, number) {
        Some(place) => known_body_in(items, *place),
        None => None,
    }
}
