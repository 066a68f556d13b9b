//! Which items declare names.

ghost use Rattle.std.specs.Prelude.{◌≡◌, ◌++◌, ◌∷◌, [], map, option_map, IfOk};
ghost use Rattle.ms_syntax.specs.Tree.{item_view, names_view};
ghost use Rattle.ms_typing.specs.Items.{enum_names, globals_of, list_names};
ghost use Rattle.ms_items.specs.Declaring as law;

use ms_syntax::{Binder, Item};
use std::alloc::{AllocError, Global};

/// Adds the place of an item.
fn add(places: &mut Vec<usize>, place: usize) -> Result<(), AllocError>
    ensures { IfOk result (λ _. places.new.items ≡ places.old.items ++ place ∷ []) }
{
    places.push(place)?;
    Ok(())
}

/// The same for each of these names of an enumeration.
fn add_each(places: &mut Vec<usize>, place: usize, names: &[Binder]) -> Result<(), AllocError>
    ensures { IfOk result (λ _. places.new.items ≡ places.old.items ++ map (λ g. place) (list_names (names_view names.now))) }
{
    for _name in names {
        add(places, place)?;
    }
    Ok(())
}

fn add_enum(
    places: &mut Vec<usize>,
    place: usize,
    names: &Option<Vec<Binder>>,
) -> Result<(), AllocError>
    ensures { IfOk result (λ _. places.new.items ≡ places.old.items ++ map (λ g. place) (enum_names (option_map (λ v. names_view v.items) names.now))) }
{
    match names {
        None => Ok(()),
        Some(list) => add_each(places, place, list.as_slice()),
    }
}

/// The same for each name that the item declares.
fn add_item(places: &mut Vec<usize>, place: usize, item: &Item) -> Result<(), AllocError>
    ensures { IfOk result (λ _. places.new.items ≡ places.old.items ++ map (λ g. place) (globals_of (item_view item.now))) }
{
    match item {
        Item::Declare(_) => add(places, place),
        Item::Enum(_, _, names) => {
            add(places, place)?;
            add_enum(places, place, names)
        }
        Item::Predicate(_, _, _, _) => add(places, place),
        Item::Function(_, _, _, _, _) => add(places, place),
        _ => Ok(()),
    }
}

/// For each name that the items of a text declare, as a `Reference` of a typed tree counts them, the place among the items of
/// the item that declares it. An enumeration declares its own name and those of its elements.
pub fn declaring_items(alloc: Global, list: &[Item]) -> Result<Vec<usize>, AllocError>
    ensures { IfOk result (λ places. places.items ≡ law.declarers 0 (map item_view list.now)) }
{
    let mut places = Vec::new(alloc);
    for (place, item) in list.iter().enumerate() {
        add_item(&mut places, place, item)?;
    }
    Ok(places)
}

/// Each name has its item, and is one of those that this item declares.
pub fn declarers_declare()
    ensures all { law.AllHaveDeclarers }
    ensures there { law.DeclarersDeclare }
{}
