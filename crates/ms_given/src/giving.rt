//! All values that are given, in their order.

ghost use Rattle.std.specs.Prelude.{◌≡◌, ◌∷◌, [], ◌++◌, map, IfOk, OnOk};
ghost use Rattle.ms_syntax.specs.Tree.{item_view, assignment_view};
ghost use Rattle.ms_given.specs.Givings as g;
ghost use Rattle.ms_given.specs.Views.{giving_of, givings_of};

use crate::source::Source;
use ms_syntax::{Assignment, Item, Place, Word};
use std::alloc::{AllocError, Global};

/// A value for a name, with the place where it is given.
#[derive(Clone, Copy)]
pub struct Giving<'a> {
    pub name: &'a Word,
    pub place: Place,
    pub source: Source,
}

fn push_giving<'a>(list: &mut Vec<Giving<'a>>, giving: Giving<'a>) -> Result<(), AllocError>
    ensures { OnOk result (givings_of list.new.items ≡ givings_of list.old.items ++ giving_of giving.entry ∷ []) }
{
    list.push(giving)?;
    Ok(())
}

fn push_item<'a>(
    list: &mut Vec<Giving<'a>>,
    number: usize,
    item: &'a Item,
) -> Result<(), AllocError>
    ensures { OnOk result (givings_of list.new.items ≡ givings_of list.old.items ++ g.given_by number (item_view item.now)) }
{
    match item {
        Item::Declare(declaration) => match &declaration.value {
            Some(_) => push_giving(
                list,
                Giving {
                    name: &declaration.name,
                    place: declaration.place,
                    source: Source::Declaration,
                },
            ),
            None => Ok(()),
        },
        Item::Assign(place, name, _) => push_giving(
            list,
            Giving {
                name,
                place: *place,
                source: Source::Item(number),
            },
        ),
        _ => Ok(()),
    }
}

fn push_items<'a>(list: &mut Vec<Giving<'a>>, items: &'a [Item]) -> Result<(), AllocError>
    ensures { OnOk result (givings_of list.new.items ≡ givings_of list.old.items ++ g.given_in 0 (map item_view items.now)) }
{
    for (number, item) in items.iter().enumerate() {
        push_item(list, number, item)?;
    }
    Ok(())
}

fn push_data<'a>(list: &mut Vec<Giving<'a>>, data: &'a [Assignment]) -> Result<(), AllocError>
    ensures { OnOk result (givings_of list.new.items ≡ givings_of list.old.items ++ g.given_as 0 (map assignment_view data.now)) }
{
    for (number, assignment) in data.iter().enumerate() {
        push_giving(
            list,
            Giving {
                name: &assignment.name,
                place: assignment.place,
                source: Source::Datum(number),
            },
        )?;
    }
    Ok(())
}

/// The values that a model and its data give.
pub fn givings<'a>(
    alloc: Global,
    items: &'a [Item],
    data: &'a [Assignment],
) -> Result<Vec<Giving<'a>>, AllocError>
    ensures { IfOk result (λ list. givings_of list.items ≡ g.givings (map item_view items.now) (map assignment_view data.now)) }
{
    let mut list = Vec::new(alloc);
    push_items(&mut list, items)?;
    push_data(&mut list, data)?;
    Ok(list)
}
