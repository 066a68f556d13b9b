//! The names that items declare.

ghost use Rattle.std.specs.Prelude.{◌≡◌, ◌∷◌, [], ◌++◌, map, option_map, true, IfOk, OnOk};
ghost use Rattle.ms_syntax.specs.Tree.{item_view, names_view};
ghost use Rattle.ms_typing.specs.Items.{enum_names, globals, globals_of, list_names};
ghost use Rattle.ms_given.specs.Givings as g;
ghost use Rattle.ms_given.specs.Views.{name_of, names_in};

use ms_names::type_of_kind;
use ms_rows::known_of;
use ms_syntax::{Binder, Item, Word};
use std::alloc::{AllocError, Global};

/// A name, and whether it is a known value: one that needs a value.
#[derive(Clone, Copy)]
pub struct Declared<'a> {
    pub name: &'a Word,
    pub known: bool,
}

fn push_name<'a>(
    list: &mut Vec<Declared<'a>>,
    name: &'a Word,
    known: bool,
) -> Result<(), AllocError>
    ensures { OnOk result (names_in list.new.items ≡ names_in list.old.items ++ (name.now, known) ∷ []) }
{
    list.push(Declared { name, known })?;
    Ok(())
}

fn push_listed<'a>(list: &mut Vec<Declared<'a>>, names: &'a [Binder]) -> Result<(), AllocError>
    ensures { OnOk result (names_in list.new.items ≡ names_in list.old.items ++ g.names_of (list_names (names_view names.now))) }
{
    for binder in names {
        push_name(list, &binder.name, true)?;
    }
    Ok(())
}

fn push_enum<'a>(
    list: &mut Vec<Declared<'a>>,
    name: &'a Word,
    names: &'a Option<Vec<Binder>>,
) -> Result<(), AllocError>
    ensures { OnOk result (names_in list.new.items ≡ names_in list.old.items ++ (name.now, true) ∷ g.names_of (enum_names (option_map (λ v. names_view v.items) names.now))) }
{
    push_name(list, name, true)?;
    match names {
        Some(names) => push_listed(list, names),
        None => Ok(()),
    }
}

fn push_item<'a>(list: &mut Vec<Declared<'a>>, item: &'a Item) -> Result<(), AllocError>
    ensures { OnOk result (names_in list.new.items ≡ names_in list.old.items ++ g.names_of (globals_of (item_view item.now))) }
{
    match item {
        Item::Declare(declaration) => {
            let known = known_of(type_of_kind(&declaration.kind));
            push_name(list, &declaration.name, known)
        }
        Item::Enum(_, name, names) => push_enum(list, name, names),
        Item::Predicate(_, name, _, _) => push_name(list, name, false),
        Item::Function(_, _, name, _, _) => push_name(list, name, false),
        _ => Ok(()),
    }
}

/// The names that items declare, in their order.
pub fn declared_names<'a>(alloc: Global, items: &'a [Item]) -> Result<Vec<Declared<'a>>, AllocError>
    ensures { IfOk result (λ list. names_in list.items ≡ g.names_of (globals (map item_view items.now))) }
{
    let mut list = Vec::new(alloc);
    for item in items {
        push_item(&mut list, item)?;
    }
    Ok(list)
}
