//! The names of variables.

ghost use Rattle.std.specs.Prelude.{◌≡◌, ◌∷◌, [], ◌++◌, map, IfOk};
ghost use Rattle.ms_syntax.specs.Tree.{item_view, kind_view};
ghost use Rattle.ms_instance.specs.Reading as d;

use ms_base::Bytes;
use ms_names::type_of_kind;
use ms_rows::known_of;
use ms_syntax::{Item, Kind, Word};
use std::alloc::{AllocError, Global};

fn push_name(names: &mut Vec<Bytes>, alloc: Global, name: &Word) -> Result<(), AllocError>
    ensures { IfOk result (λ _. names.new.items ≡ names.old.items ++ name.now ∷ []) }
{
    let copy = Bytes::from_vec(Vec::from_slice(alloc, name.as_slice())?);
    names.push(copy)?;
    Ok(())
}

fn push_variable(
    names: &mut Vec<Bytes>,
    alloc: Global,
    kind: &Kind,
    name: &Word,
) -> Result<(), AllocError>
    ensures { IfOk result (λ _. names.new.items ≡ names.old.items ++ d.variable_named (kind_view kind.now) name.now) }
{
    if known_of(type_of_kind(kind)) {
        return Ok(());
    }
    push_name(names, alloc, name)
}

fn push_shown(names: &mut Vec<Bytes>, alloc: Global, item: &Item) -> Result<(), AllocError>
    ensures { IfOk result (λ _. names.new.items ≡ names.old.items ++ d.shown_by (item_view item.now)) }
{
    match item {
        Item::Declare(declaration) => {
            push_variable(names, alloc, &declaration.kind, &declaration.name)
        }
        _ => Ok(()),
    }
}

/// The names of the variables that items declare.
pub fn shown_names(alloc: Global, items: &[Item]) -> Result<Vec<Bytes>, AllocError>
    ensures { IfOk result (λ names. names.items ≡ d.shown_among (map item_view items.now)) }
{
    let mut names = Vec::new(alloc);
    for item in items {
        push_shown(&mut names, alloc, item)?;
    }
    Ok(names)
}
