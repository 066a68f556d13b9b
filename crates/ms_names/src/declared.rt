//! The names that the items of one text declare.

ghost use Rattle.std.specs.Prelude.{◌≡◌, ◌++◌, ◌∷◌, [], map, option_map, IfOk};
ghost use Rattle.ms_rows.specs.Forms.{meaning_of};
ghost use Rattle.ms_syntax.specs.Tree.{item_view, names_view, params_view};
ghost use Rattle.ms_typing.specs.Items.{enum_names, globals, globals_of, list_names, param_types};
ghost use Rattle.ms_typing.specs.Meaning as m;
ghost use Rattle.ms_names.specs.Globals.{globals_view, stored_of};

use crate::kinds::type_of_kind;
use ms_rows::{Meaning, numbers, truths};
use ms_syntax::{Binder, Item, Parameter, Word};
use ms_typing::ExprType;
use std::alloc::{AllocError, Global};

/// What a name stands for that an item declares.
#[derive(Drop)]
pub(crate) enum Stored {
    Value(ExprType),
    /// A function or predicate: what it takes, and its result.
    Function(Vec<ExprType>, ExprType),
}

impl Stored {
    pub(crate) fn meaning(&self) -> Meaning<'_>
        ensures { meaning_of result ≡ stored_of self.now }
    {
        match self {
            Stored::Value(t) => Meaning::Value(*t),
            Stored::Function(types, given) => Meaning::Function(types.as_slice(), false, *given),
        }
    }
}

/// A name that an item declares.
#[derive(Drop)]
pub(crate) struct Declared {
    pub(crate) name: Word,
    pub(crate) meaning: Stored,
}

fn types_of(alloc: Global, parameters: &[Parameter]) -> Result<Vec<ExprType>, AllocError>
    ensures { IfOk result (λ types. types.items ≡ param_types (params_view parameters.now)) }
{
    let mut types = Vec::new(alloc);
    for parameter in parameters {
        types.push(type_of_kind(&parameter.kind))?;
    }
    Ok(types)
}

fn declare_value(
    alloc: Global,
    list: &mut Vec<Declared>,
    name: &Word,
    t: ExprType,
) -> Result<(), AllocError>
    ensures { IfOk result (λ _. globals_view list.new.items ≡ globals_view list.old.items ++ (name.now, m.value t) ∷ []) }
{
    let name = name.copy(alloc)?;
    list.push(Declared {
        name,
        meaning: Stored::Value(t),
    })?;
    Ok(())
}

fn declare_function(
    alloc: Global,
    list: &mut Vec<Declared>,
    name: &Word,
    parameters: &[Parameter],
    given: ExprType,
) -> Result<(), AllocError>
    ensures { IfOk result (λ _. globals_view list.new.items ≡ globals_view list.old.items ++ (name.now, m.function (param_types (params_view parameters.now)) given) ∷ []) }
{
    let types = types_of(alloc, parameters)?;
    let name = name.copy(alloc)?;
    list.push(Declared {
        name,
        meaning: Stored::Function(types, given),
    })?;
    Ok(())
}

/// The names of an enumeration, which count as integers.
fn declare_names(
    alloc: Global,
    list: &mut Vec<Declared>,
    binders: &[Binder],
) -> Result<(), AllocError>
    ensures { IfOk result (λ _. globals_view list.new.items ≡ globals_view list.old.items ++ list_names (names_view binders.now)) }
{
    for binder in binders {
        declare_value(alloc, list, &binder.name, numbers(true))?;
    }
    Ok(())
}

fn declare_enum(
    alloc: Global,
    list: &mut Vec<Declared>,
    names: &Option<Vec<Binder>>,
) -> Result<(), AllocError>
    ensures { IfOk result (λ _. globals_view list.new.items ≡ globals_view list.old.items ++ enum_names (option_map (λ v. names_view v.items) names.now)) }
{
    match names {
        None => Ok(()),
        Some(binders) => declare_names(alloc, list, binders.as_slice()),
    }
}

/// Adds what an item declares.
fn declare(alloc: Global, list: &mut Vec<Declared>, item: &Item) -> Result<(), AllocError>
    ensures { IfOk result (λ _. globals_view list.new.items ≡ globals_view list.old.items ++ globals_of (item_view item.now)) }
{
    match item {
        Item::Declare(declaration) => declare_value(
            alloc,
            list,
            &declaration.name,
            type_of_kind(&declaration.kind),
        ),
        Item::Enum(_, name, names) => {
            declare_value(alloc, list, name, ExprType::Set)?;
            declare_enum(alloc, list, names)
        }
        Item::Predicate(_, name, parameters, _) => {
            declare_function(alloc, list, name, parameters.as_slice(), truths(false))
        }
        Item::Function(_, kind, name, parameters, _) => {
            declare_function(alloc, list, name, parameters.as_slice(), type_of_kind(kind))
        }
        _ => Ok(()),
    }
}

/// What items declare, in their order.
pub(crate) fn declared_by(alloc: Global, items: &[Item]) -> Result<Vec<Declared>, AllocError>
    ensures { IfOk result (λ list. globals_view list.items ≡ globals (map item_view items.now)) }
{
    let mut list = Vec::new(alloc);
    for item in items {
        declare(alloc, &mut list, item)?;
    }
    Ok(list)
}
