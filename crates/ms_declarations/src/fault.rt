//! The first fault of what a model and a library declare.

ghost use Rattle.std.specs.Prelude.{◌≡◌, IfOk, List, None, Option, map};
ghost use Rattle.ms_syntax.specs.Tree.{It, item_view, names_view, tree_view};
ghost use Rattle.ms_declarations.specs.declared.fault.DeclarationFault.{DeclarationFault};
ghost use Rattle.ms_declarations.specs.Declaring.{names_of};
ghost use Rattle.ms_declarations.specs.First.{FirstFault, foreign, Refuses, repeated};

use crate::cycle::first_cycle;
use crate::include::{first_include, has_solve};
use crate::items::declared_names;
use crate::names::NameList;
use crate::stop::Stop;
use ms_syntax::{Item, Place, Tree};
use std::alloc::{AllocError, Global};

/// What is wrong with the declarations of a model or of the library beside it.
#[derive(Clone, Copy, Debug, PartialEq, Eq)]
pub enum DeclarationFault {
    /// A file is included that may not be: the place of the item.
    Include(Place),
    /// A name is declared twice in one list, or is built in, or there is a second solve item: the
    /// earlier place and the later one, which for a built-in name is the same.
    Twice(Place, Place),
    /// The model has no solve item.
    NoSolve,
    /// A name depends on itself: the place of its declaration.
    Cycle(Place),
}

/// The first fault of the declarations, or none. Files that may not be included come first, then
/// names that are declared twice, a model without a solve item, and cycles; of one kind the
/// library's come before the model's, and in a text the first one. Err where memory is wanting.
pub fn declaration_fault(
    alloc: Global,
    model: &Tree,
    library: &Tree,
) -> Result<Option<DeclarationFault>, AllocError>
    ensures { IfOk result (λ fault. FirstFault (tree_view model.now).0 (tree_view library.now).0
        fault) }
{
    match foreign_file(&model.items, &library.items) {
        Some(place) => Ok(Some(DeclarationFault::Include(place))),
        None => name_fault(alloc, &model.items, &library.items),
    }
}

/// The place of the first item that includes a file that may not be included.
#[tactic(auto, using(crate::proofs::Firsts::include_append))]
fn foreign_file(model: &[Item], library: &[Item]) -> Option<Place>
    ensures { result ≡ foreign (map item_view model.now) (map item_view library.now) }
{
    if let Some(place) = first_include(library) {
        return Some(place);
    }
    first_include(model)
}

/// The first fault where every file may be included.
fn name_fault(
    alloc: Global,
    model: &[Item],
    library: &[Item],
) -> Result<Option<DeclarationFault>, AllocError>
    ensures { foreign (map item_view model.now) (map item_view library.now) ≡ None
        → IfOk result (λ fault. FirstFault (map item_view model.now) (map item_view library.now)
        fault) }
{
    match declared_names(alloc, library) {
        Ok(names) => match declared_names(alloc, model) {
            Ok(own_names) => cycle_fault(alloc, model, library, &own_names, &names),
            Err(stop) => refuse(stop),
        },
        Err(stop) => refuse(stop),
    }
}

fn refuse(stop: Stop) -> Result<Option<DeclarationFault>, AllocError>
    ensures { Refuses stop result }
{
    match stop {
        Stop::Twice(earlier, later) => Ok(Some(DeclarationFault::Twice(earlier, later))),
        Stop::Memory => Err(AllocError),
    }
}

/// The first fault where no name is declared twice.
fn cycle_fault(
    alloc: Global,
    model: &[Item],
    library: &[Item],
    own_names: &NameList,
    names: &NameList,
) -> Result<Option<DeclarationFault>, AllocError>
    requires own { names_view own_names.now ≡ names_of (map item_view model.now) }
    requires others { names_view names.now ≡ names_of (map item_view library.now) }
    ensures { foreign (map item_view model.now) (map item_view library.now) ≡ None
        → repeated (map item_view model.now) (map item_view library.now) ≡ None
        → IfOk result (λ fault. FirstFault (map item_view model.now) (map item_view library.now)
        fault) }
{
    if !has_solve(model) {
        return Ok(Some(DeclarationFault::NoSolve));
    }
    if let Some(place) = first_cycle(alloc, library, names)? {
        return Ok(Some(DeclarationFault::Cycle(place)));
    }
    match first_cycle(alloc, model, own_names)? {
        Some(place) => Ok(Some(DeclarationFault::Cycle(place))),
        None => Ok(None),
    }
}

/// A model and a library have one first fault at most, or none.
pub fn one_first_fault()
    ensures { (model library : List It) (a b : Option DeclarationFault)
        → FirstFault model library a → FirstFault model library b → a ≡ b }
{}
