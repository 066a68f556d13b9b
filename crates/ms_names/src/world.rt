//! What a name stands for.

ghost use Rattle.std.specs.Prelude.{◌≡◌, map, option_map, IfOk};
ghost use Rattle.ms_built_ins.specs.BuiltIns as names;
ghost use Rattle.ms_code.specs.References as code;
ghost use Rattle.ms_rows.specs.Forms.{meaning_of};
ghost use Rattle.ms_syntax.specs.Tree.{item_view};
ghost use Rattle.ms_typing.specs.Items as items;
ghost use Rattle.ms_typing.specs.Meaning as spec;
ghost use Rattle.ms_code.specs.Items.{value_among};
ghost use Rattle.ms_names.specs.Assigned.{assigns, valued};
ghost use Rattle.ms_names.specs.Globals.{stored_of};
ghost use Rattle.ms_names.specs.Scopes.{names_of};
ghost use Rattle.ms_names.specs.Worlds.{world_view};

use crate::declared::{Stored, declared_by};
use crate::globals::Globals;
use crate::scope::{Looked, Scope, look_inside};
use ms_built_ins::built_in;
use ms_code::Reference;
use ms_rows::Meaning;
use ms_syntax::{Item, Place, Word};
use ms_typing::ExprType;
use std::alloc::{AllocError, Global};

/// The number and the type of a name, unless it is a function's.
fn value_of(found: Option<(usize, &Stored)>) -> Option<(usize, ExprType)>
    ensures { result ≡ valued (option_map (λ f. f.0) found.entry) (option_map (λ f. stored_of f.1.now) found.entry) }
{
    match found {
        None => None,
        Some((number, Stored::Value(t))) => Some((number, *t)),
        Some((_, Stored::Function(_, _))) => None,
    }
}

/// The names that the items of a model and of the library declare. Contracts see it through
/// `world_view`.
#[derive(Drop)]
pub struct World {
    model: Globals,
    library: Globals,
}

/// What a name stands for, and which declaration that is.
#[derive(Clone, Copy)]
pub struct Found<'a> {
    pub meaning: Meaning<'a>,
    pub reference: Reference,
}

fn is_library(place: Place) -> bool
    ensures { result ≡ spec.is_library place }
{
    place.file == 2
}

fn find_built_in<'a>(name: &Word) -> Option<Found<'a>>
    ensures meaning { option_map (λ f. meaning_of f.meaning) result ≡ option_map spec.built_in (names.built_in name.now) }
    ensures reference { option_map (λ f. f.reference) result ≡ option_map Reference.BuiltIn (names.built_in name.now) }
{
    match built_in(name.as_slice()) {
        None => None,
        Some(found) => Some(Found {
            meaning: Meaning::BuiltIn(found),
            reference: Reference::BuiltIn(found),
        }),
    }
}

impl World {
    /// Gathers what the items declare.
    pub fn new(alloc: Global, model: &[Item], library: &[Item]) -> Result<World, AllocError>
        ensures { IfOk result (λ world. world_view world ≡ items.world_of (map item_view model.now) (map item_view library.now)) }
    {
        let model = Globals::new(alloc, declared_by(alloc, model)?)?;
        let library = Globals::new(alloc, declared_by(alloc, library)?)?;
        Ok(World { model, library })
    }

    /// What a name stands for in the library's text, outside all items.
    fn find_of_library<'a>(&'a self, name: &Word) -> Option<Found<'a>>
        ensures meaning { option_map (λ f. meaning_of f.meaning) result ≡ spec.of_library (world_view self.now) name.now }
        ensures reference { option_map (λ f. f.reference) result ≡ code.refer_library (world_view self.now) name.now }
    {
        match self.library.find(name) {
            Some((number, stored)) => Some(Found {
                meaning: stored.meaning(),
                reference: Reference::Library(number),
            }),
            None => find_built_in(name),
        }
    }

    /// What a name stands for in the model's text, outside all items.
    fn find_of_model<'a>(&'a self, name: &Word) -> Option<Found<'a>>
        ensures meaning { option_map (λ f. meaning_of f.meaning) result ≡ spec.of_model (world_view self.now) name.now }
        ensures reference { option_map (λ f. f.reference) result ≡ code.refer_model (world_view self.now) name.now }
    {
        match self.model.find(name) {
            Some((number, stored)) => Some(Found {
                meaning: stored.meaning(),
                reference: Reference::Model(number),
            }),
            None => self.find_of_library(name),
        }
    }

    /// What a name stands for outside all items: the library's text does not see the model's names.
    fn find_outside<'a>(&'a self, place: Place, name: &Word) -> Option<Found<'a>>
        ensures meaning { option_map (λ f. meaning_of f.meaning) result ≡ spec.look_outside (world_view self.now) place name.now }
        ensures reference { option_map (λ f. f.reference) result ≡ code.refer_outside (world_view self.now) place name.now }
    {
        if is_library(place) {
            return self.find_of_library(name);
        }
        self.find_of_model(name)
    }

    /// What a name stands for at a place, among these names inside its item; `None` where it stands
    /// for nothing. An error says that the names inside are more than a `usize` counts.
    pub fn find<'a>(
        &'a self,
        place: Place,
        scope: &Scope<'_>,
        name: &Word,
    ) -> Result<Option<Found<'a>>, AllocError>
        ensures meaning { IfOk result (λ found. option_map (λ f. meaning_of f.meaning) found ≡ spec.look (world_view self.now) place (names_of scope.now) name.now) }
        ensures reference { IfOk result (λ found. option_map (λ f. f.reference) found ≡ code.refer (world_view self.now) place (names_of scope.now) name.now) }
    {
        match look_inside(scope, name.as_slice(), 0)? {
            Looked::Found(number, t) => Ok(Some(Found {
                meaning: Meaning::Value(t),
                reference: Reference::Local(number),
            })),
            Looked::Passed(_) => Ok(self.find_outside(place, name)),
        }
    }
    /// The number and the type of what the items of a place's own text declare so; `None` where they
    /// declare no such name, or a function. An item there may give it a value.
    pub fn assigned(&self, place: Place, name: &Word) -> Option<(usize, ExprType)>
        ensures value { result ≡ value_among (items.own_names (world_view self.now) place) name.now }
        ensures form { assigns result ≡ items.assigned (spec.declared (items.own_names (world_view self.now) place) name.now) }
    {
        if is_library(place) {
            value_of(self.library.find(name))
        } else {
            value_of(self.model.find(name))
        }
    }
}
