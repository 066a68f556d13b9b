//! The names of a model while its instance is made.

ghost use Rattle.std.specs.Prelude.{◌≡◌, ◌∷◌, [], ◌++◌, replicate, slice_get, IfOk, OnOk, Some};
ghost use Rattle.std.specs.Option.{option_copied};
ghost use Rattle.ms_items.specs.Declaring.{declarers};
ghost use Rattle.ms_rules.specs.Calls.{nothing};
ghost use Rattle.ms_types.specs.Texts.{library_of, model_of};
ghost use Rattle.ms_made.specs.Giving as g;

use ms_code::{Code, Declaration, Item, Reference};
use ms_instance::{Places, body_at, places_of, value_at};
use ms_types::Typed;
use ms_values::{Narrow, Operand};
use ms_walk::Surroundings;
use sqlite_items::at;
use std::alloc::{AllocError, Global};

/// A checked model, with what stands for each name that its items declare.
#[derive(Drop)]
pub struct Names<'a> {
    pub(crate) typed: &'a Typed,
    pub(crate) places: Places,
    pub(crate) values: Vec<Operand>,
    pub ghost model: { places.model.items ≡ declarers 0 (model_of typed.now).0 },
    pub ghost library: { places.library.items ≡ declarers 0 (library_of typed.now).0 },
}

fn nothings(alloc: Global, count: usize) -> Result<Vec<Operand>, AllocError>
    ensures { IfOk result (λ xs. xs.items ≡ replicate count nothing) }
{
    let mut values = Vec::new(alloc);
    for _ in 0..count {
        push_nothing(&mut values)?;
    }
    Ok(values)
}

fn push_nothing(values: &mut Vec<Operand>) -> Result<(), AllocError>
    ensures { OnOk result (values.new.items ≡ values.old.items ++ nothing ∷ []) }
{
    values.push(Operand::Number(None))?;
    Ok(())
}

fn declaration_of(item: &Item) -> Option<&Declaration>
    ensures { option_copied result ≡ g.declaration_of (Some item.now) }
{
    match item {
        Item::Declare(declaration) => Some(declaration),
        _ => None,
    }
}

fn declaration_in(items: &[Item], place: usize) -> Option<&Declaration>
    ensures { option_copied result ≡ g.declaration_of (slice_get items.now place) }
{
    match at(items, place) {
        Some(item) => declaration_of(item),
        None => None,
    }
}

impl<'a> Names<'a> {
    ghost use Rattle.std.specs.Prelude.{◌≡◌, length, replicate, set, IfOk};
    ghost use Rattle.std.specs.Option.{option_copied};
    ghost use Rattle.ms_rules.specs.Calls.{nothing};
    ghost use Rattle.ms_made.specs.Giving as g;

    /// Nothing stands for any name yet, of so many.
    pub fn new(alloc: Global, typed: &'a Typed, count: usize) -> Result<Names<'a>, AllocError>
        ensures typed { IfOk result (λ names. names.typed.now ≡ typed.now) }
        ensures values { IfOk result (λ names. names.values.items ≡ replicate count nothing) }
    {
        let places = places_of(alloc, typed)?;
        let values = nothings(alloc, count)?;
        Ok(Names {
            typed,
            places,
            values,
        })
    }

    /// Something stands for the name with this number.
    pub fn set(&mut self, number: usize, x: Operand)
        ensures typed { self.new.typed.now ≡ self.old.typed.now }
        ensures values { self.new.values.items ≡ set self.old.values.items number x }
    {
        if number < self.values.len() {
            self.values[number] = x;
        }
    }

    /// The declaration of the name with this number; a function has none.
    pub fn declaration(&self, number: usize) -> Option<&'a Declaration>
        ensures { option_copied result ≡ g.declaration_at self.now.typed.now number }
    {
        match at(self.places.model.as_slice(), number) {
            Some(place) => declaration_in(self.typed.items(), *place),
            None => None,
        }
    }
}

impl<'a> Surroundings for Names<'a> {
    ghost use Rattle.ms_made.specs.Standing.{around as around_of};

    ghost around = { λ n. around_of n.typed.now n.values.items };

    fn value(&self, alloc: Global, name: Reference) -> Result<Operand, AllocError> {
        match name {
            Reference::Model(number) => value_at(alloc, self.values.as_slice(), number),
            Reference::Local(_) | Reference::Library(_) | Reference::BuiltIn(_) => {
                Ok(Operand::Number(None))
            }
        }
    }

    fn body(&self, name: Reference) -> Option<&Code> {
        match name {
            Reference::Model(number) => {
                body_at(self.typed.items(), self.places.model.as_slice(), number)
            }
            Reference::Library(number) => body_at(
                self.typed.library_items(),
                self.places.library.as_slice(),
                number,
            ),
            Reference::Local(_) | Reference::BuiltIn(_) => None,
        }
    }

    fn point(&self) -> Option<&[Narrow]> {
        None
    }
}
