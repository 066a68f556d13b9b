//! Names that one list declares.

ghost use Rattle.std.specs.Prelude.{◌≡◌, ◌++◌, ◌∷◌, [], ◌<◌, length, IfOk, Some, None};
ghost use Rattle.std.specs.Prelude.{List, ℕ, is_some, ◌||◌};
ghost use Rattle.std.specs.Str.{bytes_eq};
ghost use Rattle.ms_syntax.specs.Tree.{names_view};
ghost use Rattle.ms_declarations.specs.Numbering.{number_of};
ghost use Rattle.ms_declarations.specs.Declaring.{place_of};
ghost use Rattle.ms_declarations.specs.Repeats.{more, one, TellsWith};

use crate::stop::Stop;
use ms_built_ins::built_in;
use ms_syntax::{Binder, Place, Word};
use std::alloc::{AllocError, Global};
use std::collections::HashMap;
use std::marker::Model;

/// Names with their places, in the order in which they are declared, and the number of each.
/// Contracts see the names.
#[derive(Drop)]
pub struct NameList {
    numbers: HashMap<Word, usize>,
    names: Vec<Binder>,
}

impl Model for NameList {
    ghost use Rattle.std.specs.Prelude.{List, ℕ, ◌≡◌};
    ghost use Rattle.std.specs.Str.{bytes_eq};
    ghost use Rattle.std.specs.HashMap.{get};
    ghost use Rattle.ms_syntax.specs.declared.tree.Binder.{Binder};
    ghost use Rattle.ms_syntax.specs.Tree.{names_view};
    ghost use Rattle.ms_declarations.specs.Numbering.{number_of};

    ghost Value = { List Binder };

    ghost view = { λ l. l.names.items };

    ghost invariant = { λ l. (w : List ℕ) → get bytes_eq l.numbers w ≡ number_of (names_view l.names.items) w };
}

impl NameList {
    /// No names.
    pub fn new(alloc: Global) -> NameList
        ensures { result ≡ [] }
    {
        NameList {
            numbers: HashMap::new(alloc),
            names: Vec::new(alloc),
        }
    }

    pub fn as_slice(&self) -> &[Binder]
        ensures { result.now ≡ self.now }
    {
        self.names.as_slice()
    }

    /// The number of the first of these names that is this one.
    pub fn number(&self, name: &Word) -> Option<usize>
        ensures { result ≡ number_of (names_view self.now) name.now }
    {
        self.numbers.get(name).copied()
    }

    /// Adds a name behind the others.
    fn add(&mut self, alloc: Global, place: Place, name: &Word) -> Result<(), AllocError>
        requires { number_of (names_view self.old) name.now ≡ None }
        ensures { IfOk result (λ _. names_view self.new
            ≡ names_view self.old ++ (place, name.now) ∷ []) }
    {
        let number = self.names.len();
        let key = name.copy(alloc)?;
        let binder = Binder {
            place,
            name: name.copy(alloc)?,
        };
        self.names.push(binder)?;
        match self.numbers.insert(key, number) {
            Ok(_) => Ok(()),
            Err(_) => {
                self.names.pop();
                Err(AllocError)
            }
        }
    }

    /// Adds a name unless it is there already.
    pub fn add_once(&mut self, alloc: Global, place: Place, name: &Word) -> Result<(), AllocError>
        ensures { IfOk result (λ _. (w : List ℕ) → is_some (number_of (names_view self.new) w)
            ≡ (is_some (number_of (names_view self.old) w) || bytes_eq name.now w)) }
    {
        match self.number(name) {
            Some(_) => Ok(()),
            None => self.add(alloc, place, name),
        }
    }

    /// The place of the first of these names that is this one.
    fn place(&self, name: &Word) -> Option<Place>
        ensures { result ≡ place_of (names_view self.now) name.now }
    {
        match self.number(name) {
            Some(number) => Some(self.names[number].place),
            None => None,
        }
    }

    /// Adds a name that is declared, unless it is there already or is built in.
    pub fn declare(&mut self, alloc: Global, place: Place, name: &Word) -> Result<(), Stop>
        ensures { TellsWith (one (names_view self.old) (place, name.now)) (λ _. names_view self.new
            ≡ names_view self.old ++ (place, name.now) ∷ []) result }
    {
        if built_in(name.as_slice()).is_some() {
            return Err(Stop::Twice(place, place));
        }
        if let Some(earlier) = self.place(name) {
            return Err(Stop::Twice(earlier, place));
        }
        self.add(alloc, place, name)?;
        Ok(())
    }

    /// Adds names that are declared one after the other.
    pub fn declare_all(&mut self, alloc: Global, names: &[Binder]) -> Result<(), Stop>
        ensures { TellsWith (more (names_view self.old) (names_view names.now)) (λ _.
            names_view self.new ≡ names_view self.old ++ names_view names.now) result }
    {
        for binder in names {
            self.declare(alloc, binder.place, &binder.name)?;
        }
        Ok(())
    }
}
