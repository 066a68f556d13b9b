//! The names that the items of one text declare, found through a map.

ghost use Rattle.std.specs.Prelude.{◌≡◌, List, ℕ, None, Some, IfOk, if◌then◌else◌};
ghost use Rattle.ms_built_ins.specs.BuiltIns.{or_else};
ghost use Rattle.std.specs.HashMap.{get};
ghost use Rattle.std.specs.Str.{bytes_eq};
ghost use Rattle.ms_code.specs.References.{number_among};
ghost use Rattle.ms_names.specs.Globals.{globals_view};

use crate::declared::{Declared, Stored};
use ms_syntax::Word;
use std::alloc::{AllocError, Global};
use std::collections::HashMap;
use std::marker::Model;

/// The names that the items of one text declare, in their order. Contracts see their list.
#[derive(Drop)]
pub(crate) struct Globals {
    list: Vec<Declared>,
    numbers: HashMap<Word, usize>,
}

impl Model for Globals {
    ghost use Rattle.std.specs.Prelude.{◌≡◌, List, ℕ};
    ghost use Rattle.std.specs.HashMap.{get};
    ghost use Rattle.std.specs.Str.{bytes_eq};
    ghost use Rattle.ms_code.specs.References.{number_among};
    ghost use Rattle.ms_names.specs.Globals.{globals_view};
    ghost use Rattle.ms_names.specs.declared.declared.Declared.{Declared};

    ghost Value = { List Declared };

    ghost view = { λ g. g.list.items };

    // the number of each name is that of the first that is declared so
    ghost invariant = { λ g. (w : List ℕ) → get bytes_eq g.numbers w ≡ number_among (globals_view g.list.items) w };
}

/// Gives a name this number, if it has none.
fn number_name(
    alloc: Global,
    numbers: &mut HashMap<Word, usize>,
    name: &Word,
    number: usize,
) -> Result<(), AllocError>
    ensures { IfOk result (λ _. (w : List ℕ) → get bytes_eq numbers.new w ≡ or_else (get bytes_eq numbers.old w) (if bytes_eq name.now w then Some number else None)) }
{
    if numbers.contains_key(name) {
        return Ok(());
    }
    let name = name.copy(alloc)?;
    numbers.insert(name, number)?;
    Ok(())
}

/// The number of each name, that of the first that is declared so.
fn numbered(alloc: Global, list: &[Declared]) -> Result<HashMap<Word, usize>, AllocError>
    ensures { IfOk result (λ numbers. (w : List ℕ) → get bytes_eq numbers w ≡ number_among (globals_view list.now) w) }
{
    let mut numbers = HashMap::new(alloc);
    for (number, declared) in list.iter().enumerate() {
        number_name(alloc, &mut numbers, &declared.name, number)?;
    }
    Ok(numbers)
}

impl Globals {
    ghost use Rattle.std.specs.Prelude.{◌≡◌, option_map, IfOk};
    ghost use Rattle.ms_code.specs.References.{number_among};
    ghost use Rattle.ms_typing.specs.Meaning.{declared};
    ghost use Rattle.ms_names.specs.Globals.{globals_view, stored_of};

    pub(crate) fn new(alloc: Global, list: Vec<Declared>) -> Result<Globals, AllocError>
        ensures { IfOk result (λ globals. globals ≡ list.items) }
    {
        let numbers = numbered(alloc, list.as_slice())?;
        Ok(Globals { list, numbers })
    }

    /// The first that is declared so, with its number.
    pub(crate) fn find(&self, name: &Word) -> Option<(usize, &Stored)>
        ensures number { option_map (λ f. f.0) result ≡ number_among (globals_view self.now) name.now }
        ensures meaning { option_map (λ f. stored_of f.1.now) result ≡ declared (globals_view self.now) name.now }
    {
        match self.numbers.get(name) {
            None => None,
            Some(number) => Some((*number, &self.list[*number].meaning)),
        }
    }
}
