//! The names that items declare, with their numbers.

ghost use Rattle.std.specs.Prelude.{◌≡◌, ◌++◌, ◌∷◌, [], length, map, IfOk, IsSome, None};
ghost use Rattle.std.specs.Prelude.{option_map};
ghost use Rattle.ms_typing.specs.Items.{enum_names};
ghost use Rattle.ms_syntax.specs.Tree.{item_view, names_view};
ghost use Rattle.ms_free_names.specs.Uses.{names_alone};
ghost use Rattle.ms_order.specs.Drawing.{words_by};
ghost use Rattle.ms_order.specs.Order.{declared, number_in};

use ms_syntax::{Binder, Item, Word};
use std::alloc::{AllocError, Global};
use std::collections::HashMap;
use std::marker::Model;

/// Names, in the order in which they are declared, and the number of each. Contracts see the names.
#[derive(Drop)]
pub(crate) struct NameList {
    numbers: HashMap<Word, usize>,
    names: Vec<Word>,
}

impl Model for NameList {
    ghost use Rattle.std.specs.Prelude.{List, ℕ, ◌≡◌};
    ghost use Rattle.std.specs.Str.{bytes_eq};
    ghost use Rattle.std.specs.HashMap.{get};
    ghost use Rattle.ms_order.specs.Order.{number_in};

    ghost Value = { List (List ℕ) };

    ghost view = { λ l. l.names.items };

    ghost invariant = { λ l. (w : List ℕ) → get bytes_eq l.numbers w ≡ number_in l.names.items w };
}

impl NameList {
    /// No names.
    fn new(alloc: Global) -> NameList
        ensures { result ≡ [] }
    {
        NameList {
            numbers: HashMap::new(alloc),
            names: Vec::new(alloc),
        }
    }

    pub(crate) fn len(&self) -> usize
        ensures { result ≡ length self.now }
    {
        self.names.len()
    }

    /// The number of the first of these names that is this one.
    pub(crate) fn number(&self, name: &Word) -> Option<usize>
        ensures { result ≡ number_in self.now name.now }
    {
        self.numbers.get(name).copied()
    }

    /// Adds a name behind the others.
    fn add(&mut self, alloc: Global, name: &Word) -> Result<(), AllocError>
        ensures { IfOk result (λ _. self.new ≡ self.old ++ name.now ∷ []) }
    {
        match self.number(name) {
            Some(_) => self.add_again(alloc, name),
            None => self.add_new(alloc, name),
        }
    }

    /// Adds a name that is there already.
    fn add_again(&mut self, alloc: Global, name: &Word) -> Result<(), AllocError>
        requires { IsSome (number_in self.old name.now) }
        ensures { IfOk result (λ _. self.new ≡ self.old ++ name.now ∷ []) }
    {
        self.names.push(name.copy(alloc)?)?;
        Ok(())
    }

    /// Adds a name that is not there.
    fn add_new(&mut self, alloc: Global, name: &Word) -> Result<(), AllocError>
        requires { number_in self.old name.now ≡ None }
        ensures { IfOk result (λ _. self.new ≡ self.old ++ name.now ∷ []) }
    {
        let number = self.names.len();
        let key = name.copy(alloc)?;
        self.names.push(name.copy(alloc)?)?;
        match self.numbers.insert(key, number) {
            Ok(_) => Ok(()),
            Err(_) => {
                self.names.pop();
                Err(AllocError)
            }
        }
    }

    fn add_all(&mut self, alloc: Global, names: &[Binder]) -> Result<(), AllocError>
        ensures { IfOk result (λ _. self.new ≡ self.old ++ names_alone (names_view names.now)) }
    {
        for binder in names {
            self.add(alloc, &binder.name)?;
        }
        Ok(())
    }

    /// Adds the names of an enumerated type, where they are given.
    fn add_elements(
        &mut self,
        alloc: Global,
        elements: &Option<Vec<Binder>>,
    ) -> Result<(), AllocError>
        ensures { IfOk result (λ _. self.new ≡ self.old ++ map (λ g. g.0) (enum_names
            (option_map (λ v. names_view v.items) elements.now))) }
    {
        match elements {
            Some(elements) => self.add_all(alloc, elements),
            None => Ok(()),
        }
    }

    /// Adds the names that an item declares.
    fn add_item(&mut self, alloc: Global, item: &Item) -> Result<(), AllocError>
        ensures { IfOk result (λ _. self.new ≡ self.old ++ words_by (item_view item.now)) }
    {
        match item {
            Item::Declare(declaration) => self.add(alloc, &declaration.name),
            Item::Enum(_, name, elements) => {
                self.add(alloc, name)?;
                self.add_elements(alloc, elements)
            }
            Item::Predicate(_, name, _, _) => self.add(alloc, name),
            Item::Function(_, _, name, _, _) => self.add(alloc, name),
            _ => Ok(()),
        }
    }
}

/// The names that items declare.
#[tactic(auto, using(crate::proofs::Words::declared_rest))]
pub(crate) fn declared(alloc: Global, items: &[Item]) -> Result<NameList, AllocError>
    ensures { IfOk result (λ names. names ≡ declared (map item_view items.now)) }
{
    let mut names = NameList::new(alloc);
    for item in items {
        names.add_item(alloc, item)?;
    }
    Ok(names)
}
