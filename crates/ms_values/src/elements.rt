ghost use Rattle.std.specs.Prelude.{◌≡◌, [], ◌∷◌, ◌++◌, length, OnOk, OnErr};

use std::alloc::{AllocError, Global};
use std::marker::Model;

/// Elements of an array. Contracts see their list.
#[derive(Drop)]
pub struct Elements<T> {
    items: Vec<T>,
}

impl<T> Model for Elements<T> {
    ghost use Rattle.std.specs.Prelude.{List};
    ghost use Rattle.std.specs.Coded.{coded_list};

    ghost Value = { List T };

    ghost coded = { coded_list T.code };

    ghost view = { λ e. e.items.items };
}

impl<T> Elements<T> {
    pub fn new(alloc: Global) -> Elements<T>
        ensures { result ≡ [] }
    {
        Elements {
            items: Vec::new(alloc),
        }
    }

    /// Takes the vector as it is, and no memory.
    pub fn from_vec(items: Vec<T>) -> Elements<T>
        ensures { result ≡ items.items }
    {
        Elements { items }
    }

    pub fn into_vec(self) -> Vec<T>
        ensures { result.items ≡ self }
    {
        self.items
    }

    pub fn as_slice(&self) -> &[T]
        ensures { result.now ≡ self.now }
    {
        self.items.as_slice()
    }

    pub fn len(&self) -> usize
        ensures { result ≡ length self.now }
    {
        self.items.len()
    }
}

impl<T: Drop> Elements<T> {
    /// Puts one more at the end.
    pub fn push(&mut self, item: T) -> Result<(), AllocError>
        ensures ok { OnOk result (self.new ≡ self.old ++ item ∷ []) }
        ensures err { OnErr result (self.new ≡ self.old) }
    {
        self.items.push(item)?;
        Ok(())
    }

    /// Moves the items of `more` to the end.
    pub fn append(&mut self, more: Elements<T>) -> Result<(), AllocError>
        ensures ok { OnOk result (self.new ≡ self.old ++ more) }
        ensures err { OnErr result (self.new ≡ self.old) }
    {
        let mut items = more.items;
        self.items.append(&mut items)
    }
}
