//! Names with their values and types.

use ms_syntax::Word;
use ms_typing::ExprType;
use ms_values::Value;
use std::alloc::{AllocError, Global};

/// A name with its value and its type.
#[derive(Drop)]
pub struct Entry {
    pub name: Word,
    pub kind: ExprType,
    pub value: Value,
}

/// Names with their values and types. Contracts see the entries, the latest first.
#[derive(Drop)]
pub struct Env {
    pub(crate) alloc: Global,
    pub(crate) entries: Vec<Entry>,
}

impl Env {
    ghost use Rattle.std.specs.Prelude.{◌≡◌, ◌≤◌, ◌-◌, [], ◌∷◌, drop, length, OnOk, OnErr};
    ghost use Rattle.ms_env.specs.Entries.{entries_of};

    /// Without names.
    pub fn new(alloc: Global) -> Env
        ensures { entries_of result ≡ [] }
    {
        Env {
            alloc,
            entries: Vec::new(alloc),
        }
    }

    /// One more name, which hides those of the same name.
    pub fn enter_name(
        &mut self,
        name: &[u8],
        value: Value,
        type_: ExprType,
    ) -> Result<(), AllocError>
        ensures ok { OnOk result (entries_of self.new ≡ record { name = name.now; kind = type_; value = value } ∷ entries_of self.old) }
        ensures err { OnErr result (entries_of self.new ≡ entries_of self.old) }
    {
        let word = Word::from_vec(Vec::from_slice(self.alloc, name)?);
        self.entries.push(Entry {
            name: word,
            kind: type_,
            value,
        })?;
        Ok(())
    }

    /// How many names there are.
    pub fn mark(&self) -> usize
        ensures { result ≡ length (entries_of self.now) }
    {
        self.entries.len()
    }

    /// Only the first names stay, as many as the mark says.
    pub fn leave_names(&mut self, mark: usize)
        requires { mark ≤ length (entries_of self.old) }
        ensures { entries_of self.new ≡ drop (length (entries_of self.old) - mark) (entries_of self.old) }
    {
        self.entries.truncate(mark);
    }
}
