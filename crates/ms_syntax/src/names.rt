//! Names that a generator declares.

use crate::token::Place;
use crate::tree::Binder;
use std::alloc::{AllocError, Global};
use std::marker::Model;

/// The names of a generator, one at least. Contracts see their list.
#[derive(Drop)]
pub struct Binders {
    list: Vec<Binder>,
}

impl Model for Binders {
    ghost use Rattle.std.specs.Prelude.{List, length, ◌<◌};
    ghost use Rattle.ms_syntax.specs.declared.tree.Binder.{Binder};

    ghost Value = { List Binder };

    ghost view = { λ b. b.list.items };

    ghost invariant = { λ b. 0 < length b.list.items };
}

impl Binders {
    ghost use Rattle.std.specs.Prelude.{◌≡◌, ◌<◌, length, vec_len, Some, IfOk};
    ghost use Rattle.ms_syntax.specs.Grouping.{first_place};
    ghost use Rattle.ms_syntax.specs.Tree.{names_view};

    /// Takes the vector as it is, and no memory.
    pub fn from_vec(list: Vec<Binder>) -> Binders
        requires { 0 < vec_len list }
        ensures { result ≡ list.items }
    {
        Binders { list }
    }

    pub fn as_slice(&self) -> &[Binder]
        ensures value { result.now ≡ self.now }
        ensures some { 0 < length result.now }
    {
        self.list.as_slice()
    }

    /// The place of the first name.
    pub fn place(&self) -> Place
        ensures { Some result ≡ first_place (names_view self.now) }
    {
        self.list[0].place
    }

    pub fn copy(&self, alloc: Global) -> Result<Binders, AllocError>
        ensures { IfOk result (λ copied. copied ≡ self.now) }
    {
        let mut list = Vec::new(alloc);
        for binder in self.as_slice() {
            list.push(binder.copy(alloc)?)?;
        }
        Ok(Binders { list })
    }
}
