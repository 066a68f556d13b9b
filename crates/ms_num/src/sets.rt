ghost use Rattle.std.specs.Prelude.{◌≡◌, IfOk};

use crate::ranges::Ranges;
use std::alloc::{AllocError, Global};
use std::marker::Model;

/// Sets of numbers, as one for each variable. Contracts see the list of their lists of ranges.
#[derive(Debug, Drop)]
pub struct Sets {
    sets: Vec<Ranges>,
}

impl Model for Sets {
    ghost use Rattle.std.specs.Prelude.{List};
    ghost use Rattle.ms_num.specs.Span.{Span};

    ghost Value = { List (List Span) };

    ghost view = { λ s. s.sets.items };
}

impl Sets {
    /// Takes the vector as it is, and no memory.
    pub fn from_vec(sets: Vec<Ranges>) -> Sets
        ensures { result ≡ sets.items }
    {
        Sets { sets }
    }

    pub fn into_vec(self) -> Vec<Ranges>
        ensures { result.items ≡ self }
    {
        self.sets
    }

    pub fn as_slice(&self) -> &[Ranges]
        ensures { result.now ≡ self.now }
    {
        self.sets.as_slice()
    }

    pub fn copy(&self, alloc: Global) -> Result<Sets, AllocError>
        ensures { IfOk result (λ copied. copied ≡ self.now) }
    {
        let mut sets = Vec::new(alloc);
        for set in &self.sets {
            sets.push(set.copy(alloc)?)?;
        }
        Ok(Sets { sets })
    }
}
