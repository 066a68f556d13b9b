ghost use Rattle.std.specs.Prelude.{◌≡◌, ℕ, ◌+◌, ◌-◌, ◌*◌, ◌^◌, ◌<◌, ◌≤◌, List, [], ◌∷◌, length, slice_set};
ghost use Rattle.ms_domains.specs.Row.{in_row, row_count, IsLast, IsFirst};

use crate::{row, word};

/// Words with 64 numbers each, wherever they stand.
pub trait Words: Copy {
    ghost as_row: { Self → List ℕ };

    /// The greatest number up to `to`.
    fn last(self, to: u64) -> Option<u64>
        requires { to < 64 * length (as_row self) }
        ensures { IsLast (as_row self) to result };

    /// The least number from `from` on.
    fn first(self, from: u64) -> Option<u64>
        requires there { from < 64 * length (as_row self) }
        requires few { length (as_row self) < 2 ^ 32 }
        ensures { IsFirst (as_row self) from result };

    /// How many numbers there are from `from` to `to`.
    fn count(self, from: u64, to: u64) -> u64
        requires ordered { from ≤ to }
        requires there { to < 64 * length (as_row self) }
        requires few { length (as_row self) < 2 ^ 32 }
        ensures { result ≡ row_count (as_row self) from (to - from + 1) };
}

/// One word.
#[derive(Clone, Copy)]
pub struct Word {
    pub bits: u64,
}

impl Words for Word {
    ghost as_row = { λ w. w.bits ∷ [] };

    fn last(self, to: u64) -> Option<u64> {
        word::last(self.bits, to)
    }

    fn first(self, from: u64) -> Option<u64> {
        word::first(self.bits, from)
    }

    fn count(self, from: u64, to: u64) -> u64 {
        word::count(self.bits, from, to)
    }
}

/// A row, with one word in place of the one that it has at `at`.
#[derive(Clone, Copy)]
pub struct Replaced<'a> {
    pub row: &'a [u64],
    pub at: usize,
    pub bits: u64,
}

impl Words for Replaced<'_> {
    ghost as_row = { λ w. slice_set w.row.now w.at w.bits };

    fn last(self, to: u64) -> Option<u64> {
        row::last(self.row, self.at, self.bits, to)
    }

    fn first(self, from: u64) -> Option<u64> {
        row::first(self.row, self.at, self.bits, from)
    }

    fn count(self, from: u64, to: u64) -> u64 {
        row::count(self.row, self.at, self.bits, from, to)
    }
}
