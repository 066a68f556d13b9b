use std::alloc::{AllocError, AllocFailed};

/// Why reading stops before a value is read, at a place that is told by how many tokens are left
/// there: what reads them may know no more of the whole list.
#[derive(Clone, Copy)]
pub enum Stop {
    /// A token with which no list of the grammar goes on, or the end of the tokens: so many are
    /// left, from it on.
    Syntax(usize),
    /// A token that nests brackets or `if` too deep: so many are left behind it.
    Deep(usize),
    /// No memory for the tree.
    Memory,
}

impl From<AllocError> for Stop {
    ghost use Rattle.std.specs.Prelude.{◌≡◌};
    ghost use Rattle.ms_cursor.specs.declared.stop.Stop.TheVariants.{Memory};

    ghost from_gives = { λ _ e. e ≡ Memory };

    fn from(_: AllocError) -> Stop {
        Stop::Memory
    }
}

impl<T: Drop> From<AllocFailed<T>> for Stop {
    ghost use Rattle.std.specs.Prelude.{◌≡◌};
    ghost use Rattle.ms_cursor.specs.declared.stop.Stop.TheVariants.{Memory};

    ghost from_gives = { λ _ e. e ≡ Memory };

    fn from(_: AllocFailed<T>) -> Stop {
        Stop::Memory
    }
}
