//! Where values stand, and what is wrong with them.

use ms_syntax::{FileNo, Word};
use std::alloc::AllocError;

/// Where the value of a name stands.
#[derive(Clone, Copy, PartialEq, Eq)]
pub enum Source {
    /// In its declaration.
    Declaration,
    /// In the assignment item at this place among the items of the model.
    Item(usize),
    /// In the assignment at this place among those of the data.
    Datum(usize),
}

/// The first fault of the values that are given, with the name.
#[derive(Drop)]
pub enum GivenFault {
    /// An assignment names nothing that the model declares outside functions; the file is the assignment's.
    Unknown(Word, FileNo),
    /// A name has two values; the file is the second's.
    Twice(Word, FileNo),
    /// A known name has no value.
    Missing(Word),
    Memory,
}

impl From<AllocError> for GivenFault {
    ghost use Rattle.std.specs.Prelude.{◌≡◌};
    ghost use Rattle.ms_given.specs.declared.source.GivenFault.TheVariants.{Memory};

    ghost from_gives = { λ _ e. e ≡ Memory };

    fn from(_: AllocError) -> GivenFault {
        GivenFault::Memory
    }
}
