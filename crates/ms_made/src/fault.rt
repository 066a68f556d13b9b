use ms_base::Count;
use ms_syntax::{FileNo, Place, Word};
use std::alloc::AllocError;

/// The first fault of an instance. A file is the one that gives the value, or the model where a declaration is at fault.
#[derive(Drop)]
pub enum InstanceFault {
    /// An assignment names nothing that the model declares outside functions.
    Unknown(Word, FileNo),
    /// A name has two values; the file is the second's.
    Twice(Word, FileNo),
    /// A known name has no value.
    Missing(Word),
    /// A value has another type, length or index sets than declared, or a known one lies outside its declared set; or an
    /// index set is no range.
    Shape(Word, FileNo),
    /// A known value, an array, an index set or a declared set is undefined.
    NoValue(Word, FileNo),
    /// A number, or what an integer tree may mean on the declared sets, leaves -2^50..2^50.
    Wide(Place),
    /// A counted limit is passed.
    Big(Count, Place),
    Memory,
}

impl From<AllocError> for InstanceFault {
    ghost use Rattle.std.specs.Prelude.{◌≡◌};
    ghost use Rattle.ms_made.specs.declared.fault.InstanceFault.TheVariants.{Memory};

    ghost from_gives = { λ _ e. e ≡ Memory };

    fn from(_: AllocError) -> InstanceFault {
        InstanceFault::Memory
    }
}
