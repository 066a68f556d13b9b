use ms_base::Count;
use ms_placing::PlaceFault;
use ms_syntax::{FileNo, Place};
use std::alloc::AllocError;

/// The first fault of a declaration. `Shape` and `NoValue` have the file that gives the value, or that declares the set.
#[derive(Clone, Copy, Debug, PartialEq, Eq)]
pub enum ValueFault {
    /// A value has another type, length or index sets than declared, or a known one lies outside its declared set; or an
    /// index set is no range.
    Shape(FileNo),
    /// A known value, an array, an index set or a declared set is undefined.
    NoValue(FileNo),
    /// A number, or what an integer tree may mean on the declared sets, leaves -2^50..2^50.
    Wide(Place),
    /// A counted limit is passed.
    Big(Count, Place),
    Memory,
}

impl From<AllocError> for ValueFault {
    ghost use Rattle.std.specs.Prelude.{◌≡◌};
    ghost use Rattle.ms_declared.specs.declared.fault.ValueFault.TheVariants.{Memory};

    ghost from_gives = { λ _ e. e ≡ Memory };

    fn from(_: AllocError) -> ValueFault {
        ValueFault::Memory
    }
}

impl From<PlaceFault> for ValueFault {
    ghost use Rattle.std.specs.Prelude.{◌≡◌};
    ghost use Rattle.ms_declared.specs.Placing.{fault_of};

    ghost from_gives = { λ fault e. e ≡ fault_of fault };

    fn from(fault: PlaceFault) -> ValueFault {
        match fault {
            PlaceFault::Wide(place) => ValueFault::Wide(place),
            PlaceFault::Big(count, place) => ValueFault::Big(count, place),
            PlaceFault::Memory => ValueFault::Memory,
        }
    }
}
