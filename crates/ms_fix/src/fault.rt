use ms_base::Count;
use ms_placing::PlaceFault;
use ms_syntax::Place;
use std::alloc::AllocError;

/// Why an expression has no value.
#[derive(Clone, Copy, Debug, PartialEq, Eq)]
pub enum GroundFault {
    /// A number, or what an integer tree may mean on the declared sets, leaves -2^50..2^50.
    Wide(Place),
    /// A counted limit is passed.
    Big(Count, Place),
    /// A known integer, set or string without a value, or an array that is undefined as a whole.
    Undefined,
    Memory,
}

impl From<AllocError> for GroundFault {
    ghost use Rattle.std.specs.Prelude.{◌≡◌};
    ghost use Rattle.ms_fix.specs.declared.fault.GroundFault.TheVariants.{Memory};

    ghost from_gives = { λ _ e. e ≡ Memory };

    fn from(_: AllocError) -> GroundFault {
        GroundFault::Memory
    }
}

impl From<PlaceFault> for GroundFault {
    ghost use Rattle.std.specs.Prelude.{◌≡◌};
    ghost use Rattle.ms_fix.specs.Faults.{fault_of};

    ghost from_gives = { λ fault e. e ≡ fault_of fault };

    fn from(fault: PlaceFault) -> GroundFault {
        match fault {
            PlaceFault::Wide(place) => GroundFault::Wide(place),
            PlaceFault::Big(count, place) => GroundFault::Big(count, place),
            PlaceFault::Memory => GroundFault::Memory,
        }
    }
}
