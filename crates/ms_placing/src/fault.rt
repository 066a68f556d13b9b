use ms_base::Count;
use ms_syntax::Place;
use std::alloc::AllocError;

/// The first fault of a placing, with the place of its node.
#[derive(Clone, Copy, Debug, PartialEq, Eq)]
pub enum PlaceFault {
    /// A number, or what an integer tree may mean on the declared sets, leaves -2^50..2^50.
    Wide(Place),
    /// A counted limit is passed: steps, nesting of trees and of calls, or elements of an array and ranges of a set.
    Big(Count, Place),
    Memory,
}

impl From<AllocError> for PlaceFault {
    ghost use Rattle.std.specs.Prelude.{◌≡◌};
    ghost use Rattle.ms_placing.specs.declared.fault.PlaceFault.TheVariants.{Memory};

    ghost from_gives = { λ _ e. e ≡ Memory };

    fn from(_: AllocError) -> PlaceFault {
        PlaceFault::Memory
    }
}
