ghost use Rattle.std.specs.Prelude.{◌≡◌, Bool, true, IfOk};
ghost use Rattle.ms_num.specs.Sets.{spans_of};
ghost use Rattle.ms_prim.specs.declared.primitive.Primitive.{Primitive};
ghost use Rattle.ms_prim.specs.Fitting.{is_fit};
ghost use Rattle.ms_prim.specs.Narrowing.{Narrows, RanGives};

use crate::primitive::Primitive;
use ms_store::Store;
use std::alloc::AllocError;

/// What a run came to.
#[derive(Clone, Copy, Debug, PartialEq, Eq)]
pub enum Ran {
    /// The primitive is settled on the sets.
    Settled,
    /// No assignment of the sets meets it.
    Empty,
}

/// Takes from the sets of a store what no assignment needs that meets a primitive.
///
/// `owns` says which primitives are its own.
pub trait Propagator: Drop {
    ghost owns: { Primitive → Bool };

    /// Whatever it answers, numbers are gone alone of variables that the primitive names, and none that an assignment has
    /// which meets it; each set has a number, and the saved lists of the store stand.
    fn run<S: Store>(&self, p: &Primitive, store: &mut S) -> Result<Ran, AllocError>
        requires own { owns p.now ≡ true }
        requires fit { is_fit (spans_of (S.lists store.old).current) p.now ≡ true }
        ensures narrows { Narrows p.now (S.lists store.old) (S.lists store.new) }
        ensures ran { IfOk result (λ ran. RanGives ran p.now (S.lists store.old) (S.lists store.new)) };
}
