ghost use Rattle.ms_prim.specs.Promises.{FitPrimitivesAreSorted, SmallerIntervalsStayFit, RefutedPrimitivesFail, SettledPointsMeet, NamesDecideValues, NamesDecideEnclosures, NamesDecideSettled, CutsNarrow, EmptiedCutsFail, SameListsNarrow, NarrowingsFollow, FailuresCarryBack, NarrowedStayProper, NarrowedStayFit};

use ms_trees::{hull_laws, node_laws};

/// Does nothing: its contract says of primitives that may be asked on intervals that their trees are well sorted, and that
/// they may be asked on smaller intervals.
pub fn fit_laws()
    ensures sorted { FitPrimitivesAreSorted }
    ensures smaller { SmallerIntervalsStayFit }
{
    hull_laws();
}

/// Does nothing: its contract says that no assignment meets a primitive whose tree is refuted, and that one which is settled
/// where each variable has one number is met there.
pub fn settled_laws()
    ensures refuted { RefutedPrimitivesFail }
    ensures single { SettledPointsMeet }
{
    hull_laws();
    node_laws();
}

/// Does nothing: its contract says that trees and primitives depend on the variables alone that they name.
pub fn name_laws()
    ensures values { NamesDecideValues }
    ensures enclosures { NamesDecideEnclosures }
    ensures settled { NamesDecideSettled }
{}

/// Does nothing: its contract says how cuts of a store make a run of a propagator, one after another.
pub fn cut_laws()
    ensures cuts { CutsNarrow }
    ensures emptied { EmptiedCutsFail }
    ensures same { SameListsNarrow }
    ensures follow { NarrowingsFollow }
    ensures failures { FailuresCarryBack }
    ensures proper { NarrowedStayProper }
    ensures fit { NarrowedStayFit }
{
    hull_laws();
}
