ghost use Rattle.ms_boxes.specs.Laws.{SplitsGiveParts, PartsStandInOrder, ConstraintsFitBoxes, RefutedHoldsNone};

use ms_trees::hull_laws;

/// Does nothing: its contract says what a split leads to, in any language of constraints. Both parts are boxes within
/// the one that is split, share no assignment and lose none that meets the constraints; under an ordered branching
/// all of the one that is tried comes before all of the other.
pub fn split_laws<C>()
    ensures parts { SplitsGiveParts C }
    ensures order { PartsStandInOrder C }
{}

/// Does nothing: its contract says that what is a constraint for the declared sets is well-formed on each of their
/// boxes, and that no assignment of a box meets the constraints where interval reasoning refutes one.
pub fn tree_laws()
    ensures fit { ConstraintsFitBoxes }
    ensures refuted { RefutedHoldsNone }
{
    hull_laws();
}
