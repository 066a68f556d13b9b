ghost use Rattle.ms_trees.specs.Laws.{SmallerBoxesMeanLess, PointsMeanThemselves, SmallerBoxesStayWellFormed, RefutedMeansUnmet, SetsMeetWhereTheyShare, SetsHoldWhereNoneIsOutside, EndsDecideRoom, SmallerBoxesMeanLessOfSorted, PointsMeanThemselvesOfSorted, NodesMeanLess, NodesMeanThemselves, SelectionIsOfOnePlace, NoPlaceSelectsNothing};

/// Does nothing: its contract has the laws of what a tree may mean.
pub fn hull_laws()
    ensures smaller { SmallerBoxesMeanLess }
    ensures single { PointsMeanThemselves }
    ensures well_formed { SmallerBoxesStayWellFormed }
    ensures refuted { RefutedMeansUnmet }
{}

/// Does nothing: its contract has the laws of what one node may mean, whatever its limits, and those of trees that are
/// well sorted.
pub fn node_laws()
    ensures step { NodesMeanLess }
    ensures exact { NodesMeanThemselves }
    ensures smaller { SmallerBoxesMeanLessOfSorted }
    ensures single { PointsMeanThemselvesOfSorted }
{}

/// Does nothing: its contract says which element an index takes.
pub fn selection_law()
    ensures one { SelectionIsOfOnePlace }
    ensures none { NoPlaceSelectsNothing }
{}

/// Does nothing: its contract says by numbers when a number may be in a set, and when it may be outside.
pub fn membership_law()
    ensures shared { SetsMeetWhereTheyShare }
    ensures outside { SetsHoldWhereNoneIsOutside }
{}

/// Does nothing: its contract says that the ranges between ends, at which the meaning of distinct parts on a box
/// looks, decide for all ranges of integers.
pub fn room_law()
    ensures { EndsDecideRoom }
{}
