//! Laws of the order of a depth-first search.

ghost use Rattle.ms_postorder.specs.Laws.{EachStandsOnce, OnePostorder, TargetsFirst};

/// There is one order at most.
pub fn one_postorder()
    ensures { OnePostorder }
{}

/// Where each edge leads to a node, each node stands in it once, and nothing else.
pub fn each_node_once()
    ensures { EachStandsOnce }
{}

/// Where no node is on a cycle, each stands behind those that its edges lead to.
pub fn targets_first()
    ensures { TargetsFirst }
{}
