ghost use Rattle.ms_tree_nodes.specs.Nodes as n;
ghost use Rattle.ms_kept.specs.Laws.{KeepsOne, KeepsTwo, KeepsThree, KeepsList, KeepsOneIfAny, KeepsTwoIfAny, KeepsListIfAny, KeepsListAndOneIfAny, TreesAreKept, NumbersAreKept, TruthsAreKept, VariablesAreKept, BitVariablesAreKept, ExtremesAreKept, ElementsAreKept, ElementsOfGridsAreKept, BitsAreKept, MembersAreKept, RowsAreKept};

/// Does nothing: its contract says that what stands beside a leaf is its own, and beside a whole tree.
pub fn leaf_laws()
    ensures tree { TreesAreKept }
    ensures number { NumbersAreKept }
    ensures truth { TruthsAreKept }
    ensures variable { VariablesAreKept }
    ensures bit_variable { BitVariablesAreKept }
{}

/// Does nothing: its contract says the same of operations on numbers, of the number of a truth value, and of the taken
/// branch of two, where it is so of the parts.
pub fn number_laws()
    ensures sum { KeepsTwoIfAny n.sum }
    ensures difference { KeepsTwoIfAny n.difference }
    ensures product { KeepsTwoIfAny n.product }
    ensures quotient { KeepsTwoIfAny n.quotient }
    ensures remainder { KeepsTwoIfAny n.remainder }
    ensures negation { KeepsOneIfAny n.negation }
    ensures magnitude { KeepsOneIfAny n.magnitude }
    ensures bit { BitsAreKept }
    ensures choice { KeepsThree n.choice }
{}

/// Does nothing: its contract says the same of truth values and comparisons.
pub fn truth_laws()
    ensures denial { KeepsOne n.denial }
    ensures equivalence { KeepsTwo n.equivalence }
    ensures implication { KeepsTwo n.implication }
    ensures exclusive { KeepsTwo n.exclusive }
    ensures choice { KeepsThree n.choice_of_truths }
    ensures equal { KeepsTwo n.equal }
    ensures unequal { KeepsTwo n.unequal }
    ensures less { KeepsTwo n.less }
    ensures at_most { KeepsTwo n.at_most }
    ensures member { MembersAreKept }
{}

/// Does nothing: its contract says the same of nodes over lists.
pub fn list_laws()
    ensures total { KeepsListIfAny n.total }
    ensures extreme { ExtremesAreKept }
    ensures count { KeepsListAndOneIfAny n.count }
    ensures element { ElementsAreKept }
    ensures element_of_grid { ElementsOfGridsAreKept }
    ensures all { KeepsList n.all }
    ensures some { KeepsList n.some }
    ensures distinct { KeepsList n.distinct }
    ensures rowed { RowsAreKept }
{}
