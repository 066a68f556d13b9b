ghost use Rattle.std.specs.Prelude.{true, [], ◌∷◌, Some, pos, ◌^◌, ◌+◌};
ghost use Rattle.ms_tree_nodes.specs.Nodes as n;
ghost use Rattle.ms_values.specs.declared.operand.Cells.TheVariants as c;
ghost use Rattle.ms_values.specs.declared.operand.Operand.TheVariants as o;
ghost use Rattle.ms_rules.specs.Cells.{line_from_one};
ghost use Rattle.ms_rules_laws.specs.Fit.{IsFit};
ghost use Rattle.ms_rules_laws.specs.Sample.{one_set, span_of};
ghost use Rattle.ms_rules_laws.specs.Laws as law;

/// Does nothing: its contract says that each rule makes fit operands of fit ones.
pub fn rules_keep()
    ensures numbers { law.NumbersKeep }
    ensures sets { law.SetsKeep }
    ensures members { law.MembersKeep }
    ensures no_elements { law.NoElementsKeep }
    ensures elements { law.ElementsKeep }
    ensures operators { law.OperatorsKeep }
    ensures signs { law.SignsKeep }
    ensures choices { law.ChoicesKeep }
    ensures more_operands { law.MoreOperandsKeep }
    ensures chains { law.ChainsKeep }
    ensures accesses { law.AccessesKeep }
    ensures calls { law.CallsKeep }
    ensures conversions { law.ConversionsKeep }
{}

/// Does nothing: its contract says that what is read of an operand as a tree is fit, what a constraint is, and that the nesting that
/// is tested is that of the tree.
pub fn fit_operands()
    ensures integers { law.IntegersReadKeep }
    ensures conditions { law.ConditionsReadKeep }
    ensures constraints { law.ConstraintsAreTrees }
    ensures nesting { law.NestingIsOwn }
{}

/// Does nothing: its contract says that leaves are fit, variables by the intervals of their own sets, and each tree that may be
/// asked.
pub fn trees_are_fit()
    ensures variables { law.VariablesAreFit }
    ensures bit_variables { law.BitVariablesAreFit }
    ensures numbers { law.NumberLeavesAreFit }
    ensures truths { law.TruthLeavesAreFit }
    ensures integers { law.IntegerTreesAreFit }
    ensures booleans { law.BooleanTreesAreFit }
{}

/// Does nothing: its contract says that each node is fit where its parts are, those on numbers where they are within the limits.
pub fn nodes_keep()
    ensures sum { law.OperationKeeps n.sum }
    ensures difference { law.OperationKeeps n.difference }
    ensures product { law.OperationKeeps n.product }
    ensures quotient { law.OperationKeeps n.quotient }
    ensures remainder { law.OperationKeeps n.remainder }
    ensures negation { law.ImageKeeps n.negation }
    ensures magnitude { law.ImageKeeps n.magnitude }
    ensures total { law.FoldKeeps n.total }
    ensures extreme { law.ExtremesKeep }
    ensures count { law.FoldByOneKeeps n.count }
    ensures element { law.ElementNodesKeep }
    ensures element_of_grid { law.GridNodesKeep }
    ensures bit { law.BitsKeep }
    ensures choice { law.BranchesKeep }
    ensures choice_of_truths { law.TruthBranchesKeep }
    ensures all { law.JunctionKeeps n.all }
    ensures some { law.JunctionKeeps n.some }
    ensures denial { law.DenialKeeps }
    ensures equivalence { law.ConnectiveKeeps n.equivalence }
    ensures implication { law.ConnectiveKeeps n.implication }
    ensures exclusive { law.ConnectiveKeeps n.exclusive }
    ensures equal { law.ComparisonKeeps n.equal }
    ensures unequal { law.ComparisonKeeps n.unequal }
    ensures less { law.ComparisonKeeps n.less }
    ensures at_most { law.ComparisonKeeps n.at_most }
    ensures member { law.MemberNodesKeep }
    ensures distinct { law.TestKeeps n.distinct }
    ensures rowed { law.RowNodesKeep }
{}

/// Worked rows: a number within the limits is fit, and one outside is not; a variable over its set is, and over no sets is not;
/// an integer that is a truth value is not; nor is one beside which a wrong meaning stands.
pub fn fit_rows()
    ensures number { IsFit [] (o.Number (Some (pos (2 ^ 50)))) }
    ensures outside { IsFit [] (o.Number (Some (pos (2 ^ 50 + 1)))) → ⊥ }
    ensures variable { IsFit one_set (o.Integer (n.variable 0 (span_of 1 3))) }
    ensures unknown { IsFit [] (o.Integer (n.variable 0 (span_of 1 3))) → ⊥ }
    ensures sort { IsFit [] (o.Integer (n.truth_leaf true)) → ⊥ }
    ensures meaning { IsFit one_set (o.Integer (n.variable 0 (span_of 1 2))) → ⊥ }
    ensures array { IsFit one_set (line_from_one (c.Integers (n.variable 0 (span_of 1 3) ∷ []))) }
    ensures element { IsFit one_set (line_from_one (c.Integers (n.truth_leaf true ∷ []))) → ⊥ }
{}
