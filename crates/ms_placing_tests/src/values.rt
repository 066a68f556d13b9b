//! Values that callers are given, and those that they hand in.

ghost use Rattle.std.specs.Prelude.{◌≡◌, [], ◌∷◌, pos, true, false, codes, Some, None};
ghost use Rattle.ms_trees.specs.declared.tree.Ground.TheVariants as g;
ghost use Rattle.ms_typing.specs.Conversion.{numbers, truths};
ghost use Rattle.ms_tree_nodes.specs.Nodes.{number_leaf, truth_leaf};
ghost use Rattle.ms_values.specs.declared.operand.Cells.TheVariants as cells;
ghost use Rattle.ms_values.specs.declared.operand.Kind.TheVariants as k;
ghost use Rattle.ms_values.specs.declared.operand.Operand.TheVariants as o;
ghost use Rattle.ms_values.specs.declared.value.Value.TheVariants as v;
ghost use Rattle.ms_placing.specs.Values.{entered, given};
ghost use Rattle.ms_placing_tests.specs.Sample.{b_tree, known, line, x_tree};

/// A number, a Boolean, trees, an array with an undefined element; what has no value.
pub fn given_values()
    ensures number { given (known 3) ≡ Some (v.Number (pos 3)) }
    ensures truth { given (o.Truth false) ≡ Some (v.Truth false) }
    ensures text { given (o.Text (Some (codes "a"))) ≡ Some (v.Text (codes "a")) }
    ensures tree { given (o.Integer x_tree) ≡ Some (v.Tree (g.Var 0)) }
    ensures line { given (line (cells.Numbers (Some (pos 4) ∷ None ∷ []))) ≡ Some (v.Trees1 (record { lo = pos 1; len = 2 }) (g.Num (pos 4) ∷ g.Undef ∷ [])) }
    ensures conditions { given (line (cells.Conditions (b_tree ∷ []))) ≡ Some (v.Trees1 (record { lo = pos 1; len = 1 }) (g.BVar 2 ∷ [])) }
    ensures texts { given (line (cells.Texts (None ∷ []))) ≡ Some (v.Texts1 (record { lo = pos 1; len = 1 }) (None ∷ [])) }
    ensures no_number { given (o.Number None) ≡ None }
    ensures no_set { given (o.Set None) ≡ None }
    ensures no_text { given (o.Text None) ≡ None }
    ensures no_array { given (o.NoArray k.Truth) ≡ None }
{}

/// A known number as one and as a variable one, a Boolean as a variable integer and as a variable Boolean.
#[tactic(auto, unfolding(ms_rules::specs::Conversions::convert))]
pub fn entered_values()
    ensures known { entered [] (numbers true) (v.Number (pos 3)) ≡ known 3 }
    ensures number { entered [] (numbers false) (v.Number (pos 3)) ≡ o.Integer (number_leaf (Some (pos 3))) }
    ensures bit { entered [] (numbers false) (v.Truth true) ≡ o.Integer (number_leaf (Some (pos 1))) }
    ensures truth { entered [] (truths false) (v.Truth true) ≡ o.Condition (truth_leaf true) }
{}
