//! Elements by their indices.

ghost use Rattle.std.specs.Prelude.{◌≡◌, ◌-◌, ◌^◌, [], ◌∷◌, true, false, pos, Some, None, codes};
ghost use Rattle.ms_trees.specs.declared.tree.Ground.TheVariants as g;
ghost use Rattle.ms_values.specs.declared.operand.Operand.TheVariants as o;
ghost use Rattle.ms_values.specs.declared.operand.Cells.TheVariants as c;
ghost use Rattle.ms_values.specs.declared.operand.Kind.TheVariants as k;
ghost use Rattle.ms_rules.specs.Access.{access};
ghost use Rattle.ms_rules.specs.Operands.{elements_of};
ghost use Rattle.ms_rules_tests.specs.Sample.{b, b_tree, condition, grid, indices, integer, line, no, no_integer, num, some_numbers, text, to, undefined, x, x_tree, y, yes};

/// Arrays from 2 on: `[5, 7]` at 2, 3, 4 and at an undefined index; `[x, 7]` at 2; `[5, 7]` at `y`; `[true, b]` at 3 and at `y`.
pub fn lines()
    ensures first { access (line 2 (some_numbers (5 ∷ 7 ∷ []))) (num 2) None ≡ Some (num 5) }
    ensures last { access (line 2 (some_numbers (5 ∷ 7 ∷ []))) (num 3) None ≡ Some (num 7) }
    ensures outside { access (line 2 (some_numbers (5 ∷ 7 ∷ []))) (num 4) None ≡ Some undefined }
    ensures below { access (line 2 (some_numbers (5 ∷ 7 ∷ []))) (num 1) None ≡ Some undefined }
    ensures no_index { access (line 2 (some_numbers (5 ∷ 7 ∷ []))) undefined None ≡ Some undefined }
    ensures text { access (line 1 (c.Texts (Some (codes "a") ∷ []))) (num 1) None ≡ Some (text (codes "a")) }
    ensures tree { access (line 2 (c.Integers (x_tree ∷ []))) (num 2) None ≡ Some x }
    ensures variable { access (line 2 (some_numbers (5 ∷ 7 ∷ []))) y None
        ≡ Some (integer (g.Elem (pos 2) (g.Num (pos 5) ∷ g.Num (pos 7) ∷ []) (g.Var 1)) (to 5 7) true 4 2) }
    ensures truths { access (line 1 (c.Truths (true ∷ false ∷ []))) (num 2) None ≡ Some no }
    ensures condition { access (line 1 (c.Conditions (b_tree ∷ []))) y None
        ≡ Some (condition (g.Eq (g.Elem (pos 1) (g.ToInt (g.BVar 2) ∷ []) (g.Var 1)) (g.Num (pos 1))) true true 6 4) }
    ensures known_condition { access (line 1 (c.Truths (true ∷ []))) y None
        ≡ Some (condition (g.Eq (g.Elem (pos 1) (g.ToInt g.True ∷ []) (g.Var 1)) (g.Num (pos 1))) true true 6 4) }
    ensures of_none { access (line 1 (some_numbers [])) y None ≡ Some (no_integer (g.Elem (pos 1) [] (g.Var 1)) 2 2) }
{}

/// `[| 1, 2 | 3, 4 |]` with rows 1..2 and columns 5..6: at 2, 5; at 2, 7; at 2, y; at y, 6; at x, y; at 3, y; at an undefined row
/// and y. `[| true, false |]` with these columns: at 1, 6; at 1, y; at 2, y.
pub fn grids()
    ensures known { access (grid (indices 1 2) (indices 5 2) (some_numbers (1 ∷ 2 ∷ 3 ∷ 4 ∷ []))) (num 2) (Some (num 5)) ≡ Some (num 3) }
    ensures outside { access (grid (indices 1 2) (indices 5 2) (some_numbers (1 ∷ 2 ∷ 3 ∷ 4 ∷ []))) (num 2) (Some (num 7)) ≡ Some undefined }
    ensures row { access (grid (indices 1 2) (indices 5 2) (some_numbers (1 ∷ 2 ∷ 3 ∷ 4 ∷ []))) (num 2) (Some y)
        ≡ Some (integer (g.Elem (pos 5) (g.Num (pos 3) ∷ g.Num (pos 4) ∷ []) (g.Var 1)) (to 3 3) true 4 2) }
    ensures column { access (grid (indices 1 2) (indices 5 2) (some_numbers (1 ∷ 2 ∷ 3 ∷ 4 ∷ []))) y (Some (num 6))
        ≡ Some (integer (g.Elem (pos 1) (g.Num (pos 2) ∷ g.Num (pos 4) ∷ []) (g.Var 1)) (to 2 4) true 4 2) }
    ensures both { access (grid (indices 1 2) (indices 5 2) (some_numbers (1 ∷ 2 ∷ 3 ∷ 4 ∷ []))) x (Some y)
        ≡ Some (integer (g.Elem2 (pos 1) (pos 5) 2 (g.Num (pos 1) ∷ g.Num (pos 2) ∷ g.Num (pos 3) ∷ g.Num (pos 4) ∷ []) (g.Var 0) (g.Var 1)) (to 1 3) true 7 2) }
    ensures no_row { access (grid (indices 1 2) (indices 5 2) (some_numbers (1 ∷ 2 ∷ 3 ∷ 4 ∷ []))) (num 3) (Some y) ≡ Some (no_integer g.Undef 1 1) }
    ensures undefined_row { access (grid (indices 1 2) (indices 5 2) (some_numbers (1 ∷ 2 ∷ 3 ∷ 4 ∷ []))) undefined (Some y) ≡ Some (no_integer g.Undef 1 1) }
    ensures known_truth { access (grid (indices 1 1) (indices 5 2) (c.Truths (true ∷ false ∷ []))) (num 1) (Some (num 6)) ≡ Some no }
    ensures truth { access (grid (indices 1 1) (indices 5 2) (c.Truths (true ∷ false ∷ []))) (num 1) (Some y)
        ≡ Some (condition (g.Eq (g.Elem (pos 5) (g.ToInt g.True ∷ g.ToInt g.False ∷ []) (g.Var 1)) (g.Num (pos 1))) true true 8 4) }
    ensures no_truth { access (grid (indices 1 1) (indices 5 2) (c.Truths (true ∷ false ∷ []))) (num 2) (Some y) ≡ Some (condition g.False false true 1 1) }
{}

/// How many elements count: of `[5, 7]`, of rows without columns, and of 2^32 - 1 such rows, which are too many indices.
pub fn extents()
    ensures line { elements_of (line 2 (some_numbers (5 ∷ 7 ∷ []))) ≡ 2 }
    ensures grid { elements_of (grid (indices 1 2) (indices 5 1) (some_numbers (5 ∷ 7 ∷ []))) ≡ 2 }
    ensures no_columns { elements_of (grid (indices 1 300000) (indices 1 0) (some_numbers [])) ≡ 0 }
    ensures most { elements_of (grid (indices 1 (2 ^ 32 - 2)) (indices 1 0) (some_numbers [])) ≡ 0 }
    ensures too_many { elements_of (grid (indices 1 (2 ^ 32 - 1)) (indices 1 0) (some_numbers [])) ≡ 2 ^ 32 - 1 }
{}

/// Arrays that are undefined as a whole, by known and by variable indices.
pub fn undefined_elements()
    ensures number { access (o.NoArray k.Number) (num 1) None ≡ Some undefined }
    ensures truth { access (o.NoArray k.Truth) (num 1) None ≡ Some no }
    ensures variable { access (o.NoArray k.Truth) y None ≡ Some (condition g.False false true 1 1) }
    ensures integer { access (o.NoArray k.Integer) (num 1) (Some (num 1)) ≡ Some (no_integer g.Undef 1 1) }
{}
