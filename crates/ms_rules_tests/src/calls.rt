//! Built-in names.

ghost use Rattle.std.specs.Prelude.{◌≡◌, ◌-◌, ◌^◌, [], ◌∷◌, ◌++◌, true, false, pos, negsuc, Some, None, codes};
ghost use Rattle.std.specs.Fmt.{signed_decimal};
ghost use Rattle.ms_built_ins.specs.declared.names.BuiltIn.TheVariants as b;
ghost use Rattle.ms_trees.specs.declared.tree.Ground.TheVariants as g;
ghost use Rattle.ms_values.specs.declared.operand.Operand.TheVariants as o;
ghost use Rattle.ms_values.specs.declared.operand.Cells.TheVariants as c;
ghost use Rattle.ms_values.specs.declared.operand.Kind.TheVariants as k;
ghost use Rattle.ms_rules.specs.Calls.{call, takes_word};
ghost use Rattle.ms_rules.specs.Sets.{ranges_of};
ghost use Rattle.ms_rules_tests.specs.Sample as s;
ghost use Rattle.ms_rules_tests.specs.Sample.{b_tree, condition, grid, indices, integer, line, minus, no, no_integer, no_set, num, set, some_numbers, text, to, undefined, x, x_tree, y, y_tree, yes};

/// `forall` and `exists` of known and variable arrays, of none, of one that is undefined, and of undefined elements.
#[tactic(auto, unfolding(ms_rules::specs::Calls::call, ms_trees::specs::WellFormed::is_well_formed))]
pub fn booleans()
    ensures all { call None 0 b.ForAll (line 1 (c.Truths (true ∷ false ∷ [])) ∷ []) ≡ Some no }
    ensures some { call None 0 b.Exists (line 1 (c.Truths (true ∷ false ∷ [])) ∷ []) ≡ Some yes }
    ensures all_of_none { call None 0 b.ForAll (line 1 (some_numbers []) ∷ []) ≡ Some yes }
    ensures some_of_none { call None 0 b.Exists (line 1 (some_numbers []) ∷ []) ≡ Some no }
    ensures variable { call None 0 b.ForAll (line 1 (c.Conditions (b_tree ∷ [])) ∷ []) ≡ Some (condition (g.And (g.BVar 2 ∷ [])) true true 2 2) }
    ensures variable_none { call None 0 b.Exists (line 1 (c.Conditions []) ∷ []) ≡ Some (condition (g.Or []) false true 1 1) }
    ensures undefined { call None 0 b.ForAll (o.NoArray k.Truth ∷ []) ≡ Some no }
    ensures undefined_variable { call None 0 b.Exists (o.NoArray k.Condition ∷ []) ≡ Some (condition g.False false true 1 1) }
    ensures elements { call None 0 b.ForAll (line 1 (c.Numbers (None ∷ [])) ∷ []) ≡ Some no }
{}

/// `sum`, `min`, `max`, `abs`, `bool2int`, `count`, `all_different`.
#[tactic(auto, unfolding(ms_rules::specs::Calls::call, ms_trees::specs::WellFormed::is_well_formed))]
pub fn numbers()
    ensures sum { call None 0 b.Sum (line 1 (some_numbers (2 ∷ 3 ∷ [])) ∷ []) ≡ Some (num 5) }
    ensures sum_of_none { call None 0 b.Sum (line 1 (some_numbers []) ∷ []) ≡ Some (num 0) }
    ensures sum_of_truths { call None 0 b.Sum (line 1 (c.Truths (true ∷ true ∷ [])) ∷ []) ≡ Some (num 2) }
    ensures sum_undefined { call None 0 b.Sum (line 1 (c.Numbers (Some (pos (2 ^ 50)) ∷ None ∷ Some (pos 1) ∷ [])) ∷ []) ≡ Some undefined }
    ensures sum_on_the_way { call None 0 b.Sum (line 1 (c.Numbers (Some (pos (2 ^ 50)) ∷ Some (pos 1) ∷ Some (negsuc 1) ∷ [])) ∷ []) ≡ None }
    ensures sum_variable { call None 0 b.Sum (line 1 (c.Integers (x_tree ∷ y_tree ∷ [])) ∷ []) ≡ Some (integer (g.Sum (g.Var 0 ∷ g.Var 1 ∷ [])) (to 1 7) false 3 2) }
    ensures sum_of_conditions { call None 0 b.Sum (line 1 (c.Conditions (b_tree ∷ [])) ∷ []) ≡ Some (integer (g.Sum (g.ToInt (g.BVar 2) ∷ [])) (to 0 1) false 3 3) }
    ensures sum_no_array { call None 0 b.Sum (o.NoArray k.Integer ∷ []) ≡ Some (no_integer g.Undef 1 1) }
    ensures least { call None 0 b.Min (line 1 (some_numbers (4 ∷ 2 ∷ 3 ∷ [])) ∷ []) ≡ Some (num 2) }
    ensures greatest_of_two { call None 0 b.Max (num 4 ∷ num 2 ∷ []) ≡ Some (num 4) }
    ensures least_of_none { call None 0 b.Min (line 1 (some_numbers []) ∷ []) ≡ Some undefined }
    ensures greatest_undefined { call None 0 b.Max (line 1 (c.Numbers (Some (pos 1) ∷ None ∷ [])) ∷ []) ≡ Some undefined }
    ensures least_variable { call None 0 b.Min (x ∷ num 1 ∷ []) ≡ Some (integer (g.Least (g.Var 0 ∷ g.Num (pos 1) ∷ [])) (to 0 1) false 3 2) }
    ensures greatest_of_trees { call None 0 b.Max (line 1 (c.Integers (x_tree ∷ y_tree ∷ [])) ∷ []) ≡ Some (integer (g.Greatest (g.Var 0 ∷ g.Var 1 ∷ [])) (to 1 5) false 3 2) }
    ensures magnitude { call None 0 b.Abs (minus 2 ∷ []) ≡ Some (num 3) }
    ensures magnitude_variable { call None 0 b.Abs (y ∷ []) ≡ Some (integer (g.Abs (g.Var 1)) (to 1 5) false 2 2) }
    ensures bit { call None 0 b.BoolToInt (yes ∷ []) ≡ Some (num 1) }
    ensures bit_variable { call None 0 b.BoolToInt (s.b ∷ []) ≡ Some (integer (g.ToInt (g.BVar 2)) (to 0 1) false 2 2) }
    ensures count { call None 0 b.Count (line 1 (some_numbers (2 ∷ 3 ∷ 2 ∷ [])) ∷ num 2 ∷ []) ≡ Some (num 2) }
    ensures count_undefined { call None 0 b.Count (line 1 (some_numbers (2 ∷ [])) ∷ undefined ∷ []) ≡ Some undefined }
    ensures count_variable { call None 0 b.Count (line 1 (some_numbers (2 ∷ 9 ∷ [])) ∷ x ∷ []) ≡ Some (integer (g.Count (g.Num (pos 2) ∷ g.Num (pos 9) ∷ []) (g.Var 0)) (to 0 1) false 4 2) }
    ensures distinct { call None 0 b.AllDifferent (line 1 (some_numbers (2 ∷ 3 ∷ 2 ∷ [])) ∷ []) ≡ Some no }
    ensures distinct_undefined { call None 0 b.AllDifferent (line 1 (c.Numbers (Some (pos 1) ∷ None ∷ [])) ∷ []) ≡ Some no }
    ensures distinct_variable { call None 0 b.AllDifferent (line 1 (c.Integers (x_tree ∷ y_tree ∷ [])) ∷ []) ≡ Some (condition (g.AllDiff (g.Var 0 ∷ g.Var 1 ∷ [])) true true 3 2) }
{}

/// `table([2, 3], ..)`: a row, no row, rows of another width, an undefined number; `table([x], ..)`.
#[tactic(auto, unfolding(ms_rules::specs::Calls::call, ms_trees::specs::WellFormed::is_well_formed))]
pub fn tables()
    ensures row { call None 0 b.Table (line 1 (some_numbers (2 ∷ 3 ∷ [])) ∷ grid (indices 1 2) (indices 1 2) (some_numbers (1 ∷ 1 ∷ 2 ∷ 3 ∷ [])) ∷ []) ≡ Some yes }
    ensures no_row { call None 0 b.Table (line 1 (some_numbers (2 ∷ 3 ∷ [])) ∷ grid (indices 1 1) (indices 1 2) (some_numbers (2 ∷ 2 ∷ [])) ∷ []) ≡ Some no }
    ensures width { call None 0 b.Table (line 1 (some_numbers (2 ∷ [])) ∷ grid (indices 1 1) (indices 1 2) (some_numbers (2 ∷ 2 ∷ [])) ∷ []) ≡ Some no }
    ensures undefined { call None 0 b.Table (line 1 (some_numbers (2 ∷ [])) ∷ grid (indices 1 2) (indices 1 1) (c.Numbers (Some (pos 2) ∷ None ∷ [])) ∷ []) ≡ Some no }
    ensures variable { call None 0 b.Table (line 1 (c.Integers (x_tree ∷ [])) ∷ grid (indices 1 2) (indices 1 1) (some_numbers (1 ∷ 4 ∷ [])) ∷ [])
        ≡ Some (condition (g.Table (g.Var 0 ∷ []) ((pos 1 ∷ []) ∷ (pos 4 ∷ []) ∷ [])) true true 4 2) }
    ensures variable_width { call None 0 b.Table (line 1 (c.Integers (x_tree ∷ [])) ∷ grid (indices 1 0) (indices 1 0) (some_numbers []) ∷ []) ≡ Some (condition g.False false true 1 1) }
{}

/// `length`, the index sets, `card`.
#[tactic(auto, unfolding(ms_rules::specs::Calls::call, ms_trees::specs::WellFormed::is_well_formed))]
pub fn index_sets()
    ensures length { call None 0 b.Length (line 5 (some_numbers (4 ∷ 4 ∷ [])) ∷ []) ≡ Some (num 2) }
    ensures length_of_trees { call None 0 b.Length (line 1 (c.Integers (x_tree ∷ [])) ∷ []) ≡ Some (num 1) }
    ensures no_length { call None 0 b.Length (o.NoArray k.Number ∷ []) ≡ Some undefined }
    ensures line { call None 0 b.IndexSet (line 5 (some_numbers (4 ∷ 4 ∷ [])) ∷ []) ≡ Some (set (to 5 6 ∷ [])) }
    ensures empty { call None 0 b.IndexSet (line 1 (some_numbers []) ∷ []) ≡ Some (set []) }
    ensures no_array { call None 0 b.IndexSet (o.NoArray k.Number ∷ []) ≡ Some no_set }
    ensures greatest { call None 0 b.IndexSet (line (2 ^ 50) (some_numbers (4 ∷ [])) ∷ []) ≡ Some (set (to (2 ^ 50) (2 ^ 50) ∷ [])) }
    ensures wide { call None 0 b.IndexSet (line (2 ^ 50) (some_numbers (4 ∷ 4 ∷ [])) ∷ []) ≡ None }
    ensures rows { call None 0 b.RowIndexSet (grid (indices 2 1) (indices 5 2) (some_numbers (4 ∷ 4 ∷ [])) ∷ []) ≡ Some (set (to 2 2 ∷ [])) }
    ensures columns { call None 0 b.ColumnIndexSet (grid (indices 2 1) (indices 5 2) (some_numbers (4 ∷ 4 ∷ [])) ∷ []) ≡ Some (set (to 5 6 ∷ [])) }
    ensures card { call None 0 b.Card (set (to 1 1 ∷ to 3 5 ∷ []) ∷ []) ≡ Some (num 4) }
    ensures no_card { call None 0 b.Card (no_set ∷ []) ≡ Some undefined }
    ensures wide_card { call None 0 b.Card (set (s.span (negsuc 0) (pos (2 ^ 50)) ∷ []) ∷ []) ≡ None }
    ensures numbers { ranges_of (Some (pos 5) ∷ Some (pos 1) ∷ Some (pos 3) ∷ Some (pos 4) ∷ Some (pos 1) ∷ []) ≡ Some (to 1 1 ∷ to 3 5 ∷ []) }
    ensures no_numbers { ranges_of (Some (pos 5) ∷ None ∷ []) ≡ None }
{}

/// `array1d` and `array2d`.
#[tactic(auto, unfolding(ms_rules::specs::Calls::call, ms_trees::specs::WellFormed::is_well_formed))]
pub fn arrays()
    ensures line { call None 0 b.ArrayLine (set (to 3 4 ∷ []) ∷ line 1 (some_numbers (7 ∷ 8 ∷ [])) ∷ []) ≡ Some (line 3 (some_numbers (7 ∷ 8 ∷ []))) }
    ensures of_grid { call None 0 b.ArrayLine (set (to 3 4 ∷ []) ∷ grid (indices 1 2) (indices 1 1) (some_numbers (7 ∷ 8 ∷ [])) ∷ []) ≡ Some (line 3 (some_numbers (7 ∷ 8 ∷ []))) }
    ensures number { call None 0 b.ArrayLine (set (to 3 5 ∷ []) ∷ line 1 (some_numbers (7 ∷ 8 ∷ [])) ∷ []) ≡ Some (o.NoArray k.Number) }
    ensures holes { call None 0 b.ArrayLine (set (to 3 3 ∷ to 5 5 ∷ []) ∷ line 1 (some_numbers (7 ∷ 8 ∷ [])) ∷ []) ≡ Some (o.NoArray k.Number) }
    ensures empty { call None 0 b.ArrayLine (set [] ∷ line 1 (some_numbers []) ∷ []) ≡ Some (line 1 (some_numbers [])) }
    ensures no_set { call None 0 b.ArrayLine (no_set ∷ line 1 (c.Truths []) ∷ []) ≡ Some (o.NoArray k.Truth) }
    ensures grid { call None 0 b.ArrayGrid (set (to 1 2 ∷ []) ∷ set (to 5 5 ∷ []) ∷ line 1 (some_numbers (7 ∷ 8 ∷ [])) ∷ []) ≡ Some (grid (indices 1 2) (indices 5 1) (some_numbers (7 ∷ 8 ∷ []))) }
    ensures no_columns { call None 0 b.ArrayGrid (set (to 1 2 ∷ []) ∷ set [] ∷ line 1 (some_numbers []) ∷ []) ≡ Some (grid (indices 1 2) (indices 1 0) (some_numbers [])) }
    ensures many_rows { call None 0 b.ArrayGrid (set (to 1 300000 ∷ []) ∷ set [] ∷ line 1 (some_numbers []) ∷ []) ≡ Some (grid (indices 1 300000) (indices 1 0) (some_numbers [])) }
    ensures no_more_rows { call None 0 b.ArrayGrid (set (to 1 (2 ^ 40) ∷ []) ∷ set [] ∷ line 1 (some_numbers []) ∷ []) ≡ Some (grid (indices 1 (2 ^ 32 - 1)) (indices 1 0) (some_numbers [])) }
    ensures no_grid { call None 0 b.ArrayGrid (set (to 1 2 ∷ []) ∷ set (to 5 6 ∷ []) ∷ line 1 (some_numbers (7 ∷ 8 ∷ [])) ∷ []) ≡ Some (o.NoArray k.Number) }
{}

/// `show` of a number, a Boolean, sets, arrays and what is undefined; `fix`.
#[tactic(auto, unfolding(ms_rules::specs::Calls::call, ms_trees::specs::WellFormed::is_well_formed))]
pub fn shown_texts()
    ensures number { call None 0 b.Show (minus 4 ∷ []) ≡ Some (text (signed_decimal (negsuc 4))) }
    ensures truth { call None 0 b.Show (yes ∷ []) ≡ Some (text (codes "true")) }
    ensures range { call None 0 b.Show (set (to 1 3 ∷ []) ∷ []) ≡ Some (text (signed_decimal (pos 1) ++ codes ".." ++ signed_decimal (pos 3))) }
    ensures holes { call None 0 b.Show (set (to 1 1 ∷ to 3 3 ∷ []) ∷ []) ≡ Some (text (codes "{" ++ (signed_decimal (pos 1) ++ codes ", " ++ signed_decimal (pos 3)) ++ codes "}")) }
    ensures no_set { call None 0 b.Show (no_set ∷ []) ≡ Some (text (codes "<undefined>")) }
    ensures line { call None 0 b.Show (line 4 (c.Numbers (Some (pos 1) ∷ None ∷ [])) ∷ []) ≡ Some (text (codes "[" ++ (signed_decimal (pos 1) ++ codes ", <undefined>") ++ codes "]")) }
    ensures grid { call None 0 b.Show (grid (indices 1 2) (indices 1 1) (c.Truths (true ∷ false ∷ [])) ∷ []) ≡ Some (text (codes "[true, false]")) }
    ensures no_array { call None 0 b.Show (o.NoArray k.Number ∷ []) ≡ Some (text (codes "<undefined>")) }
    ensures fixed { call None 0 b.Fix (num 3 ∷ []) ≡ Some (num 3) }
{}

/// `sol` and `hasSol` of what is known, with an incumbent and without one; `uniform` by the word 13.
#[tactic(auto, unfolding(ms_rules::specs::Calls::call, ms_trees::specs::WellFormed::is_well_formed))]
pub fn searches()
    ensures sol_of_known { call (Some (pos 2 ∷ pos 4 ∷ pos 1 ∷ [])) 0 b.Sol (num 7 ∷ []) ≡ Some (num 7) }
    ensures no_sol { call None 0 b.Sol (num 7 ∷ []) ≡ Some undefined }
    ensures no_truth { call None 0 b.Sol (s.b ∷ []) ≡ Some no }
    ensures has { call (Some []) 0 b.HasSol [] ≡ Some yes }
    ensures lacks { call None 0 b.HasSol [] ≡ Some no }
    ensures drawn { call None 13 b.Uniform (num 1 ∷ num 6 ∷ []) ≡ Some (num 2) }
    ensures one { call None 13 b.Uniform (num 2 ∷ num 2 ∷ []) ≡ Some (num 2) }
    ensures none { call None 13 b.Uniform (num 3 ∷ num 2 ∷ []) ≡ Some undefined }
    ensures many { call None 13 b.Uniform (num 0 ∷ num (2 ^ 32) ∷ []) ≡ Some undefined }
    ensures all_words { call None 13 b.Uniform (num 0 ∷ num (2 ^ 32 - 1) ∷ []) ≡ Some (num 13) }
    ensures takes { takes_word (num 2 ∷ num 2 ∷ []) ≡ true }
    ensures leaves { takes_word (num 3 ∷ num 2 ∷ []) ≡ false }
    ensures leaves_undefined { takes_word (undefined ∷ num 2 ∷ []) ≡ false }
{}
