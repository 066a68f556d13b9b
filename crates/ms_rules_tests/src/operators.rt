//! Operators, signs and conversions.

ghost use Rattle.std.specs.Prelude.{◌≡◌, ◌-◌, ◌^◌, [], ◌∷◌, true, false, pos, negsuc, Some, None, codes};
ghost use Rattle.ms_syntax.specs.declared.tree.Operator.TheVariants as op;
ghost use Rattle.ms_syntax.specs.declared.tree.Sign.TheVariants as sign;
ghost use Rattle.ms_trees.specs.declared.tree.Ground.TheVariants as g;
ghost use Rattle.ms_typing.specs.Conversion.{numbers, truths};
ghost use Rattle.ms_typing.specs.declared.types.ExprType.TheVariants.{Plain};
ghost use Rattle.ms_typing.specs.declared.types.Scalar.TheVariants as scalar;
ghost use Rattle.ms_typing.specs.declared.types.Shape.TheVariants.{Line};
ghost use Rattle.ms_values.specs.declared.operand.Operand.TheVariants as o;
ghost use Rattle.ms_values.specs.declared.operand.Cells.TheVariants as c;
ghost use Rattle.ms_values.specs.declared.operand.Kind.TheVariants as k;
ghost use Rattle.ms_rules.specs.Operators.{choice, join, signed};
ghost use Rattle.ms_rules.specs.Conversions.{conversion_nesting, convert};
ghost use Rattle.ms_rules_tests.specs.Sample as s;
ghost use Rattle.ms_rules_tests.specs.Sample.{b, b_tree, condition, integer, line, minus, no, no_integer, no_set, num, set, some_numbers, text, to, undefined, x, y, yes};

/// `2 + 3`, `2 - 3`, `2 * 3`, `true + 2`; an undefined part; `x + 3`, `x - y`, `x * y`, `x + undefined`, `true + b`.
#[tactic(auto, unfolding(ms_rules::specs::Operators::join, ms_rules::specs::Operators::signed, ms_rules::specs::Conversions::convert))]
pub fn sums()
    ensures known { join op.Plus (num 2) (num 3) ≡ Some (num 5) }
    ensures difference { join op.Minus (num 2) (num 3) ≡ Some (minus 0) }
    ensures product { join op.Times (num 2) (num 3) ≡ Some (num 6) }
    ensures truth { join op.Plus yes (num 2) ≡ Some (num 3) }
    ensures undefined { join op.Plus undefined (num 3) ≡ Some undefined }
    ensures variable { join op.Plus x (num 3) ≡ Some (integer (g.Add (g.Var 0) (g.Num (pos 3))) (to 3 5) false 3 2) }
    ensures both { join op.Minus x y ≡ Some (integer (g.Sub (g.Var 0) (g.Var 1)) (s.span (negsuc 4) (pos 1)) false 3 2) }
    ensures times { join op.Times x y ≡ Some (integer (g.Mul (g.Var 0) (g.Var 1)) (to 0 10) false 3 2) }
    ensures never { join op.Plus x undefined ≡ Some (no_integer (g.Add (g.Var 0) g.Undef) 3 2) }
    ensures bits { join op.Plus yes b ≡ Some (integer (g.Add (g.Num (pos 1)) (g.ToInt (g.BVar 2))) (to 1 2) false 4 3) }
{}

/// The greatest number and one more; the greatest times `x`; the least.
#[tactic(auto, unfolding(ms_rules::specs::Operators::join, ms_rules::specs::Operators::signed, ms_rules::specs::Conversions::convert))]
pub fn limits()
    ensures most { join op.Plus (num (2 ^ 50 - 1)) (num 1) ≡ Some (num (2 ^ 50)) }
    ensures more { join op.Plus (num (2 ^ 50)) (num 1) ≡ None }
    ensures least { join op.Minus (minus (2 ^ 50 - 2)) (num 1) ≡ Some (minus (2 ^ 50 - 1)) }
    ensures less { join op.Minus (minus (2 ^ 50 - 1)) (num 1) ≡ None }
    ensures variable { join op.Times x (num (2 ^ 50)) ≡ None }
{}

/// `7 div 2`, `-7 div 2`, `7 mod -2`, `-7 mod 2`, `1 div 0`, `1 mod 0`, `4 div x`, `y mod 2`.
#[tactic(auto, unfolding(ms_rules::specs::Operators::join, ms_rules::specs::Operators::signed, ms_rules::specs::Conversions::convert))]
pub fn divisions()
    ensures quotient { join op.Div (num 7) (num 2) ≡ Some (num 3) }
    ensures cut { join op.Div (minus 6) (num 2) ≡ Some (minus 2) }
    ensures remainder { join op.Mod (num 7) (minus 1) ≡ Some (num 1) }
    ensures negative { join op.Mod (minus 6) (num 2) ≡ Some (minus 0) }
    ensures by_zero { join op.Div (num 1) (num 0) ≡ Some undefined }
    ensures rest_by_zero { join op.Mod (num 1) (num 0) ≡ Some undefined }
    ensures variable { join op.Div (num 4) x ≡ Some (integer (g.Div (g.Num (pos 4)) (g.Var 0)) (to 2 4) true 3 2) }
    ensures rest { join op.Mod y (num 2) ≡ Some (integer (g.Mod (g.Var 1) (g.Num (pos 2))) (to 0 1) false 3 2) }
{}

/// `1 < 2`, `2 <= 2`, `1 > 2`, `2 >= 3`; an undefined part; `x < 3`, `x > y`, `3 >= x`, `x <= undefined`.
#[tactic(auto, unfolding(ms_rules::specs::Operators::join, ms_rules::specs::Operators::signed, ms_rules::specs::Conversions::convert))]
pub fn comparisons()
    ensures less { join op.Less (num 1) (num 2) ≡ Some yes }
    ensures at_most { join op.AtMost (num 2) (num 2) ≡ Some yes }
    ensures greater { join op.Greater (num 1) (num 2) ≡ Some no }
    ensures at_least { join op.AtLeast (num 2) (num 3) ≡ Some no }
    ensures undefined { join op.Less undefined (num 2) ≡ Some no }
    ensures turned { join op.Greater undefined (num 2) ≡ Some no }
    ensures variable { join op.Less x (num 3) ≡ Some (condition (g.Lt (g.Var 0) (g.Num (pos 3))) true false 3 2) }
    ensures exchanged { join op.Greater x y ≡ Some (condition (g.Lt (g.Var 1) (g.Var 0)) true true 3 2) }
    ensures turned_variable { join op.AtLeast (num 3) x ≡ Some (condition (g.Le (g.Var 0) (g.Num (pos 3))) true false 3 2) }
    ensures never { join op.AtMost x undefined ≡ Some (condition (g.Le (g.Var 0) g.Undef) false true 3 2) }
{}

/// `1 = 1`, `1 != 1`, undefined parts, `true = false`, `true != false`, `true = b`, `b != true`, `b = 1`, `1 = true`, sets, strings.
#[tactic(auto, unfolding(ms_rules::specs::Operators::join, ms_rules::specs::Operators::signed, ms_rules::specs::Conversions::convert))]
pub fn equalities()
    ensures numbers { join op.Equal (num 1) (num 1) ≡ Some yes }
    ensures unequal { join op.NotEqual (num 1) (num 1) ≡ Some no }
    ensures undefined { join op.Equal undefined undefined ≡ Some no }
    ensures undefined_too { join op.NotEqual undefined (num 1) ≡ Some no }
    ensures truths { join op.Equal yes no ≡ Some no }
    ensures truths_differ { join op.NotEqual yes no ≡ Some yes }
    ensures equivalent { join op.Equal yes b ≡ Some (condition (g.Iff g.True (g.BVar 2)) true true 3 2) }
    ensures exclusive { join op.NotEqual b yes ≡ Some (condition (g.Xor (g.BVar 2) g.True) true true 3 2) }
    ensures mixed { join op.Equal b (num 1) ≡ Some (condition (g.Eq (g.ToInt (g.BVar 2)) (g.Num (pos 1))) true true 4 3) }
    ensures known_mixed { join op.Equal (num 1) yes ≡ Some yes }
    ensures variable { join op.Equal x y ≡ Some (condition (g.Eq (g.Var 0) (g.Var 1)) true true 3 2) }
    ensures sets { join op.Equal (set (to 1 3 ∷ [])) (set (to 1 3 ∷ [])) ≡ Some yes }
    ensures sets_differ { join op.NotEqual (set (to 1 3 ∷ [])) (set (to 1 2 ∷ [])) ≡ Some yes }
    ensures no_set { join op.Equal no_set (set []) ≡ Some no }
    ensures no_set_differs { join op.NotEqual no_set (set []) ≡ Some no }
    ensures texts { join op.Equal (text (codes "ab")) (text (codes "ab")) ≡ Some yes }
    ensures texts_differ { join op.NotEqual (text (codes "ab")) (o.Text None) ≡ Some no }
{}

/// `true <-> false`, `false -> false`, `true <- false`, `true xor false`, `false \/ true`, with `b` on either side.
#[tactic(auto, unfolding(ms_rules::specs::Operators::join, ms_rules::specs::Operators::signed, ms_rules::specs::Conversions::convert))]
pub fn connectives()
    ensures equivalent { join op.Equivalent yes no ≡ Some no }
    ensures implies { join op.Implies no no ≡ Some yes }
    ensures implied { join op.ImpliedBy no yes ≡ Some no }
    ensures exclusive { join op.Xor yes no ≡ Some yes }
    ensures either { join op.Or no yes ≡ Some yes }
    ensures both { join op.And yes no ≡ Some no }
    ensures variable { join op.Implies b no ≡ Some (condition (g.Imp (g.BVar 2) g.False) true true 3 2) }
    ensures turned { join op.ImpliedBy b no ≡ Some (condition (g.Imp g.False (g.BVar 2)) true false 3 2) }
    ensures disjunction { join op.Or b yes ≡ Some (condition (g.Or (g.BVar 2 ∷ g.True ∷ [])) true false 3 2) }
    ensures undefined { join op.Or undefined b ≡ Some (condition (g.Or (g.False ∷ g.BVar 2 ∷ [])) true true 3 2) }
{}

/// `2 in 1..3`, an undefined number or set, `y in {1, 3}`, `x in {}`, `x` in an undefined set.
#[tactic(auto, unfolding(ms_rules::specs::Operators::join, ms_rules::specs::Operators::signed, ms_rules::specs::Conversions::convert))]
pub fn memberships()
    ensures inside { join op.In (num 2) (set (to 1 3 ∷ [])) ≡ Some yes }
    ensures outside { join op.In (num 2) (set (to 1 1 ∷ to 3 3 ∷ [])) ≡ Some no }
    ensures undefined { join op.In undefined (set (to 1 3 ∷ [])) ≡ Some no }
    ensures no_set { join op.In (num 2) no_set ≡ Some no }
    ensures variable { join op.In y (set (to 1 1 ∷ to 3 3 ∷ [])) ≡ Some (condition (g.In (g.Var 1) (to 1 1 ∷ to 3 3 ∷ [])) true true 4 2) }
    ensures empty { join op.In x (set []) ≡ Some (condition (g.In (g.Var 0) []) false true 2 2) }
    ensures never { join op.In x no_set ≡ Some (condition g.False false true 1 1) }
{}

/// `1 .. 3`, `3 .. 1`, `undefined .. 3`.
#[tactic(auto, unfolding(ms_rules::specs::Operators::join, ms_rules::specs::Operators::signed, ms_rules::specs::Conversions::convert))]
pub fn ranges()
    ensures some { join op.To (num 1) (num 3) ≡ Some (set (to 1 3 ∷ [])) }
    ensures none { join op.To (num 3) (num 1) ≡ Some (set []) }
    ensures undefined { join op.To undefined (num 3) ≡ Some no_set }
{}

/// `"a" ++ "b"`, an undefined string, `[1] ++ [2, 3]`, `[x] ++ [1]`, an undefined array.
#[tactic(auto, unfolding(ms_rules::specs::Operators::join, ms_rules::specs::Operators::signed, ms_rules::specs::Conversions::convert))]
pub fn concatenations()
    ensures texts { join op.Concat (text (codes "a")) (text (codes "b")) ≡ Some (text (codes "ab")) }
    ensures undefined { join op.Concat (o.Text None) (text (codes "b")) ≡ Some (o.Text None) }
    ensures arrays { join op.Concat (line 7 (some_numbers (1 ∷ []))) (line 2 (some_numbers (2 ∷ 3 ∷ []))) ≡ Some (line 1 (some_numbers (1 ∷ 2 ∷ 3 ∷ []))) }
    ensures no_array { join op.Concat (line 1 (some_numbers (1 ∷ []))) (o.NoArray k.Number) ≡ Some (o.NoArray k.Number) }
    ensures no_left { join op.Concat (o.NoArray k.Truth) (line 1 (c.Truths [])) ≡ Some (o.NoArray k.Truth) }
{}

/// `-3`, `-undefined`, `-x`, `not true`, `not b`, and an `if` between integers and between Booleans.
#[tactic(auto, unfolding(ms_rules::specs::Operators::join, ms_rules::specs::Operators::signed, ms_rules::specs::Conversions::convert))]
pub fn signs()
    ensures minus { signed sign.Minus (num 3) ≡ Some (minus 2) }
    ensures undefined { signed sign.Minus undefined ≡ Some undefined }
    ensures truth { signed sign.Minus yes ≡ Some (minus 0) }
    ensures variable { signed sign.Minus y ≡ Some (integer (g.Neg (g.Var 1)) (s.span (negsuc 4) (negsuc 0)) false 2 2) }
    ensures not { signed sign.Not no ≡ Some yes }
    ensures denial { signed sign.Not b ≡ Some (condition (g.Not (g.BVar 2)) true true 2 2) }
    ensures integers { choice b x y ≡ integer (g.IteI (g.BVar 2) (g.Var 0) (g.Var 1)) (to 0 5) false 4 2 }
    ensures truths { choice b b b ≡ condition (g.IteB (g.BVar 2) (g.BVar 2) (g.BVar 2)) true true 4 2 }
{}

/// Known values and an array as variable ones, a Boolean as an integer, an array without elements as one of Booleans; how deep
/// the trees are that are made for it.
#[tactic(auto, unfolding(ms_rules::specs::Operators::join, ms_rules::specs::Operators::signed, ms_rules::specs::Conversions::convert, ms_rules::specs::Conversions::conversion_nesting))]
pub fn conversions()
    ensures number { convert (numbers false) (num 3) ≡ integer (g.Num (pos 3)) (to 3 3) false 1 1 }
    ensures undefined { convert (numbers false) undefined ≡ no_integer g.Undef 1 1 }
    ensures truth { convert (truths false) yes ≡ condition g.True true false 1 1 }
    ensures bit { convert (numbers true) yes ≡ num 1 }
    ensures bit_tree { convert (numbers false) b ≡ integer (g.ToInt (g.BVar 2)) (to 0 1) false 2 2 }
    ensures empty { convert (Plain scalar.Truth Line false) (line 1 (some_numbers [])) ≡ line 1 (c.Conditions []) }
    ensures no_array { convert (Plain scalar.Number Line false) (o.NoArray k.Number) ≡ o.NoArray k.Integer }
    ensures makes_bit { conversion_nesting (numbers false) b ≡ 2 }
    ensures makes_bits { conversion_nesting (Plain scalar.Number Line false) (line 1 (c.Conditions (b_tree ∷ []))) ≡ 2 }
    ensures makes_leaf { conversion_nesting (numbers false) yes ≡ 0 }
    ensures makes_none { conversion_nesting (truths false) b ≡ 0 }
{}
