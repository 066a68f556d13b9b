//! Chains, calls, locals, and what is tested at a node.

ghost use Rattle.std.specs.Prelude.{◌≡◌, [], ◌∷◌, pos, true, false, Some, None};
ghost use Rattle.ms_base.specs.declared.run.Count.TheVariants as count;
ghost use Rattle.ms_syntax.specs.declared.tree.Operator.TheVariants as op;
ghost use Rattle.ms_syntax.specs.declared.tree.Sign.TheVariants as sign;
ghost use Rattle.ms_typing.specs.Conversion.{numbers};
ghost use Rattle.ms_typing.specs.declared.types.ExprType.TheVariants.{Plain};
ghost use Rattle.ms_typing.specs.declared.types.Scalar.TheVariants as scalar;
ghost use Rattle.ms_typing.specs.declared.types.Shape.TheVariants.{Line};
ghost use Rattle.ms_code.specs.declared.code.Code.TheVariants as c;
ghost use Rattle.ms_tree_nodes.specs.Nodes.{bit, denial, exclusive, number_leaf, some};
ghost use Rattle.ms_values.specs.declared.operand.Cells.TheVariants as cells;
ghost use Rattle.ms_values.specs.declared.operand.Operand.TheVariants as o;
ghost use Rattle.ms_placing.specs.Placing.{Places, caller, opener, run};
ghost use Rattle.ms_placing.specs.Steps.{ok, bad};
ghost use Rattle.ms_placing.specs.declared.fault.PlaceFault.TheVariants as f;
ghost use Rattle.ms_placing_tests.specs.Sample.{at, b, b_tree, d, declared, deep, e, known, line, local, num, out, pair, then_by, w};

/// `b \/ b \/ b` is one disjunction, `b \/ b xor b` is of pairs.
#[tactic(auto, using(ms_code::specs::declared::code::Code::TheFolds::the_lemmas), unfolding(ms_placing::specs::Placing::run_step, ms_placing::specs::Placing::opener, ms_rules::specs::Operators::join, ms_rules::specs::Operators::signed))]
pub fn chains()
    ensures one { Places out [] (c.Chain (b 1) (then_by op.Or 3 (b 6) ∷ then_by op.Or 8 (b 11) ∷ [])) 5 []
        ≡ ok (at 8) (o.Condition (some (b_tree ∷ b_tree ∷ b_tree ∷ []))) 0 [] }
    ensures pairs { Places out [] (c.Chain (b 1) (then_by op.Or 3 (b 6) ∷ then_by op.Xor 8 (b 12) ∷ [])) 5 []
        ≡ ok (at 8) (o.Condition (exclusive (some (b_tree ∷ b_tree ∷ [])) b_tree)) 0 [] }
{}

/// Where one body may be open: `t(1 div 0)`, where `t` does not look at its parameter; `i(7)`, whose value is its parameter; a call
/// within a call.
#[tactic(auto, using(ms_code::specs::declared::code::Code::TheFolds::the_lemmas), unfolding(ms_placing::specs::Placing::run_step, ms_placing::specs::Placing::opener, ms_rules::specs::Operators::join, ms_rules::specs::Operators::signed))]
pub fn calls()
    ensures unread { run out (caller out (opener out 1)) (declared 1 6 (pair op.Div 5 (num 3 1) (num 9 0) ∷ [])) [] ok 5 [] ≡ ok (at 1) (o.Truth true) 0 [] }
    ensures argument { run out (caller out (opener out 1)) (declared 1 8 (num 3 7 ∷ [])) (known 9 ∷ []) ok 3 [] ≡ ok (at 1) (known 7) 0 [] }
    ensures nested { run out (caller out (opener out 1)) (declared 1 7 []) [] ok 9 [] ≡ bad (f.Big count.Nesting (at 110)) 9 [] }
{}

/// `(let { int: k = 2; } in k) + k`, where `k` is 7 outside; `let { int: k = 2; int: m = k } in m`.
#[tactic(auto, using(ms_code::specs::declared::code::Code::TheFolds::the_lemmas), unfolding(ms_placing::specs::Placing::run_step, ms_placing::specs::Placing::opener, ms_rules::specs::Operators::join, ms_rules::specs::Operators::signed))]
pub fn locals()
    ensures hidden { Places out (known 7 ∷ []) (pair op.Plus 30 (c.Parenthesis (at 1) (c.Let (at 2) (num 17 2 ∷ []) (local 27 0))) (local 32 0)) 6 [] ≡ ok (at 30) (known 9) 0 [] }
    ensures two { Places out [] (c.Let (at 1) (num 16 2 ∷ local 28 0 ∷ []) (local 35 0)) 4 [] ≡ ok (at 1) (known 2) 0 [] }
{}

/// `not (1 div 0 = 1)` is true.
#[tactic(auto, using(ms_code::specs::declared::code::Code::TheFolds::the_lemmas), unfolding(ms_placing::specs::Placing::run_step, ms_placing::specs::Placing::opener, ms_rules::specs::Operators::join, ms_rules::specs::Operators::signed))]
pub fn undefined_parts()
    ensures denied { Places out [] (c.Prefix (at 1) sign.Not (c.Parenthesis (at 5) (pair op.Equal 14 (pair op.Div 8 (num 6 1) (num 12 0)) (num 16 1)))) 7 [] ≡ ok (at 1) (o.Truth true) 0 [] }
{}

/// `w * w * w * w` leaves the limits at its second operator.
#[tactic(auto, using(ms_code::specs::declared::code::Code::TheFolds::the_lemmas), unfolding(ms_placing::specs::Placing::run_step, ms_placing::specs::Placing::opener, ms_rules::specs::Operators::join, ms_rules::specs::Operators::signed))]
pub fn wide_products()
    ensures second { Places out [] (c.Chain (w 1) (then_by op.Times 3 (w 5) ∷ then_by op.Times 7 (w 9) ∷ then_by op.Times 11 (w 13) ∷ [])) 9 [] ≡ bad (f.Wide (at 7)) 4 [] }
{}

/// `d` nests 499 deep and `e` 500: `not d`, `not e`, `[d, 1]` and `[e, 1]`, where the conversion of `e` makes a tree of 501.
#[tactic(auto, using(ms_code::specs::declared::code::Code::TheFolds::the_lemmas), unfolding(ms_placing::specs::Placing::run_step, ms_placing::specs::Placing::opener, ms_rules::specs::Operators::join, ms_rules::specs::Operators::signed, ms_rules::specs::Conversions::convert, ms_rules::specs::Conversions::conversion_nesting))]
pub fn nestings()
    ensures most { Places out [] (c.Prefix (at 1) sign.Not (d 5)) 2 [] ≡ ok (at 1) (o.Condition (denial (deep 499))) 0 [] }
    ensures more { Places out [] (c.Prefix (at 1) sign.Not (e 5)) 2 [] ≡ bad (f.Big count.Nesting (at 1)) 0 [] }
    ensures converted { Places out [] (c.Array (at 1) (Plain scalar.Number Line false) (c.Convert (numbers false) (d 2) ∷ c.Convert (numbers false) (num 5 1) ∷ [])) 3 []
        ≡ ok (at 1) (line (cells.Integers (bit (deep 499) ∷ number_leaf (Some (pos 1)) ∷ []))) 0 [] }
    ensures too_deep { Places out [] (c.Array (at 1) (Plain scalar.Number Line false) (c.Convert (numbers false) (e 2) ∷ c.Convert (numbers false) (num 5 1) ∷ [])) 3 []
        ≡ bad (f.Big count.Nesting (at 2)) 2 [] }
{}
