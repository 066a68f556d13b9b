//! Evaluation steps, each at its limit and one below.

ghost use Rattle.std.specs.Prelude.{◌≡◌, [], ◌∷◌, pos, true, false, codes, Some, None};
ghost use Rattle.ms_base.specs.declared.run.Count.TheVariants as count;
ghost use Rattle.ms_syntax.specs.declared.tree.Operator.TheVariants as op;
ghost use Rattle.ms_syntax.specs.declared.tree.Sign.TheVariants as sign;
ghost use Rattle.ms_built_ins.specs.declared.names.BuiltIn.TheVariants as built_in;
ghost use Rattle.ms_typing.specs.declared.types.ExprType.TheVariants.{Plain};
ghost use Rattle.ms_typing.specs.declared.types.Scalar.TheVariants as scalar;
ghost use Rattle.ms_typing.specs.declared.types.Shape.TheVariants.{Line};
ghost use Rattle.ms_code.specs.Code.{generators};
ghost use Rattle.ms_code.specs.declared.code.Code.TheVariants as c;
ghost use Rattle.ms_values.specs.declared.operand.Kind.TheVariants as k;
ghost use Rattle.ms_values.specs.declared.operand.Cells.TheVariants as cells;
ghost use Rattle.ms_values.specs.declared.operand.Operand.TheVariants as o;
ghost use Rattle.ms_placing.specs.Placing.{Places};
ghost use Rattle.ms_placing.specs.Steps.{ok, bad};
ghost use Rattle.ms_placing.specs.declared.fault.PlaceFault.TheVariants as f;
ghost use Rattle.ms_placing_tests.specs.Sample.{at, calls, known, line, local, num, one_to_two, out, over, pair, then_by};

/// `7`; `1 + 2`.
#[tactic(auto, using(ms_code::specs::declared::code::Code::TheFolds::the_lemmas), unfolding(ms_placing::specs::Placing::run_step, ms_placing::specs::Placing::opener, ms_rules::specs::Operators::join, ms_rules::specs::Operators::signed, ms_rules::specs::Calls::call))]
pub fn sums()
    ensures number { Places out [] (num 1 7) 1 [] ≡ ok (at 1) (known 7) 0 [] }
    ensures no_step { Places out [] (num 1 7) 0 [] ≡ bad (f.Big count.Steps (at 1)) 0 [] }
    ensures sum { Places out [] (pair op.Plus 3 (num 1 1) (num 5 2)) 3 [] ≡ ok (at 3) (known 3) 0 [] }
    ensures short { Places out [] (pair op.Plus 3 (num 1 1) (num 5 2)) 2 [] ≡ bad (f.Big count.Steps (at 3)) 0 [] }
{}

/// `"a" ++ "b" ++ "c"`: the operands, and then the operators from the right.
#[tactic(auto, using(ms_code::specs::declared::code::Code::TheFolds::the_lemmas), unfolding(ms_placing::specs::Placing::run_step, ms_placing::specs::Placing::opener, ms_rules::specs::Operators::join, ms_rules::specs::Operators::signed, ms_rules::specs::Calls::call))]
pub fn texts()
    ensures whole { Places out [] (c.Chain (c.Text (at 1) (codes "a")) (then_by op.Concat 5 (c.Text (at 8) (codes "b")) ∷ then_by op.Concat 12 (c.Text (at 15) (codes "c")) ∷ [])) 5 []
        ≡ ok (at 5) (o.Text (Some (codes "abc"))) 0 [] }
    ensures first { Places out [] (c.Chain (c.Text (at 1) (codes "a")) (then_by op.Concat 5 (c.Text (at 8) (codes "b")) ∷ then_by op.Concat 12 (c.Text (at 15) (codes "c")) ∷ [])) 4 []
        ≡ bad (f.Big count.Steps (at 5)) 0 [] }
    ensures second { Places out [] (c.Chain (c.Text (at 1) (codes "a")) (then_by op.Concat 5 (c.Text (at 8) (codes "b")) ∷ then_by op.Concat 12 (c.Text (at 15) (codes "c")) ∷ [])) 3 []
        ≡ bad (f.Big count.Steps (at 12)) 0 [] }
{}

/// `[0 | i, j in 1..2]`; `forall(i in 1..2, j in 1..2 where i < 0)(true)`; `[i | i in 1..2, j in 1..(1 div 0)]`, which has no value and
/// goes through all values of `i`.
#[tactic(auto, using(ms_code::specs::declared::code::Code::TheFolds::the_lemmas), unfolding(ms_placing::specs::Placing::run_step, ms_placing::specs::Placing::opener, ms_rules::specs::Operators::join, ms_rules::specs::Operators::signed, ms_rules::specs::Calls::call))]
pub fn generated_arrays()
    ensures names { Places out [] (c.Comprehension (at 1) (Plain scalar.Number Line true) (generators (over 6 2 (one_to_two 14 15 17) ∷ []) None) (num 2 0)) 14 []
        ≡ ok (at 1) (line (cells.Numbers (Some (pos 0) ∷ Some (pos 0) ∷ Some (pos 0) ∷ Some (pos 0) ∷ []))) 0 [] }
    ensures short { Places out [] (c.Comprehension (at 1) (Plain scalar.Number Line true) (generators (over 6 2 (one_to_two 14 15 17) ∷ []) None) (num 2 0)) 13 []
        ≡ bad (f.Big count.Steps (at 1)) 0 [] }
    ensures turn { Places out [] (c.Comprehension (at 1) (Plain scalar.Number Line true) (generators (over 6 2 (one_to_two 14 15 17) ∷ []) None) (num 2 0)) 4 []
        ≡ bad (f.Big count.Steps (at 6)) 0 [] }
    ensures tested { Places out [] (calls 1 built_in.ForAll (c.Gathered (at 1) (Plain scalar.Truth Line true)
        (generators (over 8 1 (one_to_two 13 14 16) ∷ over 19 1 (one_to_two 24 25 27) ∷ []) (Some (pair op.Less 37 (local 35 1) (num 39 0)))) (c.Truth (at 42) true) ∷ [])) 28 []
        ≡ ok (at 1) (o.Truth true) 0 [] }
    ensures undefined { Places out [] (c.Comprehension (at 1) (Plain scalar.Number Line true)
        (generators (over 6 1 (one_to_two 11 12 14) ∷ over 17 1 (pair op.To 23 (num 22 1) (c.Parenthesis (at 25) (pair op.Div 28 (num 26 1) (num 32 0)))) ∷ []) None) (local 2 1)) 18 []
        ≡ ok (at 1) (o.NoArray k.Number) 0 [] }
{}
