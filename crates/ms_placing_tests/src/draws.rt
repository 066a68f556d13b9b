//! Random words.

ghost use Rattle.std.specs.Prelude.{◌≡◌, [], ◌∷◌, pos, true, Some, None};
ghost use Rattle.ms_built_ins.specs.declared.names.BuiltIn.TheVariants as built_in;
ghost use Rattle.ms_typing.specs.Conversion.{truths};
ghost use Rattle.ms_typing.specs.declared.types.ExprType.TheVariants.{Plain};
ghost use Rattle.ms_typing.specs.declared.types.Scalar.TheVariants as scalar;
ghost use Rattle.ms_typing.specs.declared.types.Shape.TheVariants.{Line};
ghost use Rattle.ms_code.specs.Code.{arm, generators};
ghost use Rattle.ms_code.specs.declared.code.Code.TheVariants as c;
ghost use Rattle.ms_values.specs.declared.operand.Cells.TheVariants as cells;
ghost use Rattle.ms_placing.specs.Placing.{Places};
ghost use Rattle.ms_placing.specs.Steps.{ok};
ghost use Rattle.ms_placing_tests.specs.Sample.{at, calls, known, line, num, one_to_two, out, over};

/// `if true then 1 else uniform(1, 2) endif` takes no word; `[uniform(1, 9) | i in 1..2]` takes two, in ascending order of `i`.
#[tactic(auto, using(ms_code::specs::declared::code::Code::TheFolds::the_lemmas), unfolding(ms_placing::specs::Placing::run_step, ms_placing::specs::Placing::opener, ms_rules::specs::Operators::join, ms_rules::specs::Calls::call))]
pub fn words()
    ensures untaken { Places out [] (c.If (at 1) (arm (truths true) (c.Truth (at 4) true) (num 14 1) ∷ []) (calls 21 built_in.Uniform (num 29 1 ∷ num 32 2 ∷ []))) 3 (3 ∷ 5 ∷ [])
        ≡ ok (at 1) (known 1) 0 (3 ∷ 5 ∷ []) }
    ensures ascending { Places out [] (c.Comprehension (at 1) (Plain scalar.Number Line true) (generators (over 18 1 (one_to_two 23 24 26) ∷ []) None) (calls 2 built_in.Uniform (num 10 1 ∷ num 13 9 ∷ []))) 12 (3 ∷ 5 ∷ 7 ∷ [])
        ≡ ok (at 1) (line (cells.Numbers (Some (pos 4) ∷ Some (pos 6) ∷ []))) 0 (7 ∷ []) }
{}
