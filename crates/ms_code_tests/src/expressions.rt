//! Expressions of a model and of an output item.

ghost use Rattle.std.specs.Prelude.{◌≡◌, [], ◌∷◌, true, false, codes};
ghost use Rattle.ms_syntax.specs.Tree as t;
ghost use Rattle.ms_syntax.specs.Tree.{no_exs, absent};
ghost use Rattle.ms_syntax.specs.declared.tree.Operator.TheVariants as o;
ghost use Rattle.ms_built_ins.specs.declared.names.BuiltIn.TheVariants as b;
ghost use Rattle.ms_typing.specs.Conversion.{numbers, truths};
ghost use Rattle.ms_typing.specs.declared.types.ExprType.TheVariants.{Plain};
ghost use Rattle.ms_typing.specs.declared.types.Scalar.TheVariants.{Empty, Number, Truth};
ghost use Rattle.ms_typing.specs.declared.types.Shape.TheVariants.{Line};
ghost use Rattle.ms_typing_tests.specs.Sample as s;
ghost use Rattle.ms_typing_tests.specs.Sample.{at, one, op, two, word, yes};
ghost use Rattle.ms_code.specs.Code.{arm};
ghost use Rattle.ms_code.specs.declared.code.Code.TheVariants as c;
ghost use Rattle.ms_code_tests.specs.Made as m;
ghost use Rattle.ms_code_tests.specs.Made.{in_model, in_output, named, num, then_by};

/// `x`; `i` under `[i | i in s]`; `f(1)`, which is the model's; `1 + x + n`, one node.
pub fn names()
    ensures global { in_model (word 1 (codes "x")) ≡ named 1 6 }
    ensures inner { in_model (t.comprehension (at 1) (word 2 (codes "i")) (s.over 6 (word 11 (codes "s"))) absent)
        ≡ c.Comprehension (at 1) (Plain Number Line true) (m.over_s 6 11) (m.local 2 0) }
    ensures function { in_model (s.calls 1 (codes "f") (one (s.num 3 1))) ≡ m.declared 1 10 (num 3 1 ∷ []) }
    ensures chain { in_model (s.op_op o.Plus 3 7 (s.num 1 1) (word 5 (codes "x")) (word 9 (codes "n")))
        ≡ c.Chain (num 1 1) (then_by o.Plus 3 (named 5 6) ∷ then_by o.Plus 7 (named 9 0) ∷ []) }
{}

/// `[]`, `[x, true]`, `p(n)`, `k ++ a`, `x > b` without a conversion, `let { var int: y = c } in y`.
pub fn conversions()
    ensures nothing { in_model (s.list 1 no_exs) ≡ c.Array (at 1) (Plain Empty Line true) [] }
    ensures elements { in_model (s.list 1 (two (word 2 (codes "x")) (yes 5)))
        ≡ c.Array (at 1) (Plain Number Line false) (named 2 6 ∷ c.Convert (numbers false) (c.Truth (at 5) true) ∷ []) }
    ensures argument { in_model (s.calls 1 (codes "p") (one (word 3 (codes "n")))) ≡ m.declared 1 11 (c.Convert (numbers false) (named 3 0) ∷ []) }
    ensures joined { in_model (s.concat 3 (word 1 (codes "k")) (word 6 (codes "a")))
        ≡ c.Chain (c.Convert (Plain Number Line false) (named 1 2)) (then_by o.Concat 3 (named 6 8) ∷ []) }
    ensures operands { in_model (op o.Greater 3 (word 1 (codes "x")) (word 5 (codes "b")))
        ≡ c.Chain (named 1 6) (then_by o.Greater 3 (named 5 7) ∷ []) }
    ensures local { in_model (s.let_one (s.variable t.of_int) (t.present (word 20 (codes "c"))) (word 27 (codes "y")))
        ≡ c.Let (at 1) (c.Convert (numbers false) (named 20 1) ∷ []) (m.local 27 0) }
{}

/// `if c then x else true endif`, `if b then 1 else c endif`, and the latter in an output item.
pub fn choices()
    ensures known { in_model (s.choose (word 4 (codes "c")) (word 11 (codes "x")) (yes 18))
        ≡ c.If (at 1) (arm (truths true) (named 4 1) (named 11 6) ∷ []) (c.Convert (numbers false) (c.Truth (at 18) true)) }
    ensures variable { in_model (s.choose (word 4 (codes "b")) (s.num 11 1) (word 18 (codes "c")))
        ≡ c.If (at 1) (arm (truths false) (named 4 7) (c.Convert (numbers false) (num 11 1)) ∷ []) (c.Convert (numbers false) (named 18 1)) }
    ensures shown { in_output (s.choose (word 4 (codes "b")) (s.num 11 1) (word 18 (codes "c")))
        ≡ c.If (at 1) (arm (truths true) (named 4 7) (num 11 1) ∷ []) (c.Convert (numbers true) (named 18 1)) }
{}

/// `forall(i in s)(b)`.
pub fn gathered_arrays()
    ensures all { in_model (t.generator_call (at 1) (codes "forall") (s.over 8 (word 13 (codes "s"))) absent (word 16 (codes "b")))
        ≡ m.calls 1 b.ForAll (c.Gathered (at 1) (Plain Truth Line false) (m.over_s 8 13) (named 16 7) ∷ []) }
{}
