//! Expressions of a search.

ghost use Rattle.std.specs.Prelude.{◌≡◌, [], ◌∷◌, true, false, codes};
ghost use Rattle.ms_syntax.specs.Tree as t;
ghost use Rattle.ms_syntax.specs.Tree.{no_exs, absent};
ghost use Rattle.ms_syntax.specs.declared.tree.Operator.TheVariants as o;
ghost use Rattle.ms_built_ins.specs.declared.names.BuiltIn.TheVariants as b;
ghost use Rattle.ms_typing.specs.Conversion.{truths};
ghost use Rattle.ms_typing.specs.declared.types.ExprType.TheVariants.{Plain, Search};
ghost use Rattle.ms_typing.specs.declared.types.Scalar.TheVariants.{Number};
ghost use Rattle.ms_typing.specs.declared.types.Shape.TheVariants.{Line};
ghost use Rattle.ms_typing_tests.specs.Sample as s;
ghost use Rattle.ms_typing_tests.specs.Sample.{at, one, op, word, yes};
ghost use Rattle.ms_code.specs.declared.code.Code.TheVariants as c;
ghost use Rattle.ms_code_tests.specs.Made as m;
ghost use Rattle.ms_code_tests.specs.Made.{in_search, named, num, then_by};

/// `c /\ next()`; `c /\ c`, which is a bool; `true xor false \/ next()`.
pub fn searches_in_chains()
    ensures mixed { in_search (op o.And 3 (word 1 (codes "c")) (s.calls 6 (codes "next") no_exs))
        ≡ c.Chain (c.Convert Search (named 1 1)) (then_by o.And 3 (m.calls 6 b.Next []) ∷ []) }
    ensures bools { in_search (op o.And 3 (word 1 (codes "c")) (word 6 (codes "c")))
        ≡ c.Chain (named 1 1) (then_by o.And 3 (named 6 1) ∷ []) }
    ensures behind_xor { in_search (t.chain t.of_disjunction (yes 1) (t.link o.Xor (at 6) (yes 10) (t.link o.Or (at 16) (s.calls 19 (codes "next") no_exs) t.no_links)))
        ≡ c.Chain (c.Convert Search (c.Chain (c.Truth (at 1) true) (then_by o.Xor 6 (c.Truth (at 10) true) ∷ []))) (then_by o.Or 16 (m.calls 19 b.Next []) ∷ []) }
{}

/// `post(c)`, `keep(k)`, `scope(c)`, `repeat(i in s)(next())`, `keep(i in s)(x)`.
pub fn searches_with_arguments()
    ensures posted { in_search (s.calls 1 (codes "post") (one (word 6 (codes "c")))) ≡ m.calls 1 b.Post (c.Convert (truths false) (named 6 1) ∷ []) }
    ensures kept { in_search (s.calls 1 (codes "keep") (one (word 6 (codes "k"))))
        ≡ m.calls 1 b.Keep (c.Convert (Plain Number Line false) (named 6 2) ∷ []) }
    ensures scoped { in_search (s.calls 1 (codes "scope") (one (word 7 (codes "c")))) ≡ m.calls 1 b.Scope (c.Convert Search (named 7 1) ∷ []) }
    ensures repeated { in_search (t.generator_call (at 1) (codes "repeat") (s.over 8 (word 13 (codes "s"))) absent (s.calls 16 (codes "next") no_exs))
        ≡ c.RepeatEach (at 1) (m.over_s 8 13) (m.calls 16 b.Next []) }
    ensures gathered { in_search (t.generator_call (at 1) (codes "keep") (s.over 6 (word 11 (codes "s"))) absent (word 14 (codes "x")))
        ≡ m.calls 1 b.Keep (c.Gathered (at 1) (Plain Number Line false) (m.over_s 6 11) (named 14 6) ∷ []) }
{}
