//! Expressions of searches, output items and data.

ghost use Rattle.std.specs.Prelude.{◌≡◌, [], ◌∷◌, true, false, codes};
ghost use Rattle.ms_syntax.specs.Tree as t;
ghost use Rattle.ms_syntax.specs.Tree.{no_exs, no_gens, absent, present};
ghost use Rattle.ms_syntax.specs.declared.tree.Operator.TheVariants as o;
ghost use Rattle.ms_typing.specs.Conversion.{numbers, truths};
ghost use Rattle.ms_typing.specs.Least.{has};
ghost use Rattle.ms_typing.specs.declared.types.Cause.TheVariants as cause;
ghost use Rattle.ms_typing.specs.declared.types.ExprType.TheVariants.{Plain, Search, Set, Text};
ghost use Rattle.ms_typing.specs.declared.types.Scalar.TheVariants.{Number};
ghost use Rattle.ms_typing.specs.declared.types.Shape.TheVariants.{Line, Single};
ghost use Rattle.ms_typing.specs.declared.types.Surroundings.TheVariants.{Called, Data};
ghost use Rattle.ms_typing_tests.specs.Sample as s;
ghost use Rattle.ms_typing_tests.specs.Sample.{at, in_model, in_output, in_search, is_fault, num, one, op, quoted, two, typed_in, word, yes};

/// `next()`, `next`, `break`, `break()`, `break(1)`, `c /\ next()`, `b /\ next()`,
/// `x > 1 /\ next() /\ skip`, `if next() then skip else c endif`, `sol(x)`, `keep(a)`, `keep(g)`,
/// `print("u")`, `r(next())`, `repeat(i in s)(next())`, with a condition, and
/// `scope(i in s)(next())`.
pub fn typed_searches()
    ensures next { in_search (s.calls 1 (codes "next") no_exs) ≡ has Search }
    ensures bare { in_search (word 1 (codes "next")) ≡ is_fault cause.Mismatch 1 }
    ensures leave { in_search (word 1 (codes "break")) ≡ has Search }
    ensures brackets { in_search (s.calls 1 (codes "break") no_exs) ≡ is_fault cause.Mismatch 1 }
    ensures argument { in_search (s.calls 1 (codes "break") (one (num 7 1))) ≡ is_fault cause.Arity 1 }
    ensures known { in_search (op o.And 3 (word 1 (codes "c")) (s.calls 6 (codes "next") no_exs)) ≡ has Search }
    ensures bools { in_search (op o.And 3 (word 1 (codes "c")) (word 6 (codes "c"))) ≡ has (truths true) }
    ensures variable { in_search (op o.And 3 (word 1 (codes "b")) (s.calls 6 (codes "next") no_exs))
        ≡ is_fault cause.NotKnown 3 }
    ensures first_pair { in_search (s.op_op o.And 7 17 (op o.Greater 3 (word 1 (codes "x")) (num 5 1)) (s.calls 10 (codes "next") no_exs) (word 20 (codes "skip")))
        ≡ is_fault cause.NotKnown 7 }
    ensures choice { in_search (s.choose (s.calls 4 (codes "next") no_exs) (word 16 (codes "skip")) (word 26 (codes "c"))) ≡ has Search }
    ensures incumbent { in_search (s.calls 1 (codes "sol") (one (word 5 (codes "x")))) ≡ has (numbers true) }
    ensures kept { in_search (s.calls 1 (codes "keep") (one (word 6 (codes "a")))) ≡ has Search }
    ensures kept_grid { in_search (s.calls 1 (codes "keep") (one (word 6 (codes "g")))) ≡ is_fault cause.Mismatch 1 }
    ensures printed { in_search (s.calls 1 (codes "print") (one (quoted 7))) ≡ has Search }
    ensures library { in_search (s.calls 1 (codes "r") (one (s.calls 3 (codes "next") no_exs))) ≡ has Search }
    ensures repeated { in_search (t.generator_call (at 1) (codes "repeat") (s.over 8 (word 13 (codes "s"))) absent (s.calls 16 (codes "next") no_exs))
        ≡ has Search }
    ensures repeated_where { in_search (t.generator_call (at 1) (codes "repeat") (s.over 8 (word 13 (codes "s"))) (present (yes 21)) (s.calls 27 (codes "next") no_exs))
        ≡ is_fault cause.Mismatch 1 }
    ensures scoped { in_search (t.generator_call (at 1) (codes "scope") (s.over 7 (word 12 (codes "s"))) absent (s.calls 15 (codes "next") no_exs))
        ≡ is_fault cause.Mismatch 1 }
{}

/// In a model: `next()`, `next(1)`, `sol(x)`, `fix(x)`, `q(x)`, `break`, and an unknown name over
/// an array of searches. In a search: `fix(x)`.
pub fn names_out_of_place()
    ensures step { in_model (s.calls 1 (codes "next") no_exs) ≡ is_fault cause.Mismatch 1 }
    ensures number_first { in_model (s.calls 1 (codes "next") (one (num 6 1))) ≡ is_fault cause.Arity 1 }
    ensures incumbent { in_model (s.calls 1 (codes "sol") (one (word 5 (codes "x")))) ≡ is_fault cause.Mismatch 1 }
    ensures fixed { in_model (s.calls 1 (codes "fix") (one (word 5 (codes "x")))) ≡ is_fault cause.Mismatch 1 }
    ensures search { in_model (s.calls 1 (codes "q") (one (word 3 (codes "x")))) ≡ is_fault cause.Mismatch 1 }
    ensures leave { in_model (word 1 (codes "break")) ≡ is_fault cause.Mismatch 1 }
    ensures unknown_over { in_search (t.generator_call (at 1) (codes "y") (s.over 3 (word 8 (codes "s"))) absent (s.calls 11 (codes "next") no_exs))
        ≡ is_fault cause.Unknown 1 }
    ensures fixed_in_search { in_search (s.calls 1 (codes "fix") (one (word 5 (codes "x")))) ≡ is_fault cause.Mismatch 1 }
{}

/// In an output item: `x`, `if b then "u" else t endif`, `fix(x)`, `sol(x)`, `show(a)`, `f(x)`.
/// In a body that it calls: `x`, `fix(x)`. In data: `n`, `array1d({1}, [1])`, `[1 | i in {1}]`.
pub fn outputs_and_data()
    ensures known { in_output (word 1 (codes "x")) ≡ has (numbers true) }
    ensures choice { in_output (s.choose (word 4 (codes "b")) (quoted 11) (word 20 (codes "t"))) ≡ has (Text Single) }
    ensures fixed { in_output (s.calls 1 (codes "fix") (one (word 5 (codes "x")))) ≡ has (numbers true) }
    ensures incumbent { in_output (s.calls 1 (codes "sol") (one (word 5 (codes "x")))) ≡ is_fault cause.Mismatch 1 }
    ensures shown { in_output (s.calls 1 (codes "show") (one (word 6 (codes "a")))) ≡ has (Text Single) }
    ensures call { in_output (s.calls 1 (codes "f") (one (word 3 (codes "x")))) ≡ has (numbers true) }
    ensures called { typed_in Called (word 1 (codes "x")) ≡ has (numbers true) }
    ensures called_fixed { typed_in Called (s.calls 1 (codes "fix") (one (word 5 (codes "x")))) ≡ is_fault cause.Mismatch 1 }
    ensures data_name { typed_in Data (word 1 (codes "n")) ≡ is_fault cause.Mismatch 1 }
    ensures data_array { typed_in Data (s.calls 1 (codes "array1d") (two (t.set (at 9) (one (num 10 1))) (s.list 14 (one (num 15 1)))))
        ≡ has (Plain Number Line true) }
    ensures data_generator { typed_in Data (t.comprehension (at 1) (num 2 1) (s.over 6 (t.set (at 11) (one (num 12 1)))) absent)
        ≡ is_fault cause.Mismatch 1 }
{}
