//! Expressions of a model.

ghost use Rattle.std.specs.Prelude.{◌≡◌, [], ◌∷◌, true, false, codes};
ghost use Rattle.ms_syntax.specs.Tree as t;
ghost use Rattle.ms_syntax.specs.Tree.{no_arms, no_exs, no_gens, no_rows, absent, present};
ghost use Rattle.ms_syntax.specs.declared.tree.Operator.TheVariants as o;
ghost use Rattle.ms_syntax.specs.declared.tree.Sign.TheVariants as sign;
ghost use Rattle.ms_typing.specs.Conversion.{numbers, truths};
ghost use Rattle.ms_typing.specs.Least.{has};
ghost use Rattle.ms_typing.specs.declared.types.Cause.TheVariants as cause;
ghost use Rattle.ms_typing.specs.declared.types.ExprType.TheVariants.{Plain, Search, Set, Text};
ghost use Rattle.ms_typing.specs.declared.types.Scalar.TheVariants.{Empty, Number, Truth};
ghost use Rattle.ms_typing.specs.declared.types.Shape.TheVariants.{Grid, Line, Single};
ghost use Rattle.ms_typing_tests.specs.Sample as s;
ghost use Rattle.ms_typing_tests.specs.Sample.{at, in_model, is_fault, num, one, op, quoted, two, word, yes};

/// `[1, true]`, `[x, 1]`, `[]`, `["u", 1]`, `[s]`, `[| |]`, `[|1, 2|3|]`, `{1, c}`, `{x}`.
pub fn literals_of_arrays()
    ensures joined { in_model (s.list 1 (two (num 2 1) (yes 5))) ≡ has (Plain Number Line true) }
    ensures variable { in_model (s.list 1 (two (word 2 (codes "x")) (num 5 1)))
        ≡ has (Plain Number Line false) }
    ensures empty { in_model (s.list 1 no_exs) ≡ has (Plain Empty Line true) }
    ensures mixed { in_model (s.list 1 (two (quoted 2) (num 7 1))) ≡ is_fault cause.Mismatch 1 }
    ensures of_sets { in_model (s.list 1 (one (word 2 (codes "s")))) ≡ is_fault cause.Mismatch 1 }
    ensures no_grid { in_model (t.rows (at 1) no_rows) ≡ has (Plain Empty Grid true) }
    ensures uneven { in_model (t.rows (at 1) (t.row (two (num 3 1) (num 6 2)) (t.row (one (num 8 3)) no_rows)))
        ≡ is_fault cause.Mismatch 1 }
    ensures set { in_model (t.set (at 1) (two (num 2 1) (word 5 (codes "c")))) ≡ has Set }
    ensures variable_set { in_model (t.set (at 1) (one (word 2 (codes "x"))))
        ≡ is_fault cause.NotKnown 1 }
{}

/// `not 3`, `-c`, `n < 1`, `x < n`, `x .. n`, `c = b`, `s = s`, `k = k`, `x in s`, `"u" ++ t`,
/// `[] ++ k`, `g ++ g`, `1 /\ true /\ true`.
pub fn operators()
    ensures not { in_model (t.prefix (at 1) sign.Not (num 5 3)) ≡ is_fault cause.Mismatch 1 }
    ensures minus { in_model (t.prefix (at 1) sign.Minus (word 2 (codes "c"))) ≡ has (numbers true) }
    ensures known { in_model (op o.Less 3 (word 1 (codes "n")) (num 5 1)) ≡ has (truths true) }
    ensures variable { in_model (op o.Less 3 (word 1 (codes "x")) (word 5 (codes "n")))
        ≡ has (truths false) }
    ensures range { in_model (op o.To 3 (word 1 (codes "x")) (word 6 (codes "n")))
        ≡ is_fault cause.NotKnown 3 }
    ensures bools { in_model (op o.Equal 3 (word 1 (codes "c")) (word 5 (codes "b")))
        ≡ has (truths false) }
    ensures sets { in_model (op o.Equal 3 (word 1 (codes "s")) (word 5 (codes "s")))
        ≡ has (truths true) }
    ensures arrays { in_model (op o.Equal 3 (word 1 (codes "k")) (word 5 (codes "k")))
        ≡ is_fault cause.Mismatch 3 }
    ensures member { in_model (op o.In 3 (word 1 (codes "x")) (word 6 (codes "s")))
        ≡ has (truths false) }
    ensures texts { in_model (s.concat 5 (quoted 1) (word 8 (codes "t"))) ≡ has (Text Single) }
    ensures lists { in_model (s.concat 4 (s.list 1 no_exs) (word 7 (codes "k")))
        ≡ has (Plain Number Line true) }
    ensures grids { in_model (s.concat 3 (word 1 (codes "g")) (word 6 (codes "g")))
        ≡ is_fault cause.Mismatch 3 }
    ensures chain { in_model (s.op_op o.And 3 11 (num 1 1) (yes 6) (yes 14))
        ≡ is_fault cause.Mismatch 3 }
{}

/// `a[n]`, `k[x]`, `k[1]`, `w[1]`, `w[x]`, `[][1]`, `g[1, n]`, `x[1]`, `[1, 2][1, 2]`, `g[1]`,
/// `a["u"]`.
pub fn accesses_of_arrays()
    ensures elements { in_model (s.index 1 (word 1 (codes "a")) (word 3 (codes "n")))
        ≡ has (numbers false) }
    ensures variable_index { in_model (s.index 1 (word 1 (codes "k")) (word 3 (codes "x")))
        ≡ has (numbers false) }
    ensures known { in_model (s.index 1 (word 1 (codes "k")) (num 3 1)) ≡ has (numbers true) }
    ensures text { in_model (s.index 1 (word 1 (codes "w")) (num 3 1)) ≡ has (Text Single) }
    ensures variable_text { in_model (s.index 1 (word 1 (codes "w")) (word 3 (codes "x")))
        ≡ is_fault cause.NotKnown 1 }
    ensures of_none { in_model (s.index 1 (s.list 1 no_exs) (num 4 1))
        ≡ has (Plain Empty Single true) }
    ensures grid { in_model (s.index_two 1 (word 1 (codes "g")) (num 3 1) (word 6 (codes "n")))
        ≡ has (numbers false) }
    ensures no_array { in_model (s.index 1 (word 1 (codes "x")) (num 3 1))
        ≡ is_fault cause.Mismatch 1 }
    ensures too_many { in_model (s.index_two 1 (s.list 1 (two (num 2 1) (num 5 2))) (num 8 1) (num 11 2))
        ≡ is_fault cause.Arity 1 }
    ensures too_few { in_model (s.index 1 (word 1 (codes "g")) (num 3 1)) ≡ is_fault cause.Arity 1 }
    ensures no_number { in_model (s.index 1 (word 1 (codes "a")) (quoted 3))
        ≡ is_fault cause.Mismatch 1 }
{}

/// `if` with the condition, the branch and the last branch that stand here, and one with an
/// `elseif` whose condition alone is variable.
pub fn choices()
    ensures known { in_model (s.choose (word 4 (codes "c")) (num 11 1) (yes 18))
        ≡ has (numbers true) }
    ensures variable { in_model (s.choose (word 4 (codes "b")) (num 11 1) (yes 18))
        ≡ has (numbers false) }
    ensures texts { in_model (s.choose (word 4 (codes "c")) (quoted 11) (word 20 (codes "t")))
        ≡ has (Text Single) }
    ensures variable_texts { in_model (s.choose (word 4 (codes "b")) (quoted 11) (word 20 (codes "t")))
        ≡ is_fault cause.NotKnown 1 }
    ensures no_condition { in_model (s.choose (num 4 1) (num 11 1) (num 18 2))
        ≡ is_fault cause.Mismatch 1 }
    ensures unlike { in_model (s.choose (word 4 (codes "c")) (quoted 11) (num 20 2))
        ≡ is_fault cause.Mismatch 1 }
    ensures further { in_model (t.if_else (at 1) (word 4 (codes "c")) (num 11 1)
        (t.arm (word 20 (codes "b")) (yes 27) no_arms) (num 37 2)) ≡ has (numbers false) }
{}

/// `[i | i in s]`, `[x | i in s]`, `[i | i in 3]`, `[i | i in s where b]`, `[y | i in z]`,
/// `[j | i, j in i]`, `sum(i in z)(y)`, `sum(i in s)(c)`, `abs(i in s)(i)`, `count(i in s)(i)`.
pub fn comprehensions()
    ensures known { in_model (t.comprehension (at 1) (word 2 (codes "i")) (s.over 6 (word 11 (codes "s"))) absent)
        ≡ has (Plain Number Line true) }
    ensures variable { in_model (t.comprehension (at 1) (word 2 (codes "x")) (s.over 6 (word 11 (codes "s"))) absent)
        ≡ has (Plain Number Line false) }
    ensures no_set { in_model (t.comprehension (at 1) (word 2 (codes "i")) (s.over 6 (num 11 3)) absent)
        ≡ is_fault cause.Mismatch 1 }
    ensures condition { in_model (t.comprehension (at 1) (word 2 (codes "i")) (s.over 6 (word 11 (codes "s"))) (present (word 19 (codes "b"))))
        ≡ is_fault cause.NotKnown 1 }
    ensures body_first { in_model (t.comprehension (at 1) (word 2 (codes "y")) (s.over 6 (word 11 (codes "z"))) absent)
        ≡ is_fault cause.Unknown 2 }
    ensures names_of_one_set { in_model (t.comprehension (at 1) (word 2 (codes "j"))
        (t.gen ((at 6, codes "i") ∷ (at 9, codes "j") ∷ []) (word 14 (codes "i")) no_gens) absent)
        ≡ is_fault cause.Unknown 14 }
    ensures names_of_later_sets { in_model (t.comprehension (at 1) (word 2 (codes "j"))
        (t.gen ((at 6, codes "i") ∷ []) (word 11 (codes "s")) (t.gen ((at 14, codes "j") ∷ []) (op o.To 20 (num 19 1) (word 22 (codes "i"))) no_gens)) absent)
        ≡ has (Plain Number Line true) }
    ensures generators_first { in_model (t.generator_call (at 1) (codes "sum") (s.over 5 (word 10 (codes "z"))) absent (word 13 (codes "y")))
        ≡ is_fault cause.Unknown 10 }
    ensures call { in_model (t.generator_call (at 1) (codes "sum") (s.over 5 (word 10 (codes "s"))) absent (word 13 (codes "c")))
        ≡ has (numbers true) }
    ensures no_array { in_model (t.generator_call (at 1) (codes "abs") (s.over 5 (word 10 (codes "s"))) absent (word 13 (codes "i")))
        ≡ is_fault cause.Mismatch 1 }
    ensures one_argument { in_model (t.generator_call (at 1) (codes "count") (s.over 7 (word 12 (codes "s"))) absent (word 15 (codes "i")))
        ≡ is_fault cause.Arity 1 }
{}

/// `y`, `sum`, `sum(a)`, `length(a)`, `min(1, x)`, `min(k)`, `min()`, `x(1)`, `y(1)`, `f(n)`,
/// `f(x)`, `f(1, 2)`, `f`, `p(c)`, `show(x)`, `table(a, g)`.
pub fn calls_of_functions()
    ensures unknown { in_model (word 1 (codes "y")) ≡ is_fault cause.Unknown 1 }
    ensures bare { in_model (word 1 (codes "sum")) ≡ is_fault cause.Mismatch 1 }
    ensures sum { in_model (s.calls 1 (codes "sum") (one (word 5 (codes "a")))) ≡ has (numbers false) }
    ensures length { in_model (s.calls 1 (codes "length") (one (word 8 (codes "a")))) ≡ has (numbers true) }
    ensures least { in_model (s.calls 1 (codes "min") (two (num 5 1) (word 8 (codes "x")))) ≡ has (numbers false) }
    ensures least_of { in_model (s.calls 1 (codes "min") (one (word 5 (codes "k")))) ≡ has (numbers true) }
    ensures least_of_none { in_model (s.calls 1 (codes "min") no_exs) ≡ is_fault cause.Arity 1 }
    ensures no_function { in_model (s.calls 1 (codes "x") (one (num 3 1))) ≡ is_fault cause.Mismatch 1 }
    ensures nothing { in_model (s.calls 1 (codes "y") (one (num 3 1))) ≡ is_fault cause.Unknown 1 }
    ensures of_model { in_model (s.calls 1 (codes "f") (one (word 3 (codes "n")))) ≡ has (numbers true) }
    ensures not_known { in_model (s.calls 1 (codes "f") (one (word 3 (codes "x")))) ≡ is_fault cause.NotKnown 1 }
    ensures number { in_model (s.calls 1 (codes "f") (two (num 3 1) (num 6 2))) ≡ is_fault cause.Arity 1 }
    ensures bare_function { in_model (word 1 (codes "f")) ≡ is_fault cause.Mismatch 1 }
    ensures predicate { in_model (s.calls 1 (codes "p") (one (word 3 (codes "c")))) ≡ has (truths false) }
    ensures shown { in_model (s.calls 1 (codes "show") (one (word 6 (codes "x")))) ≡ is_fault cause.NotKnown 1 }
    ensures table { in_model (s.calls 1 (codes "table") (two (word 7 (codes "a")) (word 10 (codes "g")))) ≡ is_fault cause.NotKnown 1 }
{}

/// `let { int: y = n } in y`, with a variable value, with the local's own name, without a value,
/// and with a range.
pub fn locals()
    ensures body { in_model (s.let_one (s.plain t.of_int) (present (word 16 (codes "n"))) (word 23 (codes "y")))
        ≡ has (numbers true) }
    ensures variable { in_model (s.let_one (s.plain t.of_int) (present (word 16 (codes "x"))) (word 23 (codes "y")))
        ≡ is_fault cause.NotKnown 7 }
    ensures own_name { in_model (s.let_one (s.plain t.of_int) (present (word 16 (codes "y"))) (word 23 (codes "y")))
        ≡ is_fault cause.Unknown 16 }
    ensures no_value { in_model (s.let_one (s.plain t.of_int) absent (word 19 (codes "y")))
        ≡ is_fault cause.Unsupported 7 }
    ensures range { in_model (s.let_one (s.plain (t.of_values (word 7 (codes "s")))) (present (num 14 1)) (word 21 (codes "y")))
        ≡ is_fault cause.Unsupported 7 }
    ensures range_first { in_model (s.let_one (s.plain (t.of_values (word 7 (codes "z")))) (present (num 14 1)) (word 21 (codes "y")))
        ≡ is_fault cause.Unknown 7 }
{}

/// `[not 3, y]`, `f(y, z)`, `not y`, `y(not 3)`, `f(1, not 3)`: a fault in a part comes before that
/// of its node, and that of the first part before those of the others.
pub fn order_of_faults()
    ensures first_part { in_model (s.list 1 (two (t.prefix (at 2) sign.Not (num 6 3)) (word 9 (codes "y"))))
        ≡ is_fault cause.Mismatch 2 }
    ensures first_argument { in_model (s.calls 1 (codes "f") (two (word 3 (codes "y")) (word 6 (codes "z"))))
        ≡ is_fault cause.Unknown 3 }
    ensures part { in_model (t.prefix (at 1) sign.Not (word 5 (codes "y"))) ≡ is_fault cause.Unknown 5 }
    ensures before_unknown { in_model (s.calls 1 (codes "y") (one (t.prefix (at 3) sign.Not (num 7 3))))
        ≡ is_fault cause.Mismatch 3 }
    ensures before_number { in_model (s.calls 1 (codes "f") (two (num 3 1) (t.prefix (at 6) sign.Not (num 10 3))))
        ≡ is_fault cause.Mismatch 6 }
{}
