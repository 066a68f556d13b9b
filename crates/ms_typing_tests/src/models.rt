//! Models, beside a library without items.

ghost use Rattle.std.specs.Prelude.{◌≡◌, [], ◌∷◌, Some, true, false, codes};
ghost use Rattle.ms_syntax.specs.Tree as t;
ghost use Rattle.ms_syntax.specs.Tree.{absent, index, kind, no_exs, no_indices, no_notes, note, present};
ghost use Rattle.ms_syntax.specs.declared.tree.Mode.TheVariants as mode;
ghost use Rattle.ms_syntax.specs.declared.tree.Operator.TheVariants as o;
ghost use Rattle.ms_typing.specs.Conversion.{numbers, truths};
ghost use Rattle.ms_typing.specs.Items.{model_terms};
ghost use Rattle.ms_typing.specs.Least.{has, typings};
ghost use Rattle.ms_typing.specs.declared.types.Cause.TheVariants as cause;
ghost use Rattle.ms_typing.specs.declared.types.ExprType.TheVariants.{Plain, Search, Set, Text};
ghost use Rattle.ms_typing.specs.declared.types.Scalar.TheVariants.{Number};
ghost use Rattle.ms_typing.specs.declared.types.Shape.TheVariants.{Line, Single};
ghost use Rattle.ms_typing_tests.specs.Sample as s;
ghost use Rattle.ms_typing_tests.specs.Sample.{at, declares, has_fault, model, num, one, op, plain, quoted, solve, variable, word, yes};

/// `constraint y > 0; solve satisfy;`, `int: x = "u"`, `int: x = y; var int: y`, `var 1..y: x`,
/// `3: x`, `constraint 3`, `solve minimize "u"`, `solve search b` with a variable, `output 3`,
/// `x = "u"` for a declared name and for another.
pub fn faults_of_items()
    ensures unknown { model (t.constraint (at 1) (op o.Greater 14 (word 12 (codes "y")) (num 16 0)) no_notes ∷ solve 19 ∷ [])
        ≡ has_fault cause.Unknown 12 }
    ensures value { model (declares 1 (plain t.of_int) (codes "x") (present (quoted 10)) ∷ []) ≡ has_fault cause.Mismatch 1 }
    ensures variable_value { model (declares 1 (plain t.of_int) (codes "x") (present (word 10 (codes "y"))) ∷ declares 13 (variable t.of_int) (codes "y") absent ∷ [])
        ≡ has_fault cause.NotKnown 1 }
    ensures variable_range { model (declares 1 (variable t.of_int) (codes "y") absent ∷ declares 13 (variable (t.of_values (op o.To 18 (num 17 1) (word 20 (codes "y"))))) (codes "x") absent ∷ [])
        ≡ has_fault cause.NotKnown 18 }
    ensures no_range { model (declares 1 (plain (t.of_values (num 1 3))) (codes "x") absent ∷ []) ≡ has_fault cause.Mismatch 1 }
    ensures condition { model (t.constraint (at 1) (num 12 3) no_notes ∷ []) ≡ has_fault cause.Mismatch 1 }
    ensures objective { model (t.solve (at 1) no_notes (t.minimize (at 7) (quoted 16)) ∷ []) ≡ has_fault cause.Mismatch 1 }
    ensures search { model (declares 1 (variable t.of_bool) (codes "b") absent ∷ t.solve (at 14) no_notes (t.search_by (at 20) (word 27 (codes "b"))) ∷ [])
        ≡ has_fault cause.NotKnown 14 }
    ensures shown { model (t.output (at 1) (num 8 3) ∷ []) ≡ has_fault cause.Mismatch 1 }
    ensures assigned { model (declares 1 (plain t.of_int) (codes "x") absent ∷ t.assignment (at 9) (codes "x") (quoted 13) ∷ []) ≡ has_fault cause.Mismatch 9 }
    ensures library_first { typings (model_terms (t.constraint (at 1) (num 12 3) no_notes ∷ []) (t.constraint (at 40) (num 52 3) no_notes ∷ []))
        ≡ has_fault cause.Mismatch 40 }
{}

/// `var int: x; constraint x > 0; solve satisfy; output [];`, `y = "u"` where nothing is declared
/// so, a search function with its call, and `solve search true`.
pub fn typed_items()
    ensures plain { model (declares 1 (variable t.of_int) (codes "x") absent ∷ t.constraint (at 13) (op o.Greater 26 (word 24 (codes "x")) (num 28 0)) no_notes ∷ solve 31 ∷ t.output (at 46) (t.array (at 53) no_exs) ∷ [])
        ≡ has (numbers false ∷ truths false ∷ truths true ∷ Text Line ∷ []) }
    ensures left { model (t.assignment (at 1) (codes "y") (quoted 5) ∷ []) ≡ has (Text Single ∷ []) }
    ensures function { model (t.function (at 1) (plain t.of_ann) (codes "h") ((at 17, plain t.of_ann, codes "z") ∷ []) (word 27 (codes "z"))
        ∷ t.solve (at 30) no_notes (t.search_by (at 36) (s.calls 43 (codes "h") (one (word 45 (codes "skip"))))) ∷ []) ≡ has (Search ∷ Search ∷ []) }
    ensures known { model (t.solve (at 1) no_notes (t.search_by (at 7) (yes 14)) ∷ []) ≡ has (Search ∷ []) }
{}

/// An enumeration; `solve :: int_search satisfy`; `array[int] of var int: x`; `var string: x`; a
/// parameter of type `ann` where the result is `int`; a result that is a set.
pub fn unsupported_items()
    ensures enumeration { model (t.enumeration (at 1) (codes "e") (Some []) ∷ []) ≡ has_fault cause.Unsupported 1 }
    ensures annotation { model (t.solve (at 1) (note (at 7) (codes "int_search") no_exs no_notes) (t.satisfy (at 21)) ∷ []) ≡ has_fault cause.Unsupported 7 }
    ensures other_annotation { model (t.solve (at 1) (note (at 7) (codes "other") no_exs no_notes) (t.satisfy (at 16)) ∷ []) ≡ has (truths true ∷ []) }
    ensures indices { model (declares 1 (kind (index absent no_indices) mode.Var t.of_int) (codes "x") absent ∷ []) ≡ has_fault cause.Unsupported 1 }
    ensures text { model (declares 1 (variable t.of_string) (codes "x") absent ∷ []) ≡ has_fault cause.Unsupported 1 }
    ensures parameter { model (t.function (at 1) (plain t.of_int) (codes "h") ((at 17, plain t.of_ann, codes "z") ∷ []) (num 27 1) ∷ []) ≡ has_fault cause.Unsupported 17 }
    ensures result { model (t.function (at 1) (plain t.set_of_int) (codes "h") [] (t.set (at 27) no_exs) ∷ []) ≡ has_fault cause.Unsupported 1 }
{}
