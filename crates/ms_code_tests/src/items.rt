//! Items.

ghost use Rattle.std.specs.Prelude.{◌≡◌, [], ◌∷◌, true, false, codes, None, Some};
ghost use Rattle.ms_syntax.specs.Tree as t;
ghost use Rattle.ms_typing.specs.Conversion.{numbers, truths};
ghost use Rattle.ms_typing_tests.specs.Sample as s;
ghost use Rattle.ms_typing_tests.specs.Sample.{at, sample, word, yes};
ghost use Rattle.ms_code.specs.Items.{item_code};
ghost use Rattle.ms_code.specs.declared.code.Code.TheVariants as c;
ghost use Rattle.ms_code.specs.declared.item.Goal.TheVariants as g;
ghost use Rattle.ms_code.specs.declared.item.Item.TheVariants as i;
ghost use Rattle.ms_code_tests.specs.Made.{named, num};

/// `x = true`, `f = 1` (a function), `constraint c`, `solve minimize b`, `solve minimize n`.
pub fn typed_trees_of_items()
    ensures assigned { item_code sample (t.assignment (at 1) (codes "x") (yes 5)) ≡ i.Assign (at 1) (Some 6) (c.Convert (numbers false) (c.Truth (at 5) true)) }
    ensures function { item_code sample (t.assignment (at 1) (codes "f") (s.num 5 1)) ≡ i.Assign (at 1) None (num 5 1) }
    ensures constrained { item_code sample (t.constraint (at 1) (word 12 (codes "c")) t.no_notes) ≡ i.Constraint (at 1) (c.Convert (truths false) (named 12 1)) }
    ensures objective { item_code sample (t.solve (at 1) t.no_notes (t.minimize (at 7) (word 16 (codes "b")))) ≡ i.Solve (at 1) (g.Minimize (c.Convert (numbers false) (named 16 7))) }
    ensures known { item_code sample (t.solve (at 1) t.no_notes (t.minimize (at 7) (word 16 (codes "n")))) ≡ i.Solve (at 1) (g.Minimize (named 16 0)) }
{}
