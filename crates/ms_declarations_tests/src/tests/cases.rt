//! Texts with what is wrong with their declarations.

use super::Answer;

/// A model, a library, and the answer.
pub type Case = (&'static str, &'static str, Answer);

pub const FILES: [Case; 12] = [
    ("include \"globals.mzn\"; solve satisfy;", "", Answer::None),
    (
        "include \"minisearch.mzn\"; solve satisfy;",
        "",
        Answer::None,
    ),
    (
        "include \"all_different.mzn\"; solve satisfy;",
        "",
        Answer::None,
    ),
    (
        "include \"alldifferent.mzn\"; solve satisfy;",
        "",
        Answer::None,
    ),
    ("include \"table.mzn\"; solve satisfy;", "", Answer::None),
    ("include \"count.mzn\"; solve satisfy;", "", Answer::None),
    (
        "include \"cumulative.mzn\"; solve satisfy;",
        "",
        Answer::None,
    ),
    ("include \"circuit.mzn\"; solve satisfy;", "", Answer::None),
    (
        "include \"other.mzn\"; solve satisfy;",
        "",
        Answer::Include(0, 1),
    ),
    (
        "int: a = 1; include \"globals\"; include \"other.mzn\"; solve satisfy;",
        "",
        Answer::Include(0, 13),
    ),
    (
        "include \"globals.mzn\"; include \"Globals.mzn\"; solve satisfy;",
        "",
        Answer::Include(0, 24),
    ),
    (
        "solve satisfy;",
        "include \"table.mzn\"; include \"../x\";",
        Answer::Include(2, 22),
    ),
];

pub const TWICE: [Case; 44] = [
    (
        "int: a = 1; int: a = 2; solve satisfy;",
        "",
        Answer::Twice(0, 1, 13),
    ),
    (
        "int: a = 1; predicate a() = true; solve satisfy;",
        "",
        Answer::Twice(0, 1, 13),
    ),
    (
        "function int: f() = 1; function int: f(int: x) = x; solve satisfy;",
        "",
        Answer::Twice(0, 1, 24),
    ),
    (
        "predicate p() = true; enum p; solve satisfy;",
        "",
        Answer::Twice(0, 1, 23),
    ),
    (
        "enum E = {a}; int: a = 1; solve satisfy;",
        "",
        Answer::Twice(0, 11, 15),
    ),
    ("enum E = {E}; solve satisfy;", "", Answer::Twice(0, 1, 11)),
    (
        "enum E = {a, b, a}; solve satisfy;",
        "",
        Answer::Twice(0, 11, 17),
    ),
    (
        "enum E = {a}; enum F = {a}; solve satisfy;",
        "",
        Answer::Twice(0, 11, 25),
    ),
    (
        "enum E; E = {a, a}; solve satisfy;",
        "",
        Answer::Twice(0, 14, 17),
    ),
    (
        "E = {a, a}; enum E; solve satisfy;",
        "",
        Answer::Twice(0, 6, 9),
    ),
    (
        "enum E; E = {b}; int: b = 1; solve satisfy;",
        "",
        Answer::Twice(0, 14, 18),
    ),
    (
        "constraint let { int: a = 1; int: a = 2 } in a = 1; solve satisfy;",
        "",
        Answer::Twice(0, 18, 30),
    ),
    (
        "constraint let { int: a = 1; int: b = 1; set of int: a = 1..2 } in true; solve satisfy;",
        "",
        Answer::Twice(0, 18, 42),
    ),
    (
        "constraint forall(i in 1..2, i in 1..2)(i = 1); solve satisfy;",
        "",
        Answer::Twice(0, 19, 30),
    ),
    (
        "constraint forall(i, i in 1..2)(i = 1); solve satisfy;",
        "",
        Answer::Twice(0, 19, 22),
    ),
    (
        "constraint [0 | i, j in 1..2, k, j in 1..3] = []; solve satisfy;",
        "",
        Answer::Twice(0, 20, 34),
    ),
    (
        "predicate p(int: a, int: a) = true; solve satisfy;",
        "",
        Answer::Twice(0, 13, 21),
    ),
    (
        "function int: f(int: b, int: a, var int: b2, bool: a) = 1; solve satisfy;",
        "",
        Answer::Twice(0, 25, 46),
    ),
    ("int: sum = 1; solve satisfy;", "", Answer::Twice(0, 1, 1)),
    (
        "predicate abs(int: a) = true; solve satisfy;",
        "",
        Answer::Twice(0, 1, 1),
    ),
    (
        "function int: next() = 1; solve satisfy;",
        "",
        Answer::Twice(0, 1, 1),
    ),
    ("enum card; solve satisfy;", "", Answer::Twice(0, 1, 1)),
    (
        "enum E = {a, fix}; solve satisfy;",
        "",
        Answer::Twice(0, 14, 14),
    ),
    (
        "predicate p(int: min) = true; solve satisfy;",
        "",
        Answer::Twice(0, 13, 13),
    ),
    (
        "constraint let { int: max = 1 } in true; solve satisfy;",
        "",
        Answer::Twice(0, 18, 18),
    ),
    (
        "constraint [0 | count in 1..2] = []; solve satisfy;",
        "",
        Answer::Twice(0, 17, 17),
    ),
    (
        "constraint forall(i in 1..2, j, post in 1..3)(true); solve satisfy;",
        "",
        Answer::Twice(0, 33, 33),
    ),
    ("solve satisfy; solve satisfy;", "", Answer::Twice(0, 1, 16)),
    (
        "int: a = 1; solve satisfy; int: b = 2; solve minimize b;",
        "",
        Answer::Twice(0, 13, 40),
    ),
    (
        "int: a = let { int: b = 1; int: b = 2 } in 1; int: a = 2; solve satisfy;",
        "",
        Answer::Twice(0, 16, 28),
    ),
    (
        "int: a = 1; int: a = let { int: b = 1; int: b = 2 } in 1; solve satisfy;",
        "",
        Answer::Twice(0, 1, 13),
    ),
    (
        "int: a = 1; int: a = 2; int: a = 3; solve satisfy;",
        "",
        Answer::Twice(0, 1, 13),
    ),
    (
        "int: a = 1; solve satisfy; constraint let { int: b = 1; int: b = 2 } in true; solve satisfy; int: a = 1;",
        "",
        Answer::Twice(0, 45, 57),
    ),
    (
        "array[(let { int: b = 1; int: b = 2 } in 1..b)] of int: a = 1; solve satisfy;",
        "",
        Answer::Twice(0, 14, 26),
    ),
    (
        "constraint [let { int: b = 1; int: b = 2 } in 1 | i in 1..2, i in 1..2] = []; solve satisfy;",
        "",
        Answer::Twice(0, 19, 31),
    ),
    (
        "constraint forall(i in 1..2, i in 1..2)(let { int: b = 1; int: b = 2 } in true); solve satisfy;",
        "",
        Answer::Twice(0, 19, 30),
    ),
    (
        "predicate p(int: a, array[int] of var bool: b) = let { int: c = 1; int: c = 2 } in true; solve satisfy;",
        "",
        Answer::Twice(0, 56, 68),
    ),
    (
        "function var (let { int: c = 1; int: c = 2 } in 1..2): f() = 1; solve satisfy;",
        "",
        Answer::Twice(0, 21, 33),
    ),
    (
        "constraint if true then let { int: c = 1; int: c = 2 } in true elseif true then true else true endif; solve satisfy;",
        "",
        Answer::Twice(0, 31, 43),
    ),
    (
        "constraint [| 1, [0 | i, i in 1..2][1] |] = 1; solve satisfy;",
        "",
        Answer::Twice(0, 23, 26),
    ),
    (
        "constraint a[1, let { int: c = 1; int: c = 2 } in 1] = 1; solve satisfy;",
        "",
        Answer::Twice(0, 23, 35),
    ),
    (
        "output [let { int: c = 1; int: c = 2 } in \"a\"]; solve satisfy;",
        "",
        Answer::Twice(0, 15, 27),
    ),
    (
        "solve minimize let { int: c = 1; int: c = 2 } in 1;",
        "",
        Answer::Twice(0, 22, 34),
    ),
    (
        "constraint 1 + 2 + (let { int: c = 1; int: c = 2 } in 1) = 1; solve satisfy;",
        "",
        Answer::Twice(0, 27, 39),
    ),
];

pub const HIDDEN: [Case; 14] = [
    (
        "int: a = 1; constraint let { int: a = 2 } in a = 2; solve satisfy;",
        "",
        Answer::None,
    ),
    (
        "constraint [[i | i in 1..2] | i in 1..2] = []; solve satisfy;",
        "",
        Answer::None,
    ),
    (
        "constraint let { int: a = let { int: a = 1 } in a } in a = 1; solve satisfy;",
        "",
        Answer::None,
    ),
    (
        "predicate p(int: p) = p = 1; solve satisfy;",
        "",
        Answer::None,
    ),
    (
        "predicate p(int: a) = true; predicate q(int: a) = true; solve satisfy;",
        "",
        Answer::None,
    ),
    (
        "enum E; E = {a, 1}; int: a = 1; solve satisfy;",
        "",
        Answer::None,
    ),
    ("int: E; E = {a, a}; solve satisfy;", "", Answer::None),
    ("enum E; E = ({a, a}); solve satisfy;", "", Answer::None),
    (
        "constraint [i | i in 1..2] = [i | i in 1..2]; solve satisfy;",
        "",
        Answer::None,
    ),
    (
        "int: summ = 1; int: Next = 2; solve satisfy;",
        "",
        Answer::None,
    ),
    (
        "int: a :: b(a) = 1; constraint true :: sum; solve satisfy;",
        "",
        Answer::None,
    ),
    ("a = 1; a = 2; solve satisfy;", "", Answer::None),
    ("int: a = 1; a = 2; solve satisfy;", "", Answer::None),
    (
        "solve :: int_search(x, input_order, indomain_min) satisfy;",
        "",
        Answer::None,
    ),
];

pub const UNSOLVED: [Case; 4] = [
    ("", "", Answer::NoSolve),
    ("int: a = 1;", "", Answer::NoSolve),
    ("constraint true; output [];", "", Answer::NoSolve),
    ("int: a = 1;", "solve satisfy;", Answer::NoSolve),
];

pub const CYCLES: [Case; 33] = [
    ("int: a = a; solve satisfy;", "", Answer::Cycle(0, 1)),
    (
        "var int: x = x + 1; solve satisfy;",
        "",
        Answer::Cycle(0, 1),
    ),
    (
        "int: a = b; int: b = a; solve satisfy;",
        "",
        Answer::Cycle(0, 1),
    ),
    (
        "int: c = a; int: a = b; int: b = a; solve satisfy;",
        "",
        Answer::Cycle(0, 13),
    ),
    (
        "int: b = 1; int: a = b; bool: d = d; solve satisfy;",
        "",
        Answer::Cycle(0, 25),
    ),
    ("var 1..x: x; solve satisfy;", "", Answer::Cycle(0, 1)),
    (
        "var a: x; set of int: a = x..2; solve satisfy;",
        "",
        Answer::Cycle(0, 1),
    ),
    ("set of 1..a: a; solve satisfy;", "", Answer::Cycle(0, 1)),
    (
        "array[1..n] of int: a; int: n = a[1]; solve satisfy;",
        "",
        Answer::Cycle(0, 1),
    ),
    (
        "array[1..2, 1..n] of int: a; int: n = length(a); solve satisfy;",
        "",
        Answer::Cycle(0, 1),
    ),
    (
        "int: a; int: b = a; a = b; solve satisfy;",
        "",
        Answer::Cycle(0, 1),
    ),
    (
        "a = b; int: a; int: b = a; solve satisfy;",
        "",
        Answer::Cycle(0, 8),
    ),
    (
        "function int: f(int: x) = g(x); function int: g(int: x) = f(x); solve satisfy;",
        "",
        Answer::Cycle(0, 1),
    ),
    (
        "predicate p(int: x) = x > 1 \\/ p(x - 1); solve satisfy;",
        "",
        Answer::Cycle(0, 1),
    ),
    (
        "function ann: f() = g(); function int: g() = f(); solve satisfy;",
        "",
        Answer::Cycle(0, 26),
    ),
    (
        "function var ann: f() = f(); solve satisfy;",
        "",
        Answer::Cycle(0, 1),
    ),
    (
        "function array[int] of ann: f() = f(); solve satisfy;",
        "",
        Answer::Cycle(0, 1),
    ),
    (
        "int: a = let { int: a = a } in 1; solve satisfy;",
        "",
        Answer::Cycle(0, 1),
    ),
    (
        "int: a = let { int: b = 1; int: c = b + a } in 1; solve satisfy;",
        "",
        Answer::Cycle(0, 1),
    ),
    (
        "array[int] of int: s = [i | i in s]; solve satisfy;",
        "",
        Answer::Cycle(0, 1),
    ),
    (
        "int: s = sum(i in 1..2 where s > i)(i); solve satisfy;",
        "",
        Answer::Cycle(0, 1),
    ),
    (
        "int: s = sum(j in 1..2, i in 1..s)(i); solve satisfy;",
        "",
        Answer::Cycle(0, 1),
    ),
    (
        "int: a = if true then 1 elseif a > 1 then 2 else 3 endif; solve satisfy;",
        "",
        Answer::Cycle(0, 1),
    ),
    (
        "array[int] of int: a = [| 1, 2 | 3, a[1] |]; solve satisfy;",
        "",
        Answer::Cycle(0, 1),
    ),
    (
        "set of int: a = {1, 2, card(a)}; solve satisfy;",
        "",
        Answer::Cycle(0, 1),
    ),
    (
        "int: a = b[1, a]; array[int, int] of int: b; solve satisfy;",
        "",
        Answer::Cycle(0, 1),
    ),
    (
        "int: a = -(1 * 2 mod (3 - a)); solve satisfy;",
        "",
        Answer::Cycle(0, 1),
    ),
    (
        "string: a = \"x\" ++ show(1) ++ a; solve satisfy;",
        "",
        Answer::Cycle(0, 1),
    ),
    (
        "bool: a = not (true /\\ (false -> (true <-> (1 in {1} \\/ (2 = 3 xor a))))); solve satisfy;",
        "",
        Answer::Cycle(0, 1),
    ),
    (
        "int: a = b; int: b = c; int: c = b; solve satisfy;",
        "",
        Answer::Cycle(0, 13),
    ),
    (
        "int: a = f(1); function int: f(int: x) = let { int: y = x } in y + a; solve satisfy;",
        "",
        Answer::Cycle(0, 1),
    ),
    (
        "function int: f(var 1..f(1): x) = 1; solve satisfy;",
        "",
        Answer::Cycle(0, 1),
    ),
    (
        "function 1..f(): f() = 1; solve satisfy;",
        "",
        Answer::Cycle(0, 1),
    ),
];

pub const ACYCLIC: [Case; 15] = [
    ("function ann: f() = f(); solve satisfy;", "", Answer::None),
    (
        "function ann: f() = g(); function ann: g() = f(); solve satisfy;",
        "",
        Answer::None,
    ),
    (
        "int: a = let { int: a = 1 } in a; solve satisfy;",
        "",
        Answer::None,
    ),
    (
        "array[int] of int: i = [i | i in 1..2]; solve satisfy;",
        "",
        Answer::None,
    ),
    (
        "int: i = sum(i in 1..2 where i > 1)(i); solve satisfy;",
        "",
        Answer::None,
    ),
    (
        "function int: f(int: f) = f(1); solve satisfy;",
        "",
        Answer::None,
    ),
    (
        "var int: x; constraint x = x + 1; solve satisfy;",
        "",
        Answer::None,
    ),
    ("int: a :: f(a) = 1; solve satisfy;", "", Answer::None),
    (
        "int: a = b; int: b = c; int: c = 1; solve satisfy;",
        "",
        Answer::None,
    ),
    ("a = a + 1; solve satisfy;", "", Answer::None),
    ("enum E = {a}; a = a + 1; solve satisfy;", "", Answer::None),
    (
        "predicate p() = true; p = p(); solve satisfy;",
        "",
        Answer::None,
    ),
    (
        "int: a = let { int: b = 1; int: a = b } in a; solve satisfy;",
        "",
        Answer::None,
    ),
    (
        "function par ann: f() = f(); solve satisfy;",
        "",
        Answer::None,
    ),
    (
        "int: a = 1; output [show(a)]; solve satisfy;",
        "",
        Answer::None,
    ),
];

pub const LIBRARIES: [Case; 16] = [
    (
        "solve satisfy;",
        "function int: f() = f();",
        Answer::Cycle(2, 1),
    ),
    (
        "solve satisfy;",
        "int: a = 1; int: a = 1;",
        Answer::Twice(2, 1, 13),
    ),
    (
        "int: f = 1; solve satisfy;",
        "function ann: f() = next();",
        Answer::None,
    ),
    (
        "function int: g() = f(); solve satisfy;",
        "function int: f() = g(); function int: g() = 1;",
        Answer::None,
    ),
    (
        "include \"x\"; solve satisfy;",
        "int: a = 1; int: a = 1;",
        Answer::Include(0, 1),
    ),
    (
        "include \"x\"; solve satisfy;",
        "include \"y\";",
        Answer::Include(2, 1),
    ),
    (
        "int: a = 1; int: a = 1;",
        "int: b = 1; int: b = 2;",
        Answer::Twice(2, 1, 13),
    ),
    (
        "int: a = 1; int: a = 1;",
        "function int: f() = f();",
        Answer::Twice(0, 1, 13),
    ),
    ("int: a = a;", "function int: f() = f();", Answer::NoSolve),
    (
        "int: a = a; solve satisfy;",
        "function int: f() = f();",
        Answer::Cycle(2, 1),
    ),
    (
        "int: a = a; solve satisfy;",
        "function ann: f() = f();",
        Answer::Cycle(0, 1),
    ),
    (
        "int: a = a; include \"x\"; int: a = 1;",
        "",
        Answer::Include(0, 13),
    ),
    ("int: a = a; int: a = 1;", "", Answer::Twice(0, 1, 13)),
    ("int: a = a;", "", Answer::NoSolve),
    ("int: a = a; int: b = 1;", "", Answer::NoSolve),
    (
        "solve satisfy; int: c = c; int: a = 1; int: a = 2;",
        "",
        Answer::Twice(0, 28, 40),
    ),
];
