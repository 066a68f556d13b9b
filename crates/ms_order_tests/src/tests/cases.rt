//! Texts with the order of their names.

/// A model, and the numbers of its names in the order in which they come.
pub type Case = (&'static str, &'static [usize]);

pub const ITEMS: [Case; 9] = [
    ("solve satisfy;", &[]),
    ("int: a = 1; int: b = a;", &[0, 1]),
    ("int: a = b; int: b = 1;", &[1, 0]),
    ("int: a = c + b; int: b = 1; int: c = 2;", &[1, 2, 0]),
    ("int: a; int: b = 1; a = b;", &[1, 0]),
    ("int: a; int: b = a;", &[0, 1]),
    (
        "array [1..n] of var 0..m: x; int: m = 2; int: n = 3;",
        &[1, 2, 0],
    ),
    ("int: a = b; enum E = {P, Q}; int: b = 1;", &[4, 0, 1, 2, 3]),
    (
        "var int: a = b; constraint a < c; int: b = 1; int: c = 2;",
        &[1, 0, 2],
    ),
];

pub const CHAINS: [Case; 3] = [
    ("int: a = b; int: b = c; int: c = 1;", &[2, 1, 0]),
    (
        "int: a = c + b; int: b = d; int: c = d; int: d = 1;",
        &[3, 1, 2, 0],
    ),
    (
        "int: a = d + b; int: b = c; int: c = 1; int: d = 2;",
        &[2, 1, 3, 0],
    ),
];

pub const FUNCTIONS: [Case; 5] = [
    (
        "int: a = f(1); function int: f(int: x) = g(x); function int: g(int: x) = x + b; int: b = 2;",
        &[3, 0, 1, 2],
    ),
    (
        "bool: a = p(1); predicate p(int: x) = x > c; int: b = 1; int: c = 2;",
        &[3, 0, 1, 2],
    ),
    (
        "function int: f(int: x) = x + c; int: b = 1; int: c = 2;",
        &[0, 1, 2],
    ),
    (
        "int: a = c + f(1); function int: f(int: x) = x + b; int: b = 1; int: c = 2;",
        &[2, 3, 0, 1],
    ),
    (
        "int: a = f(1); function 0..b: f(0..c: x) = x; int: b = 1; int: c = 2;",
        &[2, 3, 0, 1],
    ),
];

pub const HIDDEN: [Case; 3] = [
    ("int: a = let { int: b = 1 } in b; int: b = 2;", &[0, 1]),
    (
        "int: a = f(1); function int: f(int: b) = b; int: b = 3;",
        &[0, 1, 2],
    ),
    ("int: a = sum(b in 1..3)(b); int: b = 3;", &[0, 1]),
];

pub const CYCLES: [Case; 3] = [
    ("int: a = a;", &[0]),
    ("int: a = b; int: b = a;", &[1, 0]),
    ("int: a = c; int: b = a; int: c = b + a;", &[1, 2, 0]),
];
