//! Deep and long texts.

/// An integer in brackets of one sort: what stands before it and behind it, and how often.
pub const DEEP: &[(&str, &str, usize)] = &[
    ("(", ")", 200),
    ("-(", ")", 200),
    ("abs(", ")", 200),
    ("card({", "})", 100),
    ("sum([", "])", 100),
    ("sum([|", "|])", 100),
    ("sum([i | i in 1..", "])", 100),
    ("sum([", " | i in 1..1])", 100),
    ("sum(i in 1..1)(", ")", 200),
    ("sum(i in 1..", ")(i)", 200),
    ("[1][", "]", 199),
    ("if true then ", " else 1 endif", 200),
    ("if 1 > ", " then 1 else 2 endif", 200),
    ("(let { int: m = 1 } in ", ")", 199),
    ("(let { int: m = ", " } in m)", 100),
];

/// Likewise a search.
pub const DEEP_SEARCHES: &[(&str, &str, usize)] = &[
    ("scope(", ")", 200),
    ("repeat(i in 1..2)(", ")", 200),
    ("time_limit(1, ", ")", 200),
    ("if next() then ", " else fail endif", 199),
    ("if ", " then skip else fail endif", 200),
];

/// The beginning of a model, what is written many times behind it, how often, what ends the model, and the answer.
pub const LONG: &[(&str, &str, usize, &str, &str)] = &[
    ("int: n = 1", "+1", 500000, "; solve satisfy", "accepted"),
    ("int: n = 1", "*1", 500000, "; solve satisfy", "accepted"),
    (
        "bool: c = true",
        "/\\true",
        170000,
        "; solve satisfy",
        "accepted",
    ),
    (
        "bool: c = true",
        "->true",
        170000,
        "; solve satisfy",
        "accepted",
    ),
    (
        "string: t = \"u\"",
        "++\"u\"",
        200000,
        "; solve satisfy",
        "accepted",
    ),
    (
        "int: n = if true then 1",
        " elseif true then 2",
        50000,
        " else 3 endif; solve satisfy",
        "accepted",
    ),
    (
        "int: n = 1",
        "; constraint n > 0",
        50000,
        "; solve satisfy",
        "accepted",
    ),
    (
        "int: n = [1]",
        "[1]",
        300000,
        "; solve satisfy",
        "Mismatch 1:10",
    ),
];
