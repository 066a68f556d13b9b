//! Expressions beside models: the names that they use.

/// What the expressions of all tables use: the names of the first lines are known, the others variable.
pub const NAMES: &str = r#"
int: n = 3;
bool: c = true;
set of int: s = 1..3;
string: t = "u";
array[int] of int: k = [1, 2];
array[int] of bool: h = [true];
array[int, int] of int: m = [|1, 2|];
var int: x;
var bool: b;
array[1..3] of var int: a;
array[1..3] of var bool: d;
array[1..2, 1..2] of var int: g;
predicate p(var int: e) = e > 0;
predicate o(array[int] of var int: e) = all_different(e);
function int: f(int: i) = i + 1;
function ann: q(var int: e) = post(e > 0);
function ann: r(ann: e, int: i) = if i > 1 then e else skip endif;
solve satisfy;
"#;

/// A model and a library that declare a function of one name.
pub const OWN: &str =
    "predicate p(int: x, var bool: e) = e; function int: walk(string: e) = 1; string: x; solve satisfy";

pub const OTHER: &str = "function ann: walk(var int: e) = next()";

/// Expressions beside these, in a search: where the places of one are the library's, its names are.
pub const OF_TEXTS: &str = r#"
walk(x) => int
walk(1) => Mismatch 1:1
x => string
e => Unknown 1:1
library: walk(1) => ann
library: walk(x) => Unknown library 1:6
library: x => Unknown library 1:1
"#;

/// Likewise among the parameters of the predicate, which hide what items declare.
pub const AMONG_PARAMETERS: &str = r#"
x => int
e => var bool
walk(x) => Mismatch 1:1
library: x => int
library: walk(x) => ann
"#;
