//! Items: which kinds stand where, and the first fault of a model in its types.

/// Items that are written before a solve item.
pub const KINDS: &str = r#"
% declarations
bool: x => accepted
par bool: x => accepted
par string: x => accepted
par set of int: x => accepted
var bool: x => accepted
int: x => accepted
var int: x => accepted
string: x => accepted
1..3: x => accepted
var 1..3: x => accepted
var {1, 3}: x => accepted
set of int: x => accepted
set of 1..3: x => accepted
array[int] of int: x => accepted
array[int, 1..2] of bool: x => accepted
array[int, int] of int: x => accepted
array[{1, 3}] of int: x => accepted
array[1..2] of 1..3: x => accepted
array[1..2] of var bool: x => accepted
array[1..2] of var int: x => accepted
array[1..2, 1..3] of var 1..3: x => accepted
set of int: d = 1..2; array[d] of var d: x => accepted
ann: x => Unsupported 1:1
var ann: x => Unsupported 1:1
var string: x => Unsupported 1:1
var set of int: x => Unsupported 1:1
var set of 1..3: x => Unsupported 1:1
array[int] of var int: x => Unsupported 1:1
array[1..2, int] of var bool: x => Unsupported 1:1
array[1..2] of string: x => Unsupported 1:1
array[1..2] of set of int: x => Unsupported 1:1
array[1..2] of set of 1..3: x => Unsupported 1:1
array[1..2] of ann: x => Unsupported 1:1
enum e => Unsupported 1:1
enum e = {u, v} => Unsupported 1:1
% parameters
predicate p(bool: x) = x => accepted
predicate p(var bool: x) = x => accepted
predicate p(int: x) = x > 0 => accepted
predicate p(var int: x) = x > 0 => accepted
predicate p(string: x) = x = "u" => accepted
predicate p(par int: x) = x > 0 => accepted
predicate p(set of int: x) = 1 in x => accepted
predicate p(array[int] of bool: x) = x[1] => accepted
predicate p(array[int] of int: x) = x[1] > 0 => accepted
predicate p(array[int] of var bool: x) = x[1] => accepted
predicate p(array[int] of var int: x) = x[1] > 0 => accepted
predicate p(array[int, int] of bool: x) = x[1, 1] => accepted
predicate p(array[int, int] of int: x) = x[1, 1] > 0 => accepted
predicate p(array[int, int] of var int: x) = x[1, 1] > 0 => accepted
predicate p(array[int, int] of var bool: x) = x[1, 1] => accepted
function ann: p(ann: x) = x => accepted
predicate p(1..3: x) = true => Unsupported 1:13
predicate p(var 1..3: x) = true => Unsupported 1:13
predicate p(var string: x) = true => Unsupported 1:13
predicate p(set of 1..3: x) = true => Unsupported 1:13
predicate p(var set of int: x) = true => Unsupported 1:13
predicate p(array[1..2] of int: x) = true => Unsupported 1:13
predicate p(array[int, 1..2] of int: x) = true => Unsupported 1:13
predicate p(array[int] of string: x) = true => Unsupported 1:13
predicate p(array[int] of set of int: x) = true => Unsupported 1:13
predicate p(array[int] of 1..3: x) = true => Unsupported 1:13
predicate p(ann: x) = true => Unsupported 1:13
predicate p(3: x) = true => Unsupported 1:13
function int: p(ann: x) = 1 => Unsupported 1:17
function ann: p(array[int] of ann: x) = skip => Unsupported 1:17
% results
function bool: p() = true => accepted
function var bool: p() = true => accepted
function int: p() = 1 => accepted
function par int: p() = 1 => accepted
function var int: p() = 1 => accepted
function ann: p() = next() => accepted
function string: p() = "u" => Unsupported 1:1
function set of int: p() = {1} => Unsupported 1:1
function var string: p() = "u" => Unsupported 1:1
function 1..3: p() = 1 => Unsupported 1:1
function array[int] of int: p() = [1] => Unsupported 1:1
function var ann: p() = 1 => Unsupported 1:1
"#;

/// Whole models.
pub const MODELS: &str = r#"
% values of declarations
int: x = true; solve satisfy => accepted
var int: x = 1; solve satisfy => accepted
var int: x = y; var bool: y; solve satisfy => accepted
array[1..2] of var int: x = [1, true]; solve satisfy => accepted
array[1..2] of int: x = []; solve satisfy => accepted
set of 1..3: x = {1}; solve satisfy => accepted
string: x = "u"; solve satisfy => accepted
bool: x = 1; solve satisfy => Mismatch 1:1
var bool: x = 1; solve satisfy => Mismatch 1:1
set of int: x = 1; solve satisfy => Mismatch 1:1
string: x = 1; solve satisfy => Mismatch 1:1
array[1..2] of bool: x = [1]; solve satisfy => Mismatch 1:1
array[1..2] of int: x = [|1|]; solve satisfy => Mismatch 1:1
array[1..2, 1..1] of int: x = [1, 2]; solve satisfy => Mismatch 1:1
int: x = "u"; solve satisfy => Mismatch 1:1
int: x = y; var int: y; solve satisfy => NotKnown 1:1
int: x = y; solve satisfy => Unknown 1:10
int: x = next(); solve satisfy => Mismatch 1:10
% sets of declarations, and then the value
3: x; solve satisfy => Mismatch 1:1
var true: x; solve satisfy => Mismatch 1:1
set of 3: x; solve satisfy => Mismatch 1:1
array[3] of int: x; solve satisfy => Mismatch 1:1
var 1..y: x; var int: y; solve satisfy => NotKnown 1:6
set of 1..y: x; var int: y; solve satisfy => NotKnown 1:9
array[1..y] of int: x; var int: y; solve satisfy => NotKnown 1:8
array[z..y] of w..v: x = u; solve satisfy => Unknown 1:7
array[1..y] of w..v: x = u; solve satisfy => Unknown 1:10
array[1..2] of w..v: x = u; solve satisfy => Unknown 1:16
array[1..2] of 1..2: x = u; solve satisfy => Unknown 1:26
array[1..2, 1..z] of int: x = u; solve satisfy => Unknown 1:16
ann: x = u; solve satisfy => Unknown 1:10
% constraints
constraint true; solve satisfy => accepted
constraint x > 0; var int: x; solve satisfy => accepted
constraint 1; solve satisfy => Mismatch 1:1
constraint next(); solve satisfy => Mismatch 1:12
constraint y > 0; solve satisfy => Unknown 1:12
% goals
solve satisfy => accepted
solve minimize 1 => accepted
solve minimize x; var bool: x => accepted
solve maximize x; var int: x => accepted
solve search next() => accepted
solve search true => accepted
solve minimize "u" => Mismatch 1:1
solve maximize x; string: x => Mismatch 1:1
solve minimize sol(x); var int: x => Mismatch 1:16
solve search 1 => Mismatch 1:1
solve search b; var bool: b => NotKnown 1:1
solve search y => Unknown 1:14
% annotations
solve :: other satisfy => accepted
solve :: other(y) satisfy => accepted
constraint true :: other(y); solve satisfy => accepted
var int: x :: int_search(y); solve satisfy => accepted
solve :: int_search satisfy => Unsupported 1:7
solve :: bool_search(x, input_order, indomain_min) satisfy; var bool: x => Unsupported 1:7
solve :: other :: bool_search(y) minimize z => Unsupported 1:16
% output items
output ["u"]; solve satisfy => accepted
output []; solve satisfy => accepted
output [|"u"|"v"|]; solve satisfy => accepted
output [show(x)]; var int: x; solve satisfy => accepted
output [show(fix(x))]; var int: x; solve satisfy => accepted
output "u"; solve satisfy => Mismatch 1:1
output [1]; solve satisfy => Mismatch 1:1
output 1; solve satisfy => Mismatch 1:1
output [next()]; solve satisfy => Mismatch 1:9
% assignment items
int: x; x = 1; solve satisfy => accepted
var int: x; x = 1; solve satisfy => accepted
x = "u"; solve satisfy => accepted
x = [1]; solve satisfy => accepted
p = 1; predicate p() = true; solve satisfy => accepted
int: x; x = "u"; solve satisfy => Mismatch 1:9
int: x; x = y; var int: y; solve satisfy => NotKnown 1:9
x = y; solve satisfy => Unknown 1:5
% predicates and functions
predicate p(int: x) = x; solve satisfy => Mismatch 1:1
predicate p(int: x) = y; solve satisfy => Unknown 1:23
predicate p(1..2: x) = y; solve satisfy => Unsupported 1:13
predicate p(1..y: x) = z; solve satisfy => Unknown 1:16
function int: p(var int: x) = x; solve satisfy => NotKnown 1:1
function var int: p(var int: x) = x; solve satisfy => accepted
function int: p() = next(); solve satisfy => Mismatch 1:21
function int: p(int: x) = sol(x); solve satisfy => Mismatch 1:27
function var int: p(var int: x) = fix(x); solve satisfy => Mismatch 1:35
function ann: p(var int: x) = post(x > sol(x)); solve satisfy => accepted
function ann: p() = 1; solve satisfy => Mismatch 1:1
function ann: p(var bool: x) = x; solve satisfy => NotKnown 1:1
function string: p() = y; solve satisfy => Unknown 1:24
function 1..y: p() = z; solve satisfy => Unknown 1:13
% one item after another
constraint y; int: x = z; solve satisfy => Unknown 1:12
int: x = "u"; constraint y; solve satisfy => Mismatch 1:1
constraint x > 0; 1..z: x; solve satisfy => Unknown 1:22
include "globals.mzn"; solve satisfy => accepted
include "table.mzn"; solve satisfy => accepted
include "tables.mzn"; solve satisfy => Include 1:1
"#;

/// Names that are declared twice, by both places.
pub const TWICE: &str = r#"
int: x; bool: x; solve satisfy => Twice 1:1 1:9
int: x; predicate x() = true; solve satisfy => Twice 1:1 1:9
predicate p(int: x, int: x) = true; solve satisfy => Twice 1:13 1:21
constraint let { int: x = 1; int: x = 2 } in true; solve satisfy => Twice 1:18 1:30
constraint forall(i in 1..2, i in 1..2)(true); solve satisfy => Twice 1:19 1:30
constraint forall(i, i in 1..2)(true); solve satisfy => Twice 1:19 1:22
solve satisfy; solve satisfy => Twice 1:1 1:16
int: sum; solve satisfy => Twice 1:1 1:1
predicate next() = true; solve satisfy => Twice 1:1 1:1
predicate p(int: sum) = true; solve satisfy => Twice 1:13 1:13
constraint forall(sum in 1..2)(true); solve satisfy => Twice 1:19 1:19
constraint let { int: sum = 1 } in true; solve satisfy => Twice 1:18 1:18
int: x; int: y; int: y; int: x; solve satisfy => Twice 1:9 1:17
int: x; constraint let { int: x = 1 } in x > 0; solve satisfy => accepted
"#;

/// Names that depend on themselves, and names that seem to.
pub const CYCLES: &str = r#"
int: x = x; solve satisfy => Cycle 1:1
var int: x = x + 1; solve satisfy => Cycle 1:1
int: x; int: y = x; x = y; solve satisfy => Cycle 1:1
var 1..y: x; int: y = x; solve satisfy => Cycle 1:1
array[1..y] of int: x; int: y = x[1]; solve satisfy => Cycle 1:1
int: z = x; int: x = y; int: y = x; solve satisfy => Cycle 1:13
predicate p() = q(); predicate q() = p(); solve satisfy => Cycle 1:1
int: x = f(); function int: f() = x; solve satisfy => Cycle 1:1
constraint x = x + 1; var int: x; solve satisfy => accepted
function ann: f() = f(); solve search f() => accepted
int: x = let { int: x = 1 } in x; solve satisfy => accepted
array[1..2] of int: i = [i | i in 1..2]; solve satisfy => accepted
predicate p(int: p) = p > 0; solve satisfy => accepted
"#;
