//! The forms of expressions: each with texts that have a type by it, and with the nearest that have none.

/// Operators, in a constraint.
pub const OPERATORS: &str = r#"
% <->, ->, <- and xor
b <-> c => var bool
c <-> c => bool
n <-> b => Mismatch 1:3
c -> c => bool
c -> b => var bool
b -> x => Mismatch 1:3
c <- b => var bool
c <- c => bool
c <- n => Mismatch 1:3
c xor c => bool
b xor c => var bool
t xor c => Mismatch 1:3
c -> n -> c => Mismatch 1:3
c -> c -> n => Mismatch 1:8
% \/ and /\
b \/ c => var bool
c \/ c => bool
x \/ c => Mismatch 1:3
b /\ c => var bool
c /\ c => bool
c /\ n => Mismatch 1:3
c /\ n /\ c => Mismatch 1:3
c /\ c /\ n => Mismatch 1:8
% = and !=
x = n => var bool
n = 1 => bool
x = b => var bool
c = 1 => bool
b = c => var bool
c = c => bool
s = {1} => bool
t = "v" => bool
x == n => var bool
s = 1 => Mismatch 1:3
t = s => Mismatch 1:3
k = k => Mismatch 1:3
[] = [] => Mismatch 1:4
n != x => var bool
n != c => bool
c != b => var bool
s != 1..2 => bool
t != "v" => bool
t != 1 => Mismatch 1:3
m != m => Mismatch 1:3
% <, <=, > and >=
x < n => var bool
n < x => var bool
n < 1 => bool
"u" < t => Mismatch 1:5
n <= 1 => bool
x <= b => var bool
1 <= s => Mismatch 1:3
b > 0 => var bool
c > c => bool
k > 1 => Mismatch 1:3
c >= 1 => bool
x >= x => var bool
t >= 1 => Mismatch 1:3
% in
x in s => var bool
b in s => var bool
n in 1..2 => bool
x in n => Mismatch 1:3
x in k => Mismatch 1:3
k in s => Mismatch 1:3
s in s => Mismatch 1:3
t in s => Mismatch 1:3
% ..
1..n => set
c..n => set
x..n => NotKnown 1:2
1..x => NotKnown 1:2
1..t => Mismatch 1:2
s..1 => Mismatch 1:2
% +, -, *, div and mod
x + 1 => var int
n + c => int
1 + t => Mismatch 1:3
n - c => int
x - x => var int
k - 1 => Mismatch 1:3
n * x => var int
n * n => int
s * 2 => Mismatch 1:3
n div 2 => int
2 div x => var int
n div s => Mismatch 1:3
x mod b => var int
n mod 2 => int
t mod 2 => Mismatch 1:3
1 + 2 + t => Mismatch 1:7
1 + t + 2 => Mismatch 1:3
1 + (t * x) => Mismatch 1:8
% prefix -
-x => var int
-n => int
-c => int
-t => Mismatch 1:1
-s => Mismatch 1:1
% not
not b => var bool
not c => bool
not n => Mismatch 1:1
not t => Mismatch 1:1
% ++
t ++ "v" => string
k ++ k => array of int
k ++ [x] => array of var int
h ++ k => array of int
[] ++ d => array of var bool
[] ++ [] => array of nothing
["u"] ++ [t] => array of string
[] ++ [t] => array of string
t ++ 1 => Mismatch 1:3
1 ++ 1 => Mismatch 1:3
s ++ s => Mismatch 1:3
m ++ m => Mismatch 1:3
k ++ t => Mismatch 1:3
k ++ [t] => Mismatch 1:3
t ++ n ++ t => Mismatch 1:8
n ++ t ++ t => Mismatch 1:3
"#;

/// All other forms, in a constraint.
pub const BRACKETS: &str = r#"
% literals, names and parentheses
1 => int
true => bool
"u" => string
x => var int
(x) => var int
z => Unknown 1:1
(z) => Unknown 1:2
% if with known conditions
if c then 1 else 2 endif => int
if c then 1 else x endif => var int
if c then c else 1 endif => int
if c then t else "v" endif => string
if c then s else {} endif => set
if c then k else a endif => array of var int
if c then g else m endif => grid of var int
if c then [] else [t] endif => array of string
if c then 1 elseif c then x else c endif => var int
if n then 1 else 2 endif => Mismatch 1:1
if c then 1 else t endif => Mismatch 1:1
if c then k else m endif => Mismatch 1:1
if c then 1 elseif n then 2 else 3 endif => Mismatch 1:1
% if with a variable condition
if b then 1 else 2 endif => var int
if b then c else c endif => var bool
if b then 1 else c endif => var int
if c then 1 elseif b then 2 else 3 endif => var int
if b then t else t endif => NotKnown 1:1
if b then s else s endif => NotKnown 1:1
if b then k else k endif => NotKnown 1:1
if c then t elseif b then t else t endif => NotKnown 1:1
if b then 1 else t endif => Mismatch 1:1
% [..]
[1, n] => array of int
[1, x] => array of var int
[c, 1] => array of int
[c, c] => array of bool
[b, 1] => array of var int
[b, c] => array of var bool
[t, "v"] => array of string
[] => array of nothing
[1, t] => Mismatch 1:1
[s] => Mismatch 1:1
[k] => Mismatch 1:1
% [|..|]
[|1, 2|3, 4|] => grid of int
[|1, 2|x, 4|] => grid of var int
[|c, b|] => grid of var bool
[|t|"v"|] => grid of string
[| |] => grid of nothing
[|1, 2|3|] => Mismatch 1:1
[|1|t|] => Mismatch 1:1
[|s|] => Mismatch 1:1
% {..}
{1, n, c} => set
{} => set
{x} => NotKnown 1:1
{1, x} => NotKnown 1:1
{t} => Mismatch 1:1
{s} => Mismatch 1:1
% [e | gens]
[i | i in s] => array of int
[i + x | i in s] => array of var int
[c | i in s] => array of bool
[b | i in s] => array of var bool
[t | i in s] => array of string
[i | i, j in s, l in i..j where i < j] => array of int
[i | i in n] => Mismatch 1:1
[i | i in k] => Mismatch 1:1
[i | i in s where b] => NotKnown 1:1
[i | i in s where i] => Mismatch 1:1
[s | i in s] => Mismatch 1:1
[k | i in s] => Mismatch 1:1
[z | i in y] => Unknown 1:2
[i | i in y where z] => Unknown 1:11
[i | i in 1..i] => Unknown 1:14
[i | i, j in 1..i] => Unknown 1:17
% f(gens)(e)
forall(i in s where i > 1)(b) => var bool
forall(i in s)(c) => bool
exists(i, j in s)(i < j) => bool
sum(i in s, j in 1..i)(a[j]) => var int
min(i in s)(i) => int
max(i in s)(c) => int
all_different(i in s)(i) => bool
alldifferent(i in s)(a[i]) => var bool
o(i in s)(a[i]) => var bool
length(i in s)(x) => int
index_set(i in s)(i) => set
show(i in s)(i) => string
sum(i in s)(t) => Mismatch 1:1
sum(i in n)(i) => Mismatch 1:1
sum(i in s where b)(i) => NotKnown 1:1
sum(i in s where i)(i) => Mismatch 1:1
show(i in s)(x) => NotKnown 1:1
abs(i in s)(i) => Mismatch 1:1
p(i in s)(i) => Mismatch 1:1
o(i in s)(t) => Mismatch 1:1
x(i in s)(i) => Mismatch 1:1
count(i in s)(i) => Arity 1:1
z(i in s)(i) => Unknown 1:1
forall(i in y)(z) => Unknown 1:13
forall(i in s)(z) => Unknown 1:16
% a[i] and a[i, j]
k[n] => int
k[c] => int
k[x] => var int
a[1] => var int
h[n] => bool
d[1] => var bool
m[n, 2] => int
g[1, 1] => var int
m[1, x] => var int
[t][n] => string
k[a[1]] => var int
[|t|][1, 1] => string
[][1] => nothing
a[t] => Mismatch 1:1
m[1, t] => Mismatch 1:1
1 + a[t] => Mismatch 1:5
x[1] => Mismatch 1:1
s[1] => Mismatch 1:1
a[1, 2] => Arity 1:1
g[1] => Arity 1:1
[1, 2][1, 2] => Arity 1:1
[t][x] => NotKnown 1:1
[|t|][1, x] => NotKnown 1:1
k[1][1] => Mismatch 1:1
a[y] => Unknown 1:3
% let
let { int: y = 1 } in y => int
let { int: y = 1; var int: w = x + y } in w => var int
let { var bool: y = c } in y => var bool
let { string: y = t } in y => string
let { set of int: y = s } in y => set
let { array[int] of int: y = k } in y => array of int
let { array[int] of int: y = [] } in y => array of int
let { array[int, int] of var int: y = m } in y => grid of var int
let { var int: x = x } in x => var int
let { int: y = x } in y => NotKnown 1:7
let { int: y = t } in y => Mismatch 1:7
let { bool: n = n } in n => Mismatch 1:7
let { array[int] of int: y = m } in y => Mismatch 1:7
let { int: y } in y => Unsupported 1:7
let { 1..3: y = 1 } in y => Unsupported 1:7
let { set of 1..3: y = s } in y => Unsupported 1:7
let { array[1..2] of int: y = k } in y => Unsupported 1:7
let { array[int] of string: y = [t] } in y => Unsupported 1:7
let { var string: y = t } in y => Unsupported 1:7
let { int: y = 1; int: w = v } in y => Unknown 1:28
let { int: y = t } in v => Mismatch 1:7
% one fault after another: children before parents, left before right, and the causes at one node
(1 + t) + y => Mismatch 1:4
1 + t + y => Mismatch 1:3
t + (1 + s) => Mismatch 1:8
y + z => Unknown 1:1
f(y, 1) => Unknown 1:3
f(t, x) => Arity 1:1
[1..x, t..1] => NotKnown 1:3
"#;

/// What is a search, in a search.
pub const SEARCHES: &str = r#"
% \/ and /\
next() /\ commit() => ann
next() \/ skip => ann
c /\ next() => ann
next() \/ c => ann
c /\ c /\ next() => ann
hasSol() /\ x > sol(x) /\ c => var bool
c /\ c => bool
c \/ b => var bool
b /\ next() => NotKnown 1:3
next() \/ b => NotKnown 1:8
x > 1 /\ next() /\ skip => NotKnown 1:7
b /\ c /\ next() => NotKnown 1:8
n /\ next() => Mismatch 1:3
next() \/ t => Mismatch 1:8
% of other operators
next() xor skip => Mismatch 1:8
next() -> skip => Mismatch 1:8
skip = skip => Mismatch 1:6
not next() => Mismatch 1:1
% if
if next() then commit() else break endif => ann
if c then next() else skip endif => ann
if c then next() else c endif => ann
if next() then c else hasSol() endif => ann
if hasSol() then fail elseif next() then skip else c endif => ann
if c then 1 else 2 endif => int
if b then skip else fail endif => NotKnown 1:1
if next() then skip else b endif => NotKnown 1:1
if next() then skip elseif b then skip else fail endif => NotKnown 1:1
if next() then 1 else 2 endif => Mismatch 1:1
if n then skip else fail endif => Mismatch 1:1
if c then skip else 1 endif => Mismatch 1:1
% repeat
repeat(i in s)(next()) => ann
repeat(i in s)(post(x = i)) => ann
repeat(i in s)(c) => ann
repeat(i in s)(b) => NotKnown 1:1
repeat(i, j in s)(next()) => Mismatch 1:1
repeat(i in s, j in s)(next()) => Mismatch 1:1
repeat(i in s where c)(next()) => Mismatch 1:1
repeat(i in s)(i) => Mismatch 1:1
repeat(i in n)(next()) => Mismatch 1:1
scope(i in s)(next()) => Mismatch 1:1
keep(i in s)(a[i]) => ann
post(i in s)(b) => Mismatch 1:1
z(i in s)(next()) => Unknown 1:1
% in brackets
(next()) => ann
[next()] => Mismatch 1:1
[next() | i in s] => Mismatch 1:1
let { int: y = 1 } in next() => ann
let { ann: y = skip } in y => Unsupported 1:7
"#;

/// What is the same in a search as in a constraint, and what is known there.
pub const KNOWN_IN_SEARCHES: &str = r#"
x + 1 => var int
1 + sol(x) => int
1..sol(x) => set
1..x => NotKnown 1:2
[sol(x), uniform(1, 2)] => array of int
[x | i in s where sol(b)] => array of var int
if sol(b) then t else t endif => string
if b then t else t endif => NotKnown 1:1
"#;

/// In an output item all is known.
pub const OUTPUTS: &str = r#"
x => int
b => bool
a => array of int
g => grid of int
x + 1 => int
x = n => bool
g[1, x] => int
[t][x] => string
1..x => set
{x} => set
[i | i in s where b] => array of int
if b then t else t endif => string
if b then k else a endif => array of int
let { int: y = x } in y => int
let { var int: y = x } in y => int
p(x) => bool
f(x) => int
fix(i in s)(a[i]) => array of int
sol(x) => Mismatch 1:1
hasSol() => Mismatch 1:1
uniform(1, 2) => Mismatch 1:1
next() => Mismatch 1:1
skip => Mismatch 1:1
q(x) => Mismatch 1:1
"#;

/// In a body that an output item calls as well, but for `fix`.
pub const CALLED: &str = r#"
x => int
1..x => set
show(a) => string
fix(x) => Mismatch 1:1
sol(x) => Mismatch 1:1
hasSol() => Mismatch 1:1
uniform(1, 2) => Mismatch 1:1
next() => Mismatch 1:1
"#;

/// A data value names nothing but `array1d` and `array2d`.
pub const DATA: &str = r#"
1 => int
-1 => int
true => bool
"u" => string
{1, 2} => set
1..2 => set
[1, 2] => array of int
[|true|false|] => grid of bool
1 + 2 => int
if true then 1 else 2 endif => int
array1d(1..2, [1, 2]) => array of int
array2d(1..1, 1..2, [1, 2]) => grid of int
array1d([1, 2]) => Arity 1:1
n => Mismatch 1:1
f(1) => Mismatch 1:1
sum([1]) => Mismatch 1:1
next() => Mismatch 1:1
fix(1) => Mismatch 1:1
z => Unknown 1:1
z(1) => Unknown 1:1
1 + true => int
1 + "u" => Mismatch 1:3
sum(1, 2) => Arity 1:1
[1 | i in 1..2] => Mismatch 1:1
sum(i in 1..2)(1) => Mismatch 1:1
let { int: y = 1 } in 1 => Mismatch 1:1
"#;
