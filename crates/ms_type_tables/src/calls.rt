//! The built-in names: each with calls that have a type, and with the nearest that have none.

/// Functions of arrays, in a constraint.
pub const OF_ARRAYS: &str = r#"
% forall and exists
forall(d) => var bool
forall(h) => bool
forall([|b|c|]) => var bool
forall([]) => bool
forall(a) => Mismatch 1:1
forall(b) => Mismatch 1:1
forall() => Arity 1:1
exists(d) => var bool
exists([|c|]) => bool
exists(k) => Mismatch 1:1
exists(d, d) => Arity 1:1
% sum
sum(a) => var int
sum(g) => var int
sum(k) => int
sum(h) => int
sum([]) => int
sum(x) => Mismatch 1:1
sum([t]) => Mismatch 1:1
sum(1, 2) => Arity 1:1
% min and max
min(a) => var int
min(m) => int
min(1, x) => var int
min(c, c) => int
min(1) => Mismatch 1:1
min(k, 1) => Mismatch 1:1
min() => Arity 1:1
max(k) => int
max(g) => var int
max(n, 2) => int
max(b, c) => var int
max([t]) => Mismatch 1:1
max(1, t) => Mismatch 1:1
max(1, 2, 3) => Arity 1:1
% count
count(a, 1) => var int
count(k, x) => var int
count(h, 1) => int
count([], 1) => int
count(g, 1) => Mismatch 1:1
count(a, t) => Mismatch 1:1
count([t], 1) => Mismatch 1:1
count(a) => Arity 1:1
count(a, 1, 1) => Arity 1:1
% all_different and alldifferent
all_different(a) => var bool
all_different(g) => var bool
all_different(1) => Mismatch 1:1
all_different() => Arity 1:1
alldifferent(k) => bool
alldifferent(m) => bool
alldifferent([t]) => Mismatch 1:1
alldifferent(a, a) => Arity 1:1
% table
table(a, m) => var bool
table(k, m) => bool
table(d, [|c|]) => var bool
table(a, [| |]) => var bool
table(a, g) => NotKnown 1:1
table(g, m) => Mismatch 1:1
table(a, k) => Mismatch 1:1
table(a, [|t|]) => Mismatch 1:1
table([t], m) => Mismatch 1:1
table(a) => Arity 1:1
% length
length(a) => int
length(g) => int
length([t]) => int
length([]) => int
length([|t|]) => int
length(x) => Mismatch 1:1
length(s) => Mismatch 1:1
length(t) => Mismatch 1:1
length(a, a) => Arity 1:1
% index_set, index_set_1of2 and index_set_2of2
index_set(a) => set
index_set([t]) => set
index_set(g) => Mismatch 1:1
index_set(s) => Mismatch 1:1
index_set() => Arity 1:1
index_set_1of2(g) => set
index_set_1of2([|t|]) => set
index_set_1of2(a) => Mismatch 1:1
index_set_1of2(g, 1) => Arity 1:1
index_set_2of2(m) => set
index_set_2of2(k) => Mismatch 1:1
index_set_2of2() => Arity 1:1
% array1d
array1d(s, a) => array of var int
array1d(s, m) => array of int
array1d(s, [t]) => array of string
array1d({}, []) => array of nothing
array1d(1, a) => Mismatch 1:1
array1d(s, x) => Mismatch 1:1
array1d(1..x, a) => NotKnown 1:10
array1d(a) => Arity 1:1
% array2d
array2d(s, s, d) => grid of var bool
array2d(s, s, m) => grid of int
array2d(s, s, [t]) => grid of string
array2d(1, s, a) => Mismatch 1:1
array2d(s, 1, a) => Mismatch 1:1
array2d(s, s, t) => Mismatch 1:1
array2d(s, a) => Arity 1:1
"#;

/// Functions of other values, in a constraint.
pub const OF_VALUES: &str = r#"
% abs
abs(x) => var int
abs(n) => int
abs(b) => var int
abs(t) => Mismatch 1:1
abs(k) => Mismatch 1:1
abs() => Arity 1:1
% bool2int
bool2int(b) => var int
bool2int(c) => int
bool2int(1) => Mismatch 1:1
bool2int(d) => Mismatch 1:1
bool2int(b, b) => Arity 1:1
% card
card(s) => int
card({}) => int
card(k) => Mismatch 1:1
card(1) => Mismatch 1:1
card() => Arity 1:1
% show
show(n) => string
show(c) => string
show(s) => string
show(k) => string
show(m) => string
show([]) => string
show(x) => NotKnown 1:1
show(a) => NotKnown 1:1
show(t) => Mismatch 1:1
show([t]) => Mismatch 1:1
show(1, 2) => Arity 1:1
% functions and predicates of the model
f(n) => int
f(c) => int
f(x) => NotKnown 1:1
f(t) => Mismatch 1:1
f() => Arity 1:1
p(x) => var bool
p(c) => var bool
p(s) => Mismatch 1:1
p(x, x) => Arity 1:1
o(a) => var bool
o(h) => var bool
o([]) => var bool
o(g) => Mismatch 1:1
o([t]) => Mismatch 1:1
% names that are no function, and functions that are not called
x(1) => Mismatch 1:1
f => Mismatch 1:1
sum => Mismatch 1:1
sum = 1 => Mismatch 1:1
sum[1] => Mismatch 1:1
z => Unknown 1:1
z(1) => Unknown 1:1
z(y) => Unknown 1:3
cumulative(k, k, k, 1) => Unknown 1:1
circuit(a) => Unknown 1:1
% a local hides a function
let { int: f = 1 } in f => int
let { int: f = 1 } in f(1) => Mismatch 1:23
"#;

/// In an output item.
pub const OF_OUTPUTS: &str = r#"
% show
show(x) => string
show(b) => string
show(a) => string
show(g) => string
show({x}) => string
show(t) => Mismatch 1:1
show([t]) => Mismatch 1:1
show() => Arity 1:1
% fix
fix(x) => int
fix(b) => bool
fix(n) => int
fix(a) => array of int
fix(d) => array of bool
fix(g) => grid of int
fix([t]) => array of string
fix(s) => Mismatch 1:1
fix(t) => Mismatch 1:1
fix() => Arity 1:1
fix(x, x) => Arity 1:1
"#;

/// What the search gives, in a search.
pub const OF_INCUMBENTS: &str = r#"
% sol
sol(x) => int
sol(b) => bool
sol(n) => int
sol(a[1] + x) => int
sol(x > 1) => bool
sol(a) => Mismatch 1:1
sol(s) => Mismatch 1:1
sol(t) => Mismatch 1:1
sol(next()) => Mismatch 1:1
sol() => Arity 1:1
sol(x, x) => Arity 1:1
% hasSol
hasSol() => bool
hasSol => Mismatch 1:1
hasSol(1) => Arity 1:1
% uniform
uniform(1, n) => int
uniform(c, sol(x)) => int
uniform(1, x) => NotKnown 1:1
uniform(x, 1) => NotKnown 1:1
uniform(1, t) => Mismatch 1:1
uniform(1) => Arity 1:1
% fix
fix(x) => Mismatch 1:1
fix(n) => Mismatch 1:1
fix() => Arity 1:1
"#;

/// Searches.
pub const STEPS: &str = r#"
% next
next() => ann
next => Mismatch 1:1
next(1) => Arity 1:1
% post
post(b) => ann
post(c) => ann
post(x > sol(x)) => ann
post(1) => Mismatch 1:1
post(next()) => Mismatch 1:1
post(d) => Mismatch 1:1
post() => Arity 1:1
% commit
commit() => ann
commit(x) => Arity 1:1
% print
print() => ann
print(t) => ann
print(show(sol(x))) => ann
print(show(x)) => NotKnown 1:7
print(1) => Mismatch 1:1
print(t, t) => Arity 1:1
% scope
scope(next()) => ann
scope(c) => ann
scope(b) => NotKnown 1:1
scope(1) => Mismatch 1:1
scope() => Arity 1:1
% repeat
repeat(next()) => ann
repeat(c) => ann
repeat(b) => NotKnown 1:1
repeat(1) => Mismatch 1:1
repeat(next(), next()) => Arity 1:1
% break, fail and skip
break => ann
break() => Mismatch 1:1
break(1) => Arity 1:1
fail => ann
fail() => Mismatch 1:1
fail(1) => Arity 1:1
skip => ann
skip() => Mismatch 1:1
skip(c) => Arity 1:1
% time_limit
time_limit(n, next()) => ann
time_limit(c, c) => ann
time_limit(sol(x), skip) => ann
time_limit(x, next()) => NotKnown 1:1
time_limit(n, b) => NotKnown 1:1
time_limit(t, next()) => Mismatch 1:1
time_limit(n, 1) => Mismatch 1:1
time_limit(n) => Arity 1:1
% keep
keep(a) => ann
keep(k) => ann
keep(d) => ann
keep([]) => ann
keep(g) => Mismatch 1:1
keep(x) => Mismatch 1:1
keep([t]) => Mismatch 1:1
keep() => Arity 1:1
% clear_front and print_front
clear_front() => ann
clear_front(1) => Arity 1:1
print_front() => ann
print_front(a) => Arity 1:1
% search functions of the model
q(x) => ann
q(1) => ann
q(t) => Mismatch 1:1
q() => Arity 1:1
r(next(), n) => ann
r(c, n) => ann
r(next(), x) => NotKnown 1:1
r(b, n) => NotKnown 1:1
r(n, n) => Mismatch 1:1
r(skip) => Arity 1:1
"#;

/// What stands in searches alone, in a constraint: a wrong number of arguments comes first.
pub const BARRED: &str = r#"
sol(x) => Mismatch 1:1
sol() => Arity 1:1
hasSol() => Mismatch 1:1
uniform(1, 2) => Mismatch 1:1
uniform(1) => Arity 1:1
next() => Mismatch 1:1
next(1) => Arity 1:1
post(b) => Mismatch 1:1
commit() => Mismatch 1:1
print() => Mismatch 1:1
print(t) => Mismatch 1:1
scope(c) => Mismatch 1:1
repeat(c) => Mismatch 1:1
repeat(i in s)(c) => Mismatch 1:1
break => Mismatch 1:1
fail => Mismatch 1:1
skip => Mismatch 1:1
time_limit(n, c) => Mismatch 1:1
keep(a) => Mismatch 1:1
clear_front() => Mismatch 1:1
print_front() => Mismatch 1:1
q(x) => Mismatch 1:1
q() => Arity 1:1
fix(x) => Mismatch 1:1
fix() => Arity 1:1
c /\ next() => Mismatch 1:6
if next() then c else c endif => Mismatch 1:4
"#;
