//! The search functions of the library, and models beside them.

/// The library that comes with the program.
pub const SEARCHES: &str = r#"function ann: first_solution() = next() /\ commit() /\ print();
function ann: all_solutions() =
  repeat(if next() then commit() /\ print() else break endif);
function ann: improve_min(var int: e) =
  repeat(if next() then commit() /\ print() /\ post(e < sol(e))
         else break endif);
function ann: improve_max(var int: e) =
  repeat(if next() then commit() /\ print() /\ post(e > sol(e))
         else break endif);
function ann: improve_quiet(var int: e) =
  repeat(if next() then commit() /\ post(e < sol(e)) else break endif);
function ann: minimize_bab(var int: e) = post(e = e) /\ improve_min(e);
function ann: maximize_bab(var int: e) = post(e = e) /\ improve_max(e);
function ann: minimize_lex(array[int] of var int: o) =
  post(forall(i in index_set(o))(o[i] = o[i])) /\
  repeat(if next() then commit() /\ print() /\
           post(exists(i in index_set(o))(o[i] < sol(o[i]) /\
             forall(j in index_set(o) where j < i)(o[j] = sol(o[j]))))
         else break endif);
function ann: minimize_lex_staged(array[int] of var int: o) =
  post(forall(i in index_set(o))(o[i] = o[i])) /\
  repeat(i in index_set(o))(
    scope(improve_quiet(o[i])) /\ hasSol() /\ post(o[i] = sol(o[i]))) /\
  print();
function ann: pareto_min(array[int] of var int: o) =
  clear_front() /\
  post(forall(i in index_set(o))(o[i] = o[i])) /\
  repeat(if next() then commit() /\ keep(o) /\
           post(exists(i in index_set(o))(o[i] < sol(o[i])))
         else break endif) /\
  print_front();
function ann: lns_min(var int: e, array[int] of var int: x,
                      int: cycles, int: percent, int: nodes) =
  post(e = e) /\ next() /\ commit() /\ print() /\
  repeat(c in 1..cycles)(
    scope(post(e < sol(e)) /\
      post(forall(i in index_set(x) where uniform(1, 100) <= percent)
             (x[i] = sol(x[i]))) /\
      time_limit(nodes, next()) /\ commit() /\ print()) \/ skip);
function ann: lns_max(var int: e, array[int] of var int: x,
                      int: cycles, int: percent, int: nodes) =
  post(e = e) /\ next() /\ commit() /\ print() /\
  repeat(c in 1..cycles)(
    scope(post(e > sol(e)) /\
      post(forall(i in index_set(x) where uniform(1, 100) <= percent)
             (x[i] = sol(x[i]))) /\
      time_limit(nodes, next()) /\ commit() /\ print()) \/ skip);
"#;

/// Goals that call the library: the answer.
pub const GOALS: &str = r#"
first_solution() => accepted
all_solutions() => accepted
improve_min(x) => accepted
improve_max(a[1]) => accepted
improve_quiet(x) => accepted
minimize_bab(x) => accepted
maximize_bab(sum(a)) => accepted
minimize_lex(a) => accepted
minimize_lex_staged([x, 1]) => accepted
pareto_min(a) => accepted
lns_min(x, a, 10, 50, 1000) => accepted
lns_max(x, a, 10, 50, 1000) => accepted
post(x > 1) /\ minimize_bab(x) => accepted
first_solution(x) => Arity 1:14
minimize_bab(a) => Mismatch 1:14
minimize_bab() => Arity 1:14
minimize_lex(g) => Mismatch 1:14
lns_min(x, a, x, 50, 1000) => NotKnown 1:14
minimize_most(x) => Unknown 1:14
minimize_bab(y) => Unknown 1:27
"#;

/// What the items of the model declare is not seen in the library, and hides it in the model.
pub const HIDING: &str = r#"
string: e; string: o; string: c; string: i; solve search all_solutions() => accepted
function ann: improve_min(string: e) = skip; solve search minimize_bab(1) => accepted
function ann: improve_min(string: e) = skip; solve search improve_min("u") => accepted
function ann: improve_min(string: e) = skip; solve search improve_min(1) => Mismatch 1:59
int: improve_min = 1; solve search minimize_bab(improve_min) => accepted
int: improve_min = 1; solve search improve_min(1) => Mismatch 1:36
constraint minimize_bab(1); solve satisfy => Mismatch 1:12
"#;
