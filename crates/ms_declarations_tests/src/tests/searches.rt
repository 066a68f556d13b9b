//! The searches that come with the program, each as a function.

pub const SEARCHES: [&str; 12] = [
    "function ann: first_solution() = next() /\\ commit() /\\ print()",
    "function ann: all_solutions() = repeat(if next() then commit() /\\ print() else break endif)",
    "function ann: improve_min(var int: e) = repeat(if next() then commit() /\\ print() /\\ post(e < sol(e)) else break endif)",
    "function ann: improve_max(var int: e) = repeat(if next() then commit() /\\ print() /\\ post(e > sol(e)) else break endif)",
    "function ann: improve_quiet(var int: e) = repeat(if next() then commit() /\\ post(e < sol(e)) else break endif)",
    "function ann: minimize_bab(var int: e) = post(e = e) /\\ improve_min(e)",
    "function ann: maximize_bab(var int: e) = post(e = e) /\\ improve_max(e)",
    "function ann: minimize_lex(array[int] of var int: o) = post(forall(i in index_set(o))(o[i] = o[i])) /\\ repeat(if next() then commit() /\\ print() /\\ post(exists(i in index_set(o))(o[i] < sol(o[i]) /\\ forall(j in index_set(o) where j < i)(o[j] = sol(o[j])))) else break endif)",
    "function ann: minimize_lex_staged(array[int] of var int: o) = post(forall(i in index_set(o))(o[i] = o[i])) /\\ repeat(i in index_set(o))( scope(improve_quiet(o[i])) /\\ hasSol() /\\ post(o[i] = sol(o[i]))) /\\ print()",
    "function ann: pareto_min(array[int] of var int: o) = clear_front() /\\ post(forall(i in index_set(o))(o[i] = o[i])) /\\ repeat(if next() then commit() /\\ keep(o) /\\ post(exists(i in index_set(o))(o[i] < sol(o[i]))) else break endif) /\\ print_front()",
    "function ann: lns_min(var int: e, array[int] of var int: x, int: cycles, int: percent, int: nodes) = post(e = e) /\\ next() /\\ commit() /\\ print() /\\ repeat(c in 1..cycles)( scope(post(e < sol(e)) /\\ post(forall(i in index_set(x) where uniform(1, 100) <= percent) (x[i] = sol(x[i]))) /\\ time_limit(nodes, next()) /\\ commit() /\\ print()) \\/ skip)",
    "function ann: lns_max(var int: e, array[int] of var int: x, int: cycles, int: percent, int: nodes) = post(e = e) /\\ next() /\\ commit() /\\ print() /\\ repeat(c in 1..cycles)( scope(post(e > sol(e)) /\\ post(forall(i in index_set(x) where uniform(1, 100) <= percent) (x[i] = sol(x[i]))) /\\ time_limit(nodes, next()) /\\ commit() /\\ print()) \\/ skip)",
];
