//! What an expression is at its top, and how many parts it has there.

use super::tokens;
use ms_copies::CopyTree;
use ms_parser::{chains_group, one_data, one_expression, one_model, some_answer, statement};
use ms_syntax::{Expr, Operator};
use std::test::Fail;

/// The kind of node, and how many operators, subscripts, elements, rows, generators, further
/// conditions or declarations it has.
fn shape(tree: &Expr) -> (&'static str, usize) {
    match tree {
        Expr::Let(_, declarations, _, _) => ("let", declarations.len()),
        Expr::Equivalence(_, links) => ("equivalence", links.len()),
        Expr::Implication(_, links) => ("implication", links.len()),
        Expr::Disjunction(_, links) => ("disjunction", links.len()),
        Expr::Conjunction(_, links) => ("conjunction", links.len()),
        Expr::Comparison(_, _) => ("comparison", 1),
        Expr::Membership(_, _) => ("membership", 1),
        Expr::Range(_, _) => ("range", 1),
        Expr::Sum(_, links) => ("sum", links.len()),
        Expr::Product(_, links) => ("product", links.len()),
        Expr::Concatenation(_, links) => ("concatenation", links.len()),
        Expr::Prefix(_, _, _) => ("sign", 1),
        Expr::Access(_, _, subscripts) => ("access", subscripts.len()),
        Expr::Number(_, _) => ("number", 0),
        Expr::Text(_, _) => ("text", 0),
        Expr::Truth(_, _) => ("truth", 0),
        Expr::Name(_, _) => ("name", 0),
        Expr::Call(_, _, arguments) => ("call", arguments.len()),
        Expr::GeneratorCall(_, _, generators, _) => ("call over", generators.list.len()),
        Expr::Parenthesis(_, _) => ("parentheses", 0),
        Expr::Array(_, elements) => ("array", elements.len()),
        Expr::Comprehension(_, _, generators) => ("comprehension", generators.list.len()),
        Expr::Rows(_, rows) => ("rows", rows.len()),
        Expr::Set(_, elements) => ("set", elements.len()),
        Expr::If(_, _, _, arms, _) => ("if", arms.len()),
    }
}

/// Expressions, what each is at its top, and how many parts it has there.
const FORMS: [(&str, &str, usize); 41] = [
    ("1", "number", 0),
    ("a", "name", 0),
    ("true", "truth", 0),
    ("\"a\"", "text", 0),
    ("f ( )", "call", 0),
    ("f ( a , 1 )", "call", 2),
    ("f ( i , j )", "call", 2),
    ("f ( i in s )", "call", 1),
    ("f ( i in s ) ( e )", "call over", 1),
    (
        "f ( i , j in 1 .. 2 , k in s where c ) ( e + 1 )",
        "call over",
        2,
    ),
    ("( a )", "parentheses", 0),
    ("( a ) + b", "sum", 1),
    ("[ ]", "array", 0),
    ("[ a ]", "array", 1),
    ("[ a , b , c ]", "array", 3),
    ("[ a | i in s ]", "comprehension", 1),
    ("[ a | i , j in s , k in t where c ]", "comprehension", 2),
    ("[| |]", "rows", 0),
    ("[| a , b | c , d |]", "rows", 2),
    ("{ }", "set", 0),
    ("{ a , b }", "set", 2),
    ("if a then b else c endif", "if", 0),
    (
        "if a then b elseif c then d elseif e then f else g endif",
        "if",
        2,
    ),
    ("a [ 1 ]", "access", 1),
    ("a [ 1 , 2 ] [ 3 ]", "access", 2),
    ("not a", "sign", 1),
    ("not a = b", "comparison", 1),
    ("- x [ 1 ]", "sign", 1),
    ("- 1 + 2", "sum", 1),
    ("a ++ b ++ c", "concatenation", 2),
    ("a * b div c mod d", "product", 3),
    ("a <-> b -> c <- d \\/ e xor f /\\ g = h", "equivalence", 1),
    ("b -> c <- d \\/ e", "implication", 2),
    ("d \\/ e xor f /\\ g", "disjunction", 2),
    ("next ( ) /\\ skip", "conjunction", 1),
    ("a = b /\\ c = d", "conjunction", 1),
    ("a in 1 .. 2 + 3 * 4 div 5 mod 6", "membership", 1),
    ("1 .. 2 + 3", "range", 1),
    ("let { int : a } in a", "let", 1),
    (
        "let { var 1 .. 2 : a = 1 ; set of int : b :: n ( a ) :: m ; } in a + b",
        "let",
        2,
    ),
    (
        "let { array [ int , 1 .. 2 ] of set of 1 .. 2 : a } in ( let { s : b ; } in b )",
        "let",
        1,
    ),
];

#[test]
fn reads_each_form(rt: HostRuntime) -> Result<(), Fail> {
    for (case, kind, parts) in FORMS {
        match statement(rt.alloc(), &tokens(&rt, rt.alloc(), case)?) {
            Ok(tree) => {
                let (found, count) = shape(&tree);
                assert_eq!(rt; found, kind, "{case}");
                assert_eq!(rt; count, parts, "{case}");
                let copied = tree.copy(rt.alloc())?;
                assert_eq!(rt; shape(&copied), (kind, parts), "{case}");
            }
            Err(_) => assert!(rt; false, "{case}"),
        }
    }
    Ok(())
}

/// The number that a sum of numbers comes to, its operators from the left.
fn total(tree: &Expr) -> Option<u64> {
    let Expr::Sum(first, links) = tree else {
        return None;
    };
    let mut total = number(first)?;
    for link in links {
        let next = number(&link.operand)?;
        total = match link.operator {
            Operator::Plus => total.checked_add(next)?,
            Operator::Minus => total.checked_sub(next)?,
            _ => return None,
        };
    }
    Some(total)
}

fn number(tree: &Expr) -> Option<u64> {
    match tree {
        Expr::Number(_, number) => Some(*number),
        _ => None,
    }
}

/// Sums of numbers with what they come to.
const SUMS: [(&str, u64); 3] = [("7 - 2 - 1", 4), ("7 - 2 + 1", 6), ("1 + 2 + 3 - 4", 2)];

#[test]
fn chains_keep_their_order(rt: HostRuntime) -> Result<(), Fail> {
    for (case, sum) in SUMS {
        match statement(rt.alloc(), &tokens(&rt, rt.alloc(), case)?) {
            Ok(tree) => assert_eq!(rt; total(&tree), Some(sum), "{case}"),
            Err(_) => assert!(rt; false, "{case}"),
        }
    }
    Ok(())
}

#[test]
fn laws_are_there(_rt: HostRuntime) -> Result<(), Fail> {
    one_expression();
    one_model();
    one_data();
    some_answer();
    chains_group();
    Ok(())
}
