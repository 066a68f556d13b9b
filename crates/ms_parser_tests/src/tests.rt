//! Real texts, by the lexer.

mod models;
mod places;
mod shapes;

use ms_parser::{ParseFault, statement};
use ms_syntax::Spanned;
use std::alloc::Global;
use std::process::Abort;
use std::test::Fail;

/// The tokens of a text, which is no longer than a file may be.
pub fn tokens(rt: &impl Abort, alloc: Global, text: &str) -> Result<Vec<Spanned>, Fail> {
    let bytes = text.as_bytes();
    assert!(rt; bytes.len() <= 1048576);
    Ok(ms_lexer::tokens(alloc, 0, bytes)?)
}

/// The token that cannot stand there, where that is the answer.
pub fn wrong_at<T: Drop>(read: Result<T, ParseFault>) -> Option<usize> {
    match read {
        Err(ParseFault::Syntax(k)) => Some(k),
        _ => None,
    }
}

/// The token that nests too deep, where that is the answer.
pub fn deep_at<T: Drop>(read: Result<T, ParseFault>) -> Option<usize> {
    match read {
        Err(ParseFault::Deep(k)) => Some(k),
        _ => None,
    }
}

/// Texts that are no expression, with the first wrong token.
const WRONG: [(&str, usize); 38] = [
    ("", 0),
    ("a < b < c", 3),
    ("a = b != c", 3),
    ("a in b in c", 3),
    ("1 .. 2 .. 3", 3),
    ("a b", 1),
    ("a [", 2),
    ("a [ 1 , 2 , 3 ]", 5),
    ("a [ ]", 2),
    ("f ( a ) ( b )", 4),
    ("f ( i in s ) ( b , c )", 8),
    ("f ( i in s = t ) ( b )", 8),
    ("f ( i in s where c ) )", 8),
    ("f ( a where", 3),
    ("f ( a + 1 , i in s where", 9),
    ("f ( i in s , j where", 7),
    ("f ( i in s , j ) (", 8),
    ("[ a | i in s , j in t where ]", 11),
    ("[ a , b | i in s ]", 4),
    ("[ a | i s", 4),
    ("[ a | i in s = t ]", 6),
    ("[| a | |]", 3),
    ("if a then b endif", 4),
    ("if a then b elseif c else d endif", 6),
    ("{ a , }", 3),
    ("- - a", 1),
    ("not not a", 1),
    ("1 (", 1),
    ("( a ) ( b )", 3),
    ("a + let", 2),
    ("let { } in a", 2),
    ("let { int : a ; ; } in a", 6),
    ("let { int a } in a", 3),
    ("let { array [ int , int , int ] of int : a } in a", 7),
    ("let { int : a = 1 :: n } in a", 7),
    ("let { int : a } b", 6),
    ("a ;", 1),
    ("a <->", 2),
];

#[test]
fn names_the_first_wrong_token(rt: HostRuntime) -> Result<(), Fail> {
    for (case, at) in WRONG {
        let read = statement(rt.alloc(), &tokens(&rt, rt.alloc(), case)?);
        assert_eq!(rt; wrong_at(read), Some(at), "{case}");
    }
    Ok(())
}

/// `count` times the first, then the middle, then `count` times the last.
fn nested(
    rt: &impl Abort,
    alloc: Global,
    first: &str,
    middle: &str,
    last: &str,
    count: usize,
) -> Result<Vec<Spanned>, Fail> {
    let mut text = String::new(alloc);
    for _ in 0..count {
        text.push_str(first)?;
    }
    text.push_str(middle)?;
    for _ in 0..count {
        text.push_str(last)?;
    }
    tokens(rt, alloc, &text)
}

/// What opens, stands inside and closes, and which token is the first too deep where it is there 201
/// times.
const NESTINGS: [(&str, &str, &str, usize); 9] = [
    ("( ", "1", " )", 200),
    ("[ ", "1", " ]", 200),
    ("{ ", "1", " }", 200),
    ("[| ", "1", " |]", 200),
    ("f ( ", "1", " )", 401),
    (
        "1 <-> 1 -> 1 \\/ 1 /\\ 1 = 1 in 1 .. 1 + 1 * 1 ++ - f ( ",
        "1",
        " )",
        4622,
    ),
    ("a [ ", "1", " ]", 401),
    ("if ", "1", " then 1 else 1 endif", 200),
    ("let { int : a = ", "1", " } in 1", 1201),
];

#[test]
fn nests_so_deep(rt: HostRuntime) -> Result<(), Fail> {
    for (first, middle, last, at) in NESTINGS {
        let deep = nested(&rt, rt.alloc(), first, middle, last, 200)?;
        assert!(rt; statement(rt.alloc(), &deep).is_ok(), "{first}");
        let deeper = nested(&rt, rt.alloc(), first, middle, last, 201)?;
        assert_eq!(rt;
            deep_at(statement(rt.alloc(), &deeper)),
            Some(at),
            "{first}"
        );
    }
    // A bracket that is too deep and cannot stand there is a wrong token.
    let wrong = nested(&rt, rt.alloc(), "( ", "1 ( 1", " )", 200)?;
    assert_eq!(rt; wrong_at(statement(rt.alloc(), &wrong)), Some(201));
    let chain = nested(&rt, rt.alloc(), "1 + ", "1", " - 1", 50000)?;
    assert!(rt; statement(rt.alloc(), &chain).is_ok());
    Ok(())
}
