//! Models and data.

use super::{deep_at, tokens, wrong_at};
use ms_parser::{assignments, model};
use ms_syntax::Spanned;
use std::alloc::Global;
use std::process::Abort;
use std::test::Fail;

/// Models, how many items they have, and whether the last `;` is there.
const MODELS: [(&str, usize, bool); 29] = [
    ("", 0, false),
    ("include \"a\"", 1, false),
    ("include \"a\" ; include \"b\" ;", 2, true),
    ("bool : a ; int : b ; string : c ; ann : d", 4, false),
    (
        "set of int : a ; set of 1 .. 2 : b ; 1 .. 2 : c ; s : d",
        4,
        false,
    ),
    (
        "var int : a ; par int : b ; var 1 .. 2 : c ; var s : d ;",
        4,
        true,
    ),
    ("array [ int ] of int : a", 1, false),
    ("array [ 1 .. 2 , int ] of var 1 .. 3 : a", 1, false),
    (
        "int : a = 1 ; int : b :: n ; int : c :: n ( a ) :: m = a",
        3,
        false,
    ),
    (
        "1 .. 2 : a = 1 ; s : b :: n ; f ( ) : c :: n ( 1 , 2 ) = 1",
        3,
        false,
    ),
    ("enum E", 1, false),
    ("enum E = { }", 1, false),
    ("enum E = { A }", 1, false),
    ("enum E = { A , B , C } ;", 1, true),
    ("x = 1 ; y = [ a | i in s ]", 2, false),
    ("constraint a < b", 1, false),
    (
        "constraint a :: n ; constraint b :: n ( 1 , 2 ) :: m",
        2,
        false,
    ),
    ("solve satisfy", 1, false),
    ("solve :: n satisfy ;", 1, true),
    ("solve minimize a + b", 1, false),
    ("solve :: n ( a ) :: m maximize a", 1, false),
    ("solve search f ( )", 1, false),
    ("output [ a ]", 1, false),
    ("predicate p ( ) = true", 1, false),
    ("predicate p ( int : a ) = a > 1 ;", 1, true),
    (
        "predicate p ( var int : a , array [ int ] of var bool : b ) = a",
        1,
        false,
    ),
    ("function ann : f ( ) = a", 1, false),
    (
        "function var 1 .. 2 : f ( s : a , 1 .. 2 : b ) = 1",
        1,
        false,
    ),
    (
        "int : a ; a = 1 ; constraint a = 1 ; solve satisfy ; output [ ] ;",
        5,
        true,
    ),
];

#[test]
fn reads_each_item(rt: HostRuntime) -> Result<(), Fail> {
    for (case, count, closed) in MODELS {
        match model(rt.alloc(), &tokens(&rt, rt.alloc(), case)?) {
            Ok(tree) => {
                assert_eq!(rt; tree.items.len(), count, "{case}");
                assert_eq!(rt; tree.closed, closed, "{case}");
            }
            Err(_) => assert!(rt; false, "{case}"),
        }
    }
    Ok(())
}

/// Texts that are no model, with the first wrong token.
const WRONG: [(&str, usize); 59] = [
    ("constraint a < b < c ; solve satisfy ;", 4),
    (";", 0),
    ("; int : a", 0),
    ("int : a ; ;", 4),
    ("int : a ; }", 4),
    ("int : a }", 3),
    ("satisfy", 0),
    ("let { int : a } in a", 0),
    ("include", 1),
    ("include a", 1),
    ("include \"a\" a", 2),
    ("int", 1),
    ("int a", 1),
    ("int : 3", 2),
    ("int : a b", 3),
    ("int : a ::", 4),
    ("int : a :: n ( )", 6),
    ("int : a =", 4),
    ("int : a = 1 :: n", 5),
    ("var : a", 1),
    ("var par int : a", 1),
    ("array [ ] of int : a", 2),
    ("array [ int , int , int ] of int : a", 5),
    ("array [ int ] of array [ int ] of int : a", 5),
    ("x", 1),
    ("x :: n", 1),
    ("x = 1 : y", 3),
    ("x = 1 :: n", 3),
    ("x + 1 = 2", 3),
    ("x [ 1 ] = 2", 4),
    ("( x ) = 2", 3),
    ("x < 1 : y", 1),
    ("enum 3", 1),
    ("enum E E", 2),
    ("enum E = A", 3),
    ("enum E = { A , }", 6),
    ("enum E = { A B", 5),
    ("enum E = { A } ++", 6),
    ("constraint", 1),
    ("constraint a b", 2),
    ("constraint a :: ( b )", 3),
    ("constraint a :: n = 1", 4),
    ("solve", 1),
    ("solve a", 1),
    ("solve satisfy 1", 2),
    ("solve :: n a", 3),
    ("solve minimize", 2),
    ("solve minimize a :: n", 3),
    ("output", 1),
    ("predicate ( )", 1),
    ("predicate p = true", 2),
    ("predicate p ( int : a , ) = true", 7),
    ("predicate p ( int a )", 4),
    ("predicate p ( a )", 4),
    ("predicate p ( ) true", 4),
    ("predicate p ( int : a = 1 )", 6),
    ("function f ( ) = 1", 4),
    ("function int f ( ) = 1", 2),
    ("function int : f ( int : a ) ( b", 9),
];

#[test]
fn names_the_first_wrong_token_of_a_model(rt: HostRuntime) -> Result<(), Fail> {
    for (case, at) in WRONG {
        let read = model(rt.alloc(), &tokens(&rt, rt.alloc(), case)?);
        assert_eq!(rt; wrong_at(read), Some(at), "{case}");
    }
    Ok(())
}

/// Data, how many assignments it has, and whether the last `;` is there.
const DATA: [(&str, usize, bool); 4] = [
    ("", 0, false),
    ("x = 1", 1, false),
    ("n = 8 ;", 1, true),
    ("x = [ 1 , 2 ] ; y = { } ; z = [| 1 | 2 |]", 3, false),
];

/// Texts that are no data, with the first wrong token.
const WRONG_DATA: [(&str, usize); 12] = [
    (";", 0),
    ("; x = 1", 0),
    ("1 = 1", 0),
    ("int : x = 1", 0),
    ("x", 1),
    ("x 1", 1),
    ("x : 1", 1),
    ("x =", 2),
    ("x = 1 y", 3),
    ("x = 1 }", 3),
    ("x = 1 ; ;", 4),
    ("x = 1 ; y", 5),
];

#[test]
fn reads_data(rt: HostRuntime) -> Result<(), Fail> {
    for (case, count, closed) in DATA {
        match assignments(rt.alloc(), &tokens(&rt, rt.alloc(), case)?) {
            Ok(data) => {
                assert_eq!(rt; data.list.len(), count, "{case}");
                assert_eq!(rt; data.closed, closed, "{case}");
            }
            Err(_) => assert!(rt; false, "{case}"),
        }
    }
    for (case, at) in WRONG_DATA {
        let read = assignments(rt.alloc(), &tokens(&rt, rt.alloc(), case)?);
        assert_eq!(rt; wrong_at(read), Some(at), "{case}");
    }
    Ok(())
}

/// A number in so many parentheses, with a text before it and one behind it.
fn within(
    rt: &impl Abort,
    alloc: Global,
    before: &str,
    after: &str,
    count: usize,
) -> Result<Vec<Spanned>, Fail> {
    let mut text = String::from_str(alloc, before)?;
    for _ in 0..count {
        text.push_str(" (")?;
    }
    text.push_str(" 1")?;
    for _ in 0..count {
        text.push_str(" )")?;
    }
    text.push_str(after)?;
    tokens(rt, alloc, &text)
}

/// What stands before parentheses and behind them, how many of these are read, and which token is
/// the first too deep with one more.
const NESTINGS: [(&str, &str, usize, usize); 7] = [
    ("constraint", "", 200, 201),
    ("enum E = { A } ; x =", "", 200, 209),
    ("predicate p (", " : a ) = 1", 199, 202),
    ("array [", " ] of int : a", 199, 201),
    ("predicate p ( array [", " ] of int : a ) = 1", 198, 203),
    ("solve :: n (", " ) satisfy", 199, 203),
    ("constraint a :: n (", " )", 199, 204),
];

/// A text with brackets 200 deep is read, and one level more is too deep.
#[test]
fn items_nest_so_deep(rt: HostRuntime) -> Result<(), Fail> {
    for (first, last, count, at) in NESTINGS {
        let deep = within(&rt, rt.alloc(), first, last, count)?;
        assert!(rt; model(rt.alloc(), &deep).is_ok(), "{first}");
        let deeper = within(&rt, rt.alloc(), first, last, count + 1)?;
        assert_eq!(rt; deep_at(model(rt.alloc(), &deeper)), Some(at), "{first}");
    }
    let data = within(&rt, rt.alloc(), "x =", "", 201)?;
    assert_eq!(rt; deep_at(assignments(rt.alloc(), &data)), Some(202));
    Ok(())
}
