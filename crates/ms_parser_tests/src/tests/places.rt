//! Where nodes of trees stand: line and column, both from 1.

use super::tokens;
use ms_parser::{assignments, model, statement};
use ms_syntax::{Expr, Generators, Item, Place};
use std::test::Fail;

/// Expressions with their line and column.
const EXPRESSIONS: [(&str, u32, u32); 25] = [
    ("1", 1, 1),
    ("  x", 1, 3),
    ("% nothing\n\t\"a\"", 2, 2),
    ("not a", 1, 1),
    ("- x[1]", 1, 1),
    ("xs[1][2]", 1, 1),
    ("(a + b) * c", 1, 9),
    ("a + b", 1, 3),
    ("a + b - c", 1, 7),
    ("a ++ b ++ c", 1, 3),
    ("a\n  * b\n  div c", 3, 3),
    ("a -> b <- c", 1, 8),
    ("a <-> b <-> c", 1, 9),
    ("a \\/ b xor c", 1, 8),
    ("a /\\ b", 1, 3),
    ("a + b < c * d", 1, 7),
    ("x in 1..2", 1, 3),
    ("1 .. 2", 1, 3),
    ("f(a)", 1, 1),
    ("forall(i in s)(e)", 1, 1),
    (" [a | i in s]", 1, 2),
    ("[| a |]", 1, 1),
    ("{a}", 1, 1),
    ("if a then b else c endif", 1, 1),
    ("let { int: a } in a + b", 1, 1),
];

#[test]
fn expressions_stand_at_their_first_token_or_operator(rt: HostRuntime) -> Result<(), Fail> {
    for (case, line, col) in EXPRESSIONS {
        match statement(rt.alloc(), &tokens(&rt, rt.alloc(), case)?) {
            Ok(tree) => assert_eq!(rt; at(tree.place()), (line, col), "{case}"),
            Err(_) => assert!(rt; false, "{case}"),
        }
    }
    Ok(())
}

fn at(place: Place) -> (u32, u32) {
    (place.line, place.col)
}

/// The generators of a comprehension, or of a call over generators.
fn generators(tree: &Expr) -> Option<&Generators> {
    match tree {
        Expr::Comprehension(_, _, generators) => Some(generators),
        Expr::GeneratorCall(_, _, generators, _) => Some(generators),
        _ => None,
    }
}

/// Expressions over two generators, with the line and the column of each.
const GENERATORS: [(&str, [(u32, u32); 2]); 3] = [
    ("[a | i, j in s,\n k in t]", [(1, 6), (2, 2)]),
    ("sum(i, j in s, k in t)(a)", [(1, 5), (1, 16)]),
    ("sum(i in s,\n  j, k in t where c)(a)", [(1, 5), (2, 3)]),
];

#[test]
fn generators_stand_at_their_first_name(rt: HostRuntime) -> Result<(), Fail> {
    for (case, wanted) in GENERATORS {
        match statement(rt.alloc(), &tokens(&rt, rt.alloc(), case)?) {
            Ok(tree) => match generators(&tree) {
                Some(found) => {
                    assert_eq!(rt; found.list.len(), 2, "{case}");
                    for (generator, wanted) in found.list.iter().zip(wanted) {
                        assert_eq!(rt; at(generator.place()), wanted, "{case}");
                    }
                }
                None => assert!(rt; false, "{case}"),
            },
            Err(_) => assert!(rt; false, "{case}"),
        }
    }
    Ok(())
}

/// Items, one a line, each a column further than the one before, and from the first again after four.
const ITEMS: [&str; 10] = [
    "include \"a\";",
    " enum E = {A};",
    "  1..2: x;",
    "   var int: y :: n = 1;",
    "y = 2;",
    " constraint x < y;",
    "  solve :: n satisfy;",
    "   output [x];",
    "predicate p(int: a) = a > 1;",
    " function int: f() = 1",
];

#[test]
fn items_stand_at_their_first_token(rt: HostRuntime) -> Result<(), Fail> {
    let mut text = String::new(rt.alloc());
    for line in ITEMS {
        text.push_str(line)?;
        text.push_str("\n")?;
    }
    match model(rt.alloc(), &tokens(&rt, rt.alloc(), &text)?) {
        Ok(tree) => {
            assert_eq!(rt; tree.items.len(), 10);
            for (k, item) in tree.items.iter().enumerate() {
                let wanted = (k as u32 + 1, k as u32 % 4 + 1);
                assert_eq!(rt; at(item.place()), wanted);
            }
        }
        Err(_) => assert!(rt; false),
    }
    Ok(())
}

#[test]
fn parts_of_items_stand_where_they_begin(rt: HostRuntime) -> Result<(), Fail> {
    let text = "enum E = {A,\n B}; var int: y :: n = 1; solve :: n minimize y";
    match model(rt.alloc(), &tokens(&rt, rt.alloc(), text)?) {
        Ok(tree) => match tree.items.as_slice() {
            [
                Item::Enum(_, _, Some(names)),
                Item::Declare(declared),
                Item::Solve(_, notes, _),
            ] => {
                for (name, wanted) in names.iter().zip([(1, 11), (2, 2)]) {
                    assert_eq!(rt; at(name.place), wanted);
                }
                assert_eq!(rt; at(declared.place), (2, 6));
                for note in declared.notes.iter() {
                    assert_eq!(rt; at(note.place), (2, 17));
                }
                for note in notes.iter() {
                    assert_eq!(rt; at(note.place), (2, 33));
                }
            }
            _ => assert!(rt; false),
        },
        Err(_) => assert!(rt; false),
    }
    match assignments(rt.alloc(), &tokens(&rt, rt.alloc(), "x = 1;\n y = 2")?) {
        Ok(data) => {
            for (pair, wanted) in data.list.iter().zip([(1, 1), (2, 2)]) {
                assert_eq!(rt; at(pair.place), wanted);
            }
        }
        Err(_) => assert!(rt; false),
    }
    Ok(())
}
