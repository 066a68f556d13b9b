use crate::shown::{code, item};
use ms_code::Item;
use ms_items::{declarers_declare, declaring_items};
use ms_names::Scope;
use ms_parser::{model, statement};
use ms_syntax::Tree;
use ms_types::{Typed, check, check_expression};
use ms_typing::{ExprType, Scalar, Shape, Surroundings};
use std::alloc::{AllocError, Global};
use std::process::Abort;
use std::test::Fail;

/// Two functions, a predicate and a search, with their typed trees; where all is known, `true` is a Boolean that needs no
/// conversion.
const LIBRARY: &str =
    "function int: twice(int: a) = a + a; predicate always() = true; function int: four() = twice(2); function ann: walk(int: c) = next() /\\ commit();";

const LIBRARY_ITEMS: [&str; 4] = [
    "int; of int; is (local0 + local0); known (local0 + local0)",
    "var bool; is [var bool true]; known true",
    "int; is l0 2; known l0 2",
    "search; of int; is (built /\\ built); known none",
];

/// A model with each kind of item but functions, with the typed trees.
const EACH: &str =
    "include \"globals.mzn\"; int: n = 3; array[1..n, int] of int: g; var 1..n: y; bool: k; var int: z = k; set of 1..n: s = 1..2; string: t = \"a\"; constraint y > n; constraint k; solve minimize k; output [\"a\", show(y)];";

const EACH_ITEMS: [&str; 12] = [
    "include",
    "int; in none; is 3",
    "grid of int; over (1 .. m0); over none; in none; is none",
    "var int; in (1 .. m0); is none",
    "bool; in none; is none",
    "var int; in none; is [var int m3]",
    "set; in (1 .. m0); is (1 .. 2)",
    "string; in none; is text",
    "constraint (m2 > m0)",
    "constraint [var bool m3]",
    "minimize [int m3]",
    "output line of string text built m2",
];

/// A value before the declaration of its name, and behind it.
const BEFORE: &str = "k = true; int: k; solve satisfy;";

const BEFORE_ITEMS: [&str; 3] = ["assign m0 [int true]", "int; in none; is none", "satisfy"];

const BEHIND: &str = "int: k; k = true; solve satisfy;";

const BEHIND_ITEMS: [&str; 3] = ["int; in none; is none", "assign m0 [int true]", "satisfy"];

/// A value for a function, and for a name that is not declared.
const NOWHERE: &str = "predicate p() = true; p = 1; q = 2; solve satisfy;";

const NOWHERE_ITEMS: [&str; 4] = [
    "var bool; is [var bool true]; known true",
    "assign none 1",
    "assign none 2",
    "satisfy",
];

/// Functions of the model, of which one has the name of one of the library.
const FUNCTIONS: &str =
    "predicate far(var int: u, int: v) = u > v; function int: twice(bool: c) = c; constraint far(true, twice(true)); solve maximize 1;";

const FUNCTIONS_ITEMS: [&str; 4] = [
    "var bool; of var int; of int; is (local1 > local0); known (local1 > local0)",
    "int; of bool; is [int local0]; known [int local0]",
    "constraint m0 [var int true] m1 true",
    "maximize 1",
];

/// A search that calls one of the library.
const SEARCH: &str = "solve search walk(1) /\\ true;";

const SEARCH_ITEMS: [&str; 1] = ["search (l3 1 /\\ [search true])"];

fn read(rt: &impl Abort, alloc: Global, file: u8, text: &str) -> Result<Tree, Fail> {
    let bytes = text.as_bytes();
    assert!(rt; bytes.len() <= 1048576);
    let tokens = ms_lexer::tokens(alloc, file, bytes)?;
    Ok(model(alloc, tokens.as_slice())?)
}

fn same(alloc: Global, one: &Item, wanted: &str) -> Result<bool, AllocError> {
    let mut text = String::new(alloc);
    item(&mut text, one)?;
    Ok(text.as_str() == wanted)
}

fn hold(rt: &impl Abort, alloc: Global, items: &[Item], wanted: &[&str]) -> Result<(), Fail> {
    assert_eq!(rt; items.len(), wanted.len());
    for (one, text) in items.iter().zip(wanted.iter()) {
        assert!(rt; same(alloc, one, *text)?);
    }
    Ok(())
}

fn hold_both(rt: &impl Abort, alloc: Global, text: &str, wanted: &[&str]) -> Result<(), Fail> {
    let library = read(rt, alloc, 2, LIBRARY)?;
    let model = read(rt, alloc, 0, text)?;
    match check(alloc, model, library) {
        Ok(typed) => {
            hold(rt, alloc, typed.library_items(), &LIBRARY_ITEMS)?;
            hold(rt, alloc, typed.items(), wanted)
        }
        Err(_) => {
            assert!(rt; false);
            Ok(())
        }
    }
}

#[test]
fn each_kind_of_item(rt: HostRuntime) -> Result<(), Fail> {
    let alloc = rt.alloc();
    hold_both(&rt, alloc, EACH, &EACH_ITEMS)?;
    hold_both(&rt, alloc, FUNCTIONS, &FUNCTIONS_ITEMS)?;
    hold_both(&rt, alloc, SEARCH, &SEARCH_ITEMS)
}

#[test]
fn values_beside_declarations(rt: HostRuntime) -> Result<(), Fail> {
    let alloc = rt.alloc();
    hold_both(&rt, alloc, BEFORE, &BEFORE_ITEMS)?;
    hold_both(&rt, alloc, BEHIND, &BEHIND_ITEMS)?;
    hold_both(&rt, alloc, NOWHERE, &NOWHERE_ITEMS)
}

/// A constraint, a solve item, and what declares names: an enumeration declares three.
const DECLARING: &str =
    "constraint true; int: a = 1; enum E = {p, q}; solve satisfy; predicate f() = true;";

const DECLARING_PLACES: [usize; 5] = [1, 2, 2, 2, 4];

#[test]
fn names_have_their_items(rt: HostRuntime) -> Result<(), Fail> {
    let alloc = rt.alloc();
    let model = read(&rt, alloc, 0, DECLARING)?;
    let places = declaring_items(alloc, model.items.as_slice())?;
    assert!(rt; places.as_slice() == DECLARING_PLACES.as_slice());
    declarers_declare();
    Ok(())
}

/// Holds what a checked model says of the names that it declares, and an expression beside it.
fn hold_beside(rt: &impl Abort, alloc: Global, typed: &Typed) -> Result<(), Fail> {
    let known = ExprType::Plain(Scalar::Number, Shape::Single, true);
    for one in typed.tree().items.as_slice() {
        if let ms_syntax::Item::Declare(declaration) = one {
            let found = typed.names().assigned(declaration.place, &declaration.name);
            assert!(rt; matches!(found, Some((0, t)) if t == known));
        }
    }
    let text = "n + 1";
    let tokens = ms_lexer::tokens(alloc, 0, text.as_bytes())?;
    let e = statement(alloc, tokens.as_slice())?;
    let found = check_expression(alloc, typed, Surroundings::Model, &Scope::Outer, &e)?;
    assert!(rt; found.kind == known);
    let mut tree = String::new(alloc);
    code(&mut tree, found.code.get())?;
    assert_eq!(rt; tree.as_str(), "(m0 + 1)");
    Ok(())
}

#[test]
fn names_and_expressions_beside_a_model(rt: HostRuntime) -> Result<(), Fail> {
    let alloc = rt.alloc();
    let library = read(&rt, alloc, 2, LIBRARY)?;
    let model = read(&rt, alloc, 0, "int: n = 3; solve satisfy;")?;
    match check(alloc, model, library) {
        Ok(typed) => hold_beside(&rt, alloc, &typed),
        Err(_) => {
            assert!(rt; false);
            Ok(())
        }
    }
}
