use ms_given::{GivenFault, Source, sources};
use ms_names::World;
use ms_parser::{assignments, model};
use ms_syntax::{Assignments, FileNo, Tree, Word};
use std::alloc::Global;
use std::process::Abort;
use std::test::Fail;

const LIBRARY: &str = "function int: twice(int: a) = a + a;";

/// Models with data, and where the value of each declared name stands.
const STANDING: [(&str, &str, &[Option<Source>]); 7] = [
    ("solve satisfy;", "", &[]),
    (
        "int: n = 3; int: k; bool: b; var int: x; predicate p(int: i) = i > 0; k = 2; solve satisfy;",
        "b = true;",
        &[
            Some(Source::Declaration),
            Some(Source::Item(5)),
            Some(Source::Datum(0)),
            None,
            None,
        ],
    ),
    (
        "k = 1; int: k; solve satisfy;",
        "",
        &[Some(Source::Item(0))],
    ),
    (
        "int: a; string: b; var int: x; solve satisfy;",
        "x = 3; b = \"t\"; a = 2",
        &[
            Some(Source::Datum(2)),
            Some(Source::Datum(1)),
            Some(Source::Datum(0)),
        ],
    ),
    ("array[1..2] of var int: a; solve satisfy;", "", &[None]),
    (
        "var int: x = 1; var int: y; constraint y > x; y = 2; solve satisfy;",
        "",
        &[Some(Source::Declaration), Some(Source::Item(3))],
    ),
    (
        "int: twice; solve satisfy;",
        "twice = 1",
        &[Some(Source::Datum(0))],
    ),
];

/// Models with data, and the name and the file of the first assignment to what is not declared.
const UNKNOWN: [(&str, &str, &str, FileNo); 10] = [
    ("m = 1; int: n = 2; solve satisfy;", "", "m", 0),
    ("int: n = 2; solve satisfy;", "m = 1", "m", 1),
    ("solve satisfy; b = 1; c = 1;", "a = 1", "b", 0),
    ("solve satisfy;", "b = 1; a = 1", "b", 1),
    ("predicate p() = true; p = 1; solve satisfy;", "", "p", 0),
    ("predicate p() = true; solve satisfy;", "p = 1", "p", 1),
    ("function int: f() = 1; solve satisfy;", "f = 1", "f", 1),
    ("solve satisfy;", "twice = 1", "twice", 1),
    ("int: n = 1; n = 2; solve satisfy;", "sum = 3", "sum", 1),
    ("int: k; int: n = 1; solve satisfy;", "n = 1; m = 1", "m", 1),
];

/// The same of the first second value.
const TWICE: [(&str, &str, &str, FileNo); 9] = [
    ("int: n = 1; n = 2; solve satisfy;", "", "n", 0),
    ("n = 3; int: n = 4; solve satisfy;", "", "n", 0),
    ("int: n; n = 3; n = 3; solve satisfy;", "", "n", 0),
    ("int: n = 1; solve satisfy;", "n = 2", "n", 1),
    ("int: n; solve satisfy;", "n = 1; n = 1", "n", 1),
    ("var int: x = 1; solve satisfy;", "x = 1", "x", 1),
    (
        "int: a = 1; int: b = 2; b = 3; a = 4; solve satisfy;",
        "",
        "b",
        0,
    ),
    (
        "int: a = 1; int: b = 2; b = 3; solve satisfy;",
        "a = 4",
        "b",
        0,
    ),
    ("int: k; int: n = 1; solve satisfy;", "n = 2", "n", 1),
];

/// Models with data, and the first known name without a value.
const MISSING: [(&str, &str, &str); 6] = [
    ("int: n; solve satisfy;", "", "n"),
    ("var int: x; int: b; int: a; solve satisfy;", "", "b"),
    ("int: b; int: a; solve satisfy;", "b = 1", "a"),
    ("set of 1..3: s; int: n; solve satisfy;", "n = 1;", "s"),
    ("array[1..2] of int: a; solve satisfy;", "", "a"),
    ("int: k = 1; string: t; solve satisfy;", "", "t"),
];

fn read(rt: &impl Abort, alloc: Global, file: FileNo, text: &str) -> Result<Tree, Fail> {
    let bytes = text.as_bytes();
    assert!(rt; bytes.len() <= 1048576);
    let tokens = ms_lexer::tokens(alloc, file, bytes)?;
    Ok(model(alloc, tokens.as_slice())?)
}

fn read_data(rt: &impl Abort, alloc: Global, text: &str) -> Result<Assignments, Fail> {
    let bytes = text.as_bytes();
    assert!(rt; bytes.len() <= 1048576);
    let tokens = ms_lexer::tokens(alloc, 1, bytes)?;
    Ok(assignments(alloc, tokens.as_slice())?)
}

type Given = Result<Vec<Option<Source>>, GivenFault>;

/// What the values of a model and its data are.
fn given(rt: &impl Abort, alloc: Global, text: &str, data: &str) -> Result<Given, Fail> {
    let model = read(rt, alloc, 0, text)?;
    let library = read(rt, alloc, 2, LIBRARY)?;
    let data = read_data(rt, alloc, data)?;
    let world = World::new(alloc, model.items.as_slice(), library.items.as_slice())?;
    Ok(sources(alloc, &world, model.items.as_slice(), data.list.as_slice()))
}

fn is_name(name: &Word, wanted: &str) -> bool {
    name.as_slice() == wanted.as_bytes()
}

fn stands(given: &Given, wanted: &[Option<Source>]) -> bool {
    match given {
        Ok(found) => found.as_slice() == wanted,
        Err(_) => false,
    }
}

fn is_unknown(given: &Given, name: &str, file: FileNo) -> bool {
    match given {
        Err(GivenFault::Unknown(found, at)) => is_name(found, name) && *at == file,
        _ => false,
    }
}

fn is_twice(given: &Given, name: &str, file: FileNo) -> bool {
    match given {
        Err(GivenFault::Twice(found, at)) => is_name(found, name) && *at == file,
        _ => false,
    }
}

fn is_missing(given: &Given, name: &str) -> bool {
    match given {
        Err(GivenFault::Missing(found)) => is_name(found, name),
        _ => false,
    }
}

#[test]
fn values_stand_where_they_are_given(rt: HostRuntime) -> Result<(), Fail> {
    let alloc = rt.alloc();
    for (text, data, wanted) in STANDING.iter() {
        let found = given(&rt, alloc, text, data)?;
        assert!(rt; stands(&found, wanted), "{text} with {data}");
    }
    Ok(())
}

#[test]
fn the_first_fault_is_told(rt: HostRuntime) -> Result<(), Fail> {
    let alloc = rt.alloc();
    for (text, data, name, file) in UNKNOWN.iter() {
        let found = given(&rt, alloc, text, data)?;
        assert!(rt; is_unknown(&found, name, *file), "{text} with {data}");
    }
    for (text, data, name, file) in TWICE.iter() {
        let found = given(&rt, alloc, text, data)?;
        assert!(rt; is_twice(&found, name, *file), "{text} with {data}");
    }
    for (text, data, name) in MISSING.iter() {
        let found = given(&rt, alloc, text, data)?;
        assert!(rt; is_missing(&found, name), "{text} with {data}");
    }
    Ok(())
}
