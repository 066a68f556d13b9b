//! Texts read by lexer and parser, and what the checker answers, as texts.

use ms_names::Scope;
use ms_parser::{model, statement};
use ms_syntax::{Expr, Place, Spanned, Tree};
use ms_types::{TypeFault, Typed, check, check_expression};
use ms_typing::{ExprType, Scalar, Shape, Surroundings};
use std::alloc::{AllocError, Global};
use std::process::Abort;
use std::test::Fail;

/// The number of the model's file, and that of the library's.
pub const MODEL: u8 = 0;

pub const LIBRARY: u8 = 2;

fn tokens(rt: &impl Abort, alloc: Global, file: u8, text: &str) -> Result<Vec<Spanned>, Fail> {
    let bytes = text.as_bytes();
    assert!(rt; bytes.len() <= 1048576);
    Ok(ms_lexer::tokens(alloc, file, bytes)?)
}

fn read_model(rt: &impl Abort, alloc: Global, file: u8, text: &str) -> Result<Tree, Fail> {
    let tokens = tokens(rt, alloc, file, text)?;
    Ok(model(alloc, tokens.as_slice())?)
}

pub fn read_expression(rt: &impl Abort, alloc: Global, file: u8, text: &str) -> Result<Expr, Fail> {
    let tokens = tokens(rt, alloc, file, text)?;
    Ok(statement(alloc, tokens.as_slice())?)
}

fn type_name(t: ExprType) -> &'static str {
    match t {
        ExprType::Plain(Scalar::Truth, Shape::Single, true) => "bool",
        ExprType::Plain(Scalar::Truth, Shape::Single, false) => "var bool",
        ExprType::Plain(Scalar::Truth, Shape::Line, true) => "array of bool",
        ExprType::Plain(Scalar::Truth, Shape::Line, false) => "array of var bool",
        ExprType::Plain(Scalar::Truth, Shape::Grid, true) => "grid of bool",
        ExprType::Plain(Scalar::Truth, Shape::Grid, false) => "grid of var bool",
        ExprType::Plain(Scalar::Number, Shape::Single, true) => "int",
        ExprType::Plain(Scalar::Number, Shape::Single, false) => "var int",
        ExprType::Plain(Scalar::Number, Shape::Line, true) => "array of int",
        ExprType::Plain(Scalar::Number, Shape::Line, false) => "array of var int",
        ExprType::Plain(Scalar::Number, Shape::Grid, true) => "grid of int",
        ExprType::Plain(Scalar::Number, Shape::Grid, false) => "grid of var int",
        ExprType::Plain(Scalar::Empty, Shape::Single, _) => "nothing",
        ExprType::Plain(Scalar::Empty, Shape::Line, _) => "array of nothing",
        ExprType::Plain(Scalar::Empty, Shape::Grid, _) => "grid of nothing",
        ExprType::Text(Shape::Single) => "string",
        ExprType::Text(Shape::Line) => "array of string",
        ExprType::Text(Shape::Grid) => "grid of string",
        ExprType::Set => "set",
        ExprType::Search => "ann",
    }
}

/// A fault by its name, with its places in the order of the text.
fn parts(fault: &TypeFault) -> (&'static str, Option<Place>, Option<Place>) {
    match fault {
        TypeFault::Include(place) => ("Include", Some(*place), None),
        TypeFault::Twice(earlier, later) => ("Twice", Some(*earlier), Some(*later)),
        TypeFault::NoSolve => ("NoSolve", None, None),
        TypeFault::Cycle(place) => ("Cycle", Some(*place), None),
        TypeFault::Unknown(place) => ("Unknown", Some(*place), None),
        TypeFault::Arity(place) => ("Arity", Some(*place), None),
        TypeFault::NotKnown(place) => ("NotKnown", Some(*place), None),
        TypeFault::Unsupported(place) => ("Unsupported", Some(*place), None),
        TypeFault::Mismatch(place) => ("Mismatch", Some(*place), None),
        TypeFault::Memory => ("Memory", None, None),
    }
}

/// A place behind a text, with the word `library` where it stands in the library's text.
fn with_place(alloc: Global, text: &str, place: Place) -> Result<String, AllocError> {
    let file = if place.file == LIBRARY {
        "library "
    } else {
        ""
    };
    format!(in alloc; "{text} {file}{}:{}", place.line, place.col)
}

fn fault_answer(alloc: Global, fault: &TypeFault) -> Result<String, AllocError> {
    match parts(fault) {
        (name, Some(earlier), Some(later)) => {
            let first = with_place(alloc, name, earlier)?;
            with_place(alloc, first.as_str(), later)
        }
        (name, Some(place), None) => with_place(alloc, name, place),
        (name, None, _) => String::from_str(alloc, name),
    }
}

/// The least type of an expression beside a checked model, or its first fault.
pub fn expression_answer(
    alloc: Global,
    typed: &Typed,
    around: Surroundings,
    scope: &Scope<'_>,
    e: &Expr,
) -> Result<String, AllocError> {
    match check_expression(alloc, typed, around, scope, e) {
        Ok(least) => String::from_str(alloc, type_name(least.kind)),
        Err(fault) => fault_answer(alloc, &fault),
    }
}

/// A model beside a library, which are well typed.
pub fn well_typed(
    rt: &impl Abort,
    alloc: Global,
    model: &str,
    library: &str,
) -> Result<Typed, Fail> {
    let model = read_model(rt, alloc, MODEL, model)?;
    let library = read_model(rt, alloc, LIBRARY, library)?;
    Ok(check(alloc, model, library)?)
}

/// What the checker says of a model beside a library.
pub fn model_answer(
    rt: &impl Abort,
    alloc: Global,
    model: &str,
    library: &str,
) -> Result<String, Fail> {
    let model = read_model(rt, alloc, MODEL, model)?;
    let library = read_model(rt, alloc, LIBRARY, library)?;
    match check(alloc, model, library) {
        Ok(_) => Ok(String::from_str(alloc, "accepted")?),
        Err(fault) => Ok(fault_answer(alloc, &fault)?),
    }
}
