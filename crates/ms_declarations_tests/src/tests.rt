//! What is wrong with the declarations of texts.

mod cases;
mod searches;

use cases::Case;
use ms_declarations::{DeclarationFault, declaration_fault, one_first_fault};
use ms_syntax::Tree;
use searches::SEARCHES;
use std::alloc::Global;
use std::process::Abort;
use std::test::Fail;

/// A fault by the number of its file and the columns in which it stands, all on one line.
#[derive(Clone, Copy, Debug, PartialEq, Eq)]
pub enum Answer {
    None,
    Include(u8, u32),
    Twice(u8, u32, u32),
    NoSolve,
    Cycle(u8, u32),
}

/// The tree of a text.
fn read(rt: &impl Abort, alloc: Global, file: u8, text: &str) -> Result<Tree, Fail> {
    let bytes = text.as_bytes();
    assert!(rt; bytes.len() <= 1048576);
    let tokens = ms_lexer::tokens(alloc, file, bytes)?;
    Ok(ms_parser::model(alloc, &tokens)?)
}

fn told(fault: Option<DeclarationFault>) -> Answer {
    match fault {
        None => Answer::None,
        Some(DeclarationFault::Include(place)) => Answer::Include(place.file, place.col),
        Some(DeclarationFault::Twice(earlier, later)) => {
            Answer::Twice(later.file, earlier.col, later.col)
        }
        Some(DeclarationFault::NoSolve) => Answer::NoSolve,
        Some(DeclarationFault::Cycle(place)) => Answer::Cycle(place.file, place.col),
    }
}

/// Holds each text of a table against its answer.
fn hold(rt: &impl Abort, alloc: Global, cases: &[Case]) -> Result<(), Fail> {
    for (model, library, wanted) in cases {
        let own = read(rt, alloc, 0, model)?;
        let other = read(rt, alloc, 2, library)?;
        let found = told(declaration_fault(alloc, &own, &other)?);
        assert_eq!(rt; found, *wanted, "{model}");
    }
    Ok(())
}

#[test]
fn files_that_may_be_included(rt: HostRuntime) -> Result<(), Fail> {
    hold(&rt, rt.alloc(), &cases::FILES)
}

#[test]
fn names_that_are_declared_twice(rt: HostRuntime) -> Result<(), Fail> {
    hold(&rt, rt.alloc(), &cases::TWICE)
}

#[test]
fn names_that_hide_others(rt: HostRuntime) -> Result<(), Fail> {
    hold(&rt, rt.alloc(), &cases::HIDDEN)
}

#[test]
fn models_without_a_solve_item(rt: HostRuntime) -> Result<(), Fail> {
    hold(&rt, rt.alloc(), &cases::UNSOLVED)
}

#[test]
fn names_that_depend_on_themselves(rt: HostRuntime) -> Result<(), Fail> {
    hold(&rt, rt.alloc(), &cases::CYCLES)
}

#[test]
fn names_that_do_not(rt: HostRuntime) -> Result<(), Fail> {
    hold(&rt, rt.alloc(), &cases::ACYCLIC)
}

#[test]
fn libraries_beside_models(rt: HostRuntime) -> Result<(), Fail> {
    one_first_fault();
    hold(&rt, rt.alloc(), &cases::LIBRARIES)
}

/// The searches that come with the program declare nothing wrong, alone and together.
#[test]
fn the_searches_of_the_program(rt: HostRuntime) -> Result<(), Fail> {
    let model = read(&rt, rt.alloc(), 0, "solve satisfy")?;
    let mut all = String::new(rt.alloc());
    for search in SEARCHES {
        let library = read(&rt, rt.alloc(), 2, search)?;
        assert_eq!(rt;
            told(declaration_fault(rt.alloc(), &model, &library)?),
            Answer::None
        );
        all.push_str(search)?;
        all.push_str(";\n")?;
    }
    let library = read(&rt, rt.alloc(), 2, all.as_str())?;
    assert_eq!(rt; library.items.len(), SEARCHES.len());
    assert_eq!(rt;
        told(declaration_fault(rt.alloc(), &model, &library)?),
        Answer::None
    );
    Ok(())
}
