//! In which order declarations come.

mod cases;

use cases::{CHAINS, CYCLES, Case, FUNCTIONS, HIDDEN, ITEMS};
use ms_order::order_of;
use ms_syntax::Tree;
use std::alloc::Global;
use std::process::Abort;
use std::test::Fail;

/// The tree of a text.
fn read(rt: &impl Abort, alloc: Global, text: &str) -> Result<Tree, Fail> {
    let bytes = text.as_bytes();
    assert!(rt; bytes.len() <= 1048576);
    let tokens = ms_lexer::tokens(alloc, 0, bytes)?;
    Ok(ms_parser::model(alloc, &tokens)?)
}

/// Holds each text of a table against the numbers of its names in their order.
fn hold(rt: &impl Abort, alloc: Global, cases: &[Case]) -> Result<(), Fail> {
    for (text, wanted) in cases {
        let model = read(rt, alloc, text)?;
        let found = order_of(alloc, &model.items)?;
        assert_eq!(rt; found.as_slice(), *wanted, "{text}");
    }
    Ok(())
}

#[test]
fn those_read_come_first(rt: HostRuntime) -> Result<(), Fail> {
    hold(&rt, rt.alloc(), &ITEMS)
}

#[test]
fn several_in_a_row(rt: HostRuntime) -> Result<(), Fail> {
    hold(&rt, rt.alloc(), &CHAINS)
}

#[test]
fn through_functions(rt: HostRuntime) -> Result<(), Fail> {
    hold(&rt, rt.alloc(), &FUNCTIONS)
}

#[test]
fn names_that_hide_others(rt: HostRuntime) -> Result<(), Fail> {
    hold(&rt, rt.alloc(), &HIDDEN)
}

#[test]
fn cycles(rt: HostRuntime) -> Result<(), Fail> {
    hold(&rt, rt.alloc(), &CYCLES)
}

/// So many declarations, each of which reads the next one.
fn chain(alloc: Global, count: u32) -> Result<String, Fail> {
    let mut text = format!(in alloc; "int: x{count} = 1;")?;
    for number in 0..count {
        let next = number.saturating_add(1);
        let item = format!(in alloc; "int: x{number} = x{next};")?;
        text.push_str(item.as_str())?;
    }
    Ok(text)
}

#[test]
fn a_long_chain(rt: HostRuntime) -> Result<(), Fail> {
    let text = chain(rt.alloc(), 30000)?;
    let model = read(&rt, rt.alloc(), text.as_str())?;
    let found = order_of(rt.alloc(), &model.items)?;
    assert_eq!(&rt; found.len(), 30001);
    assert_eq!(&rt; found.first().copied(), Some(0));
    assert_eq!(&rt; found.get(1).copied(), Some(30000));
    assert_eq!(&rt; found.get(29999).copied(), Some(2));
    assert_eq!(&rt; found.last().copied(), Some(1));
    Ok(())
}
