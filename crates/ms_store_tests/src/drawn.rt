//! Ten thousand calls made from a seed, on a store and on lists of numbers.
use crate::calls::{self, Change};
use crate::draws::{CALLS, Draws};
use crate::lists::Lists;
use ms_num::Ranges;
use ms_store::{Copies, Store};
use ms_trail::Trail;
use std::alloc::{AllocError, Global};
use std::process::Abort;
use std::test::Fail;

// The numbers of a set, in order.
fn numbers_of(alloc: Global, set: &Ranges) -> Result<Vec<i64>, AllocError> {
    let mut list = Vec::new(alloc);
    for n in -25..66i64 {
        if set.has(n) {
            list.push(n)?;
        }
    }
    Ok(list)
}

fn cuts_are_equal<S: Store>(
    store: &mut S,
    lists: &mut Lists,
    v: u32,
    change: Change,
) -> Result<bool, AllocError> {
    let cut = calls::cut(store, v, change)?;
    Ok(lists.cut(v as usize, change)? == cut)
}

fn write_is_equal<S: Store>(
    alloc: Global,
    store: &mut S,
    lists: &mut Lists,
    v: u32,
    draws: &mut Draws,
) -> Result<bool, AllocError> {
    let set = draws.set(alloc, 1)?;
    let is_written = calls::write(store, v, &set)?;
    if is_written {
        lists.write(v as usize, numbers_of(alloc, &set)?);
    }
    Ok(is_written == (!set.ranges().is_empty() && (v as usize) < lists.now.len()))
}

fn growth_is_equal<S: Store>(
    alloc: Global,
    store: &mut S,
    lists: &mut Lists,
    draws: &mut Draws,
) -> Result<bool, AllocError> {
    if lists.now.len() >= 6 {
        return Ok(true);
    }
    let set = draws.set(alloc, 1)?;
    if set.ranges().is_empty() {
        return Ok(true);
    }
    lists.grow(&numbers_of(alloc, &set)?)?;
    calls::grow(store, set)
}

// Makes one call on both, and whether both answer the same.
fn answers_are_equal<S: Store>(
    alloc: Global,
    store: &mut S,
    lists: &mut Lists,
    draws: &mut Draws,
) -> Result<bool, AllocError> {
    let v = draws.var();
    let n = draws.number(1);
    match draws.next() % 20 {
        0..=2 => cuts_are_equal(store, lists, v, Change::AtMost(n)),
        3..=5 => cuts_are_equal(store, lists, v, Change::AtLeast(n)),
        6..=11 => cuts_are_equal(store, lists, v, Change::OtherThan(n)),
        12 | 13 => write_is_equal(alloc, store, lists, v, draws),
        14 | 15 => Ok(store.mark()?.number == lists.mark()?),
        16 => Ok(calls::undo(store, v as usize) == lists.undo(v as usize)),
        17 | 18 => growth_is_equal(alloc, store, lists, draws),
        _ => Ok(calls::shrink(store, v as usize) == lists.shrink(v as usize)),
    }
}

fn readers_are_equal<S: Store>(store: &S, lists: &Lists) -> bool {
    if store.vars() != lists.now.len() || store.marks() != lists.saved.len() {
        return false;
    }
    let mut v = 0u32;
    for list in &lists.now {
        if !calls::has_numbers(store, v, list) {
            return false;
        }
        v = v.saturating_add(1);
    }
    true
}

fn drive<S: Store>(rt: &impl Abort, alloc: Global, store: &mut S) -> Result<(), Fail> {
    let mut lists = Lists::new(alloc);
    let mut draws = Draws { state: 20250601 };
    for call in 0..CALLS {
        assert!(rt;
            answers_are_equal(alloc, store, &mut lists, &mut draws)?,
            "call {call}"
        );
        assert!(rt; readers_are_equal(store, &lists), "after call {call}");
    }
    Ok(())
}

#[test]
fn copies(rt: HostRuntime) -> Result<(), Fail> {
    let alloc = rt.alloc();
    drive(&rt, alloc, &mut Copies::new(alloc))
}

#[test]
fn trail(rt: HostRuntime) -> Result<(), Fail> {
    let alloc = rt.alloc();
    drive(&rt, alloc, &mut Trail::new(alloc))
}
