//! Two stores under the same calls.
use crate::calls::{self, Change};
use crate::draws::{CALLS, Draws};
use ms_store::{Copies, Store};
use ms_trail::Trail;
use std::alloc::{AllocError, Global};
use std::process::Abort;
use std::test::Fail;

fn cuts_are_equal<A: Store, B: Store>(
    a: &mut A,
    b: &mut B,
    v: u32,
    change: Change,
) -> Result<bool, AllocError> {
    let cut = calls::cut(a, v, change)?;
    Ok(calls::cut(b, v, change)? == cut)
}

fn sets_are_equal<A: Store, B: Store>(
    alloc: Global,
    a: &mut A,
    b: &mut B,
    draws: &mut Draws,
    stretch: i64,
) -> Result<bool, AllocError> {
    let v = draws.var();
    let set = draws.set(alloc, stretch)?;
    if draws.next() % 2 == 0 {
        return Ok(calls::write(a, v, &set)? == calls::write(b, v, &set)?);
    }
    if a.vars() >= 6 {
        return Ok(true);
    }
    let copied = set.copy(alloc)?;
    Ok(calls::grow(a, copied)? == calls::grow(b, set)?)
}

// Makes one call on both, and whether both answer the same.
fn answers_are_equal<A: Store, B: Store>(
    alloc: Global,
    a: &mut A,
    b: &mut B,
    draws: &mut Draws,
    stretch: i64,
) -> Result<bool, AllocError> {
    let v = draws.var();
    let n = draws.number(stretch);
    match draws.next() % 20 {
        0 | 1 => cuts_are_equal(a, b, v, Change::AtMost(n)),
        2 | 3 => cuts_are_equal(a, b, v, Change::AtLeast(n)),
        4..=11 => cuts_are_equal(a, b, v, Change::OtherThan(n)),
        12..=15 => sets_are_equal(alloc, a, b, draws, stretch),
        16 | 17 => Ok(a.mark()? == b.mark()?),
        18 => Ok(calls::undo(a, v as usize) == calls::undo(b, v as usize)),
        _ => Ok(calls::shrink(a, v as usize) == calls::shrink(b, v as usize)),
    }
}

// Whether both have the same of the numbers of one kind that can be drawn, and of some beyond them.
fn members_are_equal<A: Store, B: Store>(a: &A, b: &B, v: u32, stretch: i64, near: i64) -> bool {
    for n in -25..66i64 {
        let z = n.wrapping_mul(stretch).wrapping_add(near);
        if calls::has(a, v, z) != calls::has(b, v, z) {
            return false;
        }
    }
    true
}

fn variables_are_equal<A: Store, B: Store>(a: &A, b: &B, v: u32, stretch: i64) -> bool {
    if calls::seen(a, v) != calls::seen(b, v) {
        return false;
    }
    for near in 0..3i64 {
        if !members_are_equal(a, b, v, stretch, near) {
            return false;
        }
    }
    true
}

fn readers_are_equal<A: Store, B: Store>(a: &A, b: &B, stretch: i64) -> bool {
    if a.vars() != b.vars() || a.marks() != b.marks() {
        return false;
    }
    for v in 0..6u32 {
        if !variables_are_equal(a, b, v, stretch) {
            return false;
        }
    }
    true
}

fn drive<A: Store, B: Store>(
    rt: &impl Abort,
    alloc: Global,
    a: &mut A,
    b: &mut B,
    stretch: i64,
) -> Result<(), Fail> {
    let mut draws = Draws { state: 20261201 };
    for call in 0..CALLS {
        assert!(rt;
            answers_are_equal(alloc, a, b, &mut draws, stretch)?,
            "call {call}"
        );
        assert!(rt; readers_are_equal(a, b, stretch), "after call {call}");
    }
    Ok(())
}

// Sets within 82 numbers; within 1,600, so that their rows have some words; up to 80,000, most too wide for a row.
const STRETCHES: [i64; 3] = [1, 20, 1000];

#[test]
fn both(rt: HostRuntime) -> Result<(), Fail> {
    let alloc = rt.alloc();
    for stretch in STRETCHES {
        drive(
            &rt,
            alloc,
            &mut Copies::new(alloc),
            &mut Trail::new(alloc),
            stretch,
        )?;
    }
    Ok(())
}
