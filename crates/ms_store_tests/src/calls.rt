//! The calls of a store, each tested for what it needs before.
ghost use Rattle.std.specs.Prelude.{IsTrue};
ghost use Rattle.ms_store.specs.Stored.{IsFilled};

use ms_num::{Iv, Ranges};
use ms_store::{Cut, Mark, Store};
use std::alloc::{AllocError, Global};

/// Which numbers stay.
#[derive(Clone, Copy)]
pub enum Change {
    AtMost(i64),
    AtLeast(i64),
    OtherThan(i64),
}

/// What the cut came to, where there is such a variable.
pub fn cut<S: Store>(store: &mut S, v: u32, change: Change) -> Result<Option<Cut>, AllocError> {
    if v as usize >= store.vars() {
        return Ok(None);
    }
    let cut = match change {
        Change::AtMost(n) => store.cut_at_most(v, n)?,
        Change::AtLeast(n) => store.cut_at_least(v, n)?,
        Change::OtherThan(n) => store.cut_value(v, n)?,
    };
    Ok(Some(cut))
}

/// Whether the number is in the variable's set, where there is such a variable.
pub fn has<S: Store>(store: &S, v: u32, n: i64) -> Option<bool> {
    if v as usize >= store.vars() {
        return None;
    }
    Some(store.has(v, n))
}

/// The ends of the variable's set and how many numbers it has, where there is such a variable.
pub fn seen<S: Store>(store: &S, v: u32) -> Option<(i64, i64, u64)> {
    if v as usize >= store.vars() {
        return None;
    }
    Some((store.lo(v), store.hi(v), store.size(v)))
}

/// The numbers from one to another, if there are any within the limits.
pub fn between(alloc: Global, lo: i64, hi: i64) -> Result<Ranges, AllocError> {
    let interval = if lo <= hi { Iv::narrow(lo, hi) } else { None };
    match interval {
        Some(interval) => Ranges::from_iv(alloc, interval),
        None => Ok(Ranges::empty(alloc)),
    }
}

/// Whether the set has a number.
fn is_filled(set: &Ranges) -> bool
    ensures { IsTrue result → IsFilled set.now }
{
    !set.ranges().is_empty()
}

/// Whether there is such a variable, and the set has a number.
pub fn write<S: Store>(store: &mut S, v: u32, set: &Ranges) -> Result<bool, AllocError> {
    if v as usize >= store.vars() || !is_filled(set) {
        return Ok(false);
    }
    store.write(v, set)?;
    Ok(true)
}

/// Whether the set has a number, and few variables stand.
pub fn grow<S: Store>(store: &mut S, set: Ranges) -> Result<bool, AllocError> {
    if store.vars() >= 1_000_000 || !is_filled(&set) {
        return Ok(false);
    }
    store.grow(&[set])?;
    Ok(true)
}

/// Whether so many variables stand.
pub fn shrink<S: Store>(store: &mut S, vars: usize) -> bool {
    let there = vars <= store.vars();
    if there {
        store.shrink(vars);
    }
    there
}

/// Whether there is such a mark.
pub fn undo<S: Store>(store: &mut S, number: usize) -> bool {
    let there = number < store.marks();
    if there {
        store.undo(Mark { number });
    }
    there
}

/// Whether the variable's set has these numbers, in order, and no others from -25 to 65.
pub fn has_numbers<S: Store>(store: &S, v: u32, list: &[i64]) -> bool {
    if v as usize >= store.vars() {
        return false;
    }
    if list.first() != Some(&store.lo(v)) || list.last() != Some(&store.hi(v)) {
        return false;
    }
    if store.size(v) != list.len() as u64 {
        return false;
    }
    let mut at = 0usize;
    for n in -25..66i64 {
        let there = list.get(at) == Some(&n);
        if store.has(v, n) != there {
            return false;
        }
        if there {
            at = at.saturating_add(1);
        }
    }
    at == list.len()
}
