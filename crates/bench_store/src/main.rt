//! How long the calls of stores take.
//!
//! The first word is `copies`, `trail` or `both`; then come five numbers: how many variables stand, how many marks stand
//! one in the other, how many numbers a set spans of which only the odd ones are left, how many ranges another set has,
//! and how often each call is made. On standard output stands for each row a sum over what was read, on standard error
//! the nanoseconds for one round: of four readers; of a cut at an end, of a hundred under one mark, and its part of going
//! back; of a mark, a cut and its undo; of a mark with a cut, of all that stand one in the other, and its part of the undo
//! of all; of whether a number is in the set of many ranges; of a number that goes out of a set with holes, of a hundred under
//! one mark, and its part of going back.
#![tactic(auto)]

ghost use Rattle.std.specs.Prelude.{IsTrue};
ghost use Rattle.ms_store.specs.Stored.{IsFilled};

use ms_num::{Iv, Ranges};
use ms_store::{Copies, Cut, Mark, Store};
use ms_trail::Trail;
use std::alloc::{AllocError, Global};
use std::time::Instant;
use std::{env, io};

/// Whether the set has a number.
fn is_filled(set: &Ranges) -> bool
    ensures { IsTrue result → IsFilled set.now }
{
    !set.ranges().is_empty()
}

/// The numbers from 1 to another, where that is in order and within the limits.
fn up_to(alloc: Global, hi: i64) -> Result<Ranges, AllocError> {
    let interval = if hi >= 1 { Iv::narrow(1, hi) } else { None };
    match interval {
        Some(interval) => Ranges::from_iv(alloc, interval),
        None => Ok(Ranges::empty(alloc)),
    }
}

/// The same without the even ones.
fn odd_up_to(alloc: Global, hi: i64) -> Result<Ranges, AllocError> {
    let mut set = up_to(alloc, hi)?;
    for half in 1..hi {
        let even = half.wrapping_mul(2);
        if even > hi {
            break;
        }
        set = set.without(alloc, even)?;
    }
    Ok(set)
}

/// So many more variables with this set.
fn grow<S: Store>(store: &mut S, alloc: Global, set: &Ranges, vars: u32) -> Result<(), AllocError> {
    for _ in 0..vars {
        let copy = set.copy(alloc)?;
        if store.vars() < 1_000_000 && is_filled(&copy) {
            store.grow(&[copy])?;
        }
    }
    Ok(())
}

/// A sum of what the readers say.
fn read<S: Store>(store: &S, v: u32, n: i64) -> u64 {
    if v as usize >= store.vars() {
        return 0;
    }
    let ends = store.lo(v).wrapping_add(store.hi(v)).unsigned_abs();
    ends.wrapping_add(store.size(v))
        .wrapping_add(u64::from(store.has(v, n)))
}

fn number_of(cut: Cut) -> u64 {
    match cut {
        Cut::Kept => 1,
        Cut::Changed => 2,
        Cut::Emptied => 3,
    }
}

fn cut_at_most<S: Store>(store: &mut S, v: u32, n: i64) -> Result<u64, AllocError> {
    if v as usize >= store.vars() {
        return Ok(0);
    }
    Ok(number_of(store.cut_at_most(v, n)?))
}

fn cut_value<S: Store>(store: &mut S, v: u32, n: i64) -> Result<u64, AllocError> {
    if v as usize >= store.vars() {
        return Ok(0);
    }
    Ok(number_of(store.cut_value(v, n)?))
}

fn undo<S: Store>(store: &mut S, mark: Mark) {
    if mark.number < store.marks() {
        store.undo(mark);
    }
}

/// The variable after this one, and the first after the last.
fn after(v: u32, vars: u32) -> u32 {
    let next = v.wrapping_add(1);
    if next < vars { next } else { 0 }
}

fn reads<S: Store>(store: &S, vars: u32, times: u32) -> u64 {
    let mut sum = 0u64;
    let mut v = 0u32;
    for n in 0..times {
        sum = sum.wrapping_add(read(store, v, i64::from(n)));
        v = after(v, vars);
    }
    sum
}

/// Some cuts at an end under one mark, each of which takes a number, and all come back.
fn cuts<S: Store>(store: &mut S, vars: u32, count: u32) -> Result<u64, AllocError> {
    let mark = store.mark()?;
    let mut sum = 0u64;
    let mut v = 0u32;
    let mut hi = 999_999i64;
    for _ in 0..count {
        sum = sum.wrapping_add(cut_at_most(store, v, hi)?);
        v = after(v, vars);
        if v == 0 {
            hi = hi.wrapping_sub(1);
        }
    }
    undo(store, mark);
    Ok(sum)
}

fn many_cuts<S: Store>(store: &mut S, vars: u32, times: u32) -> Result<u64, AllocError> {
    let mut sum = 0u64;
    for _ in 0..times / 100 {
        sum = sum.wrapping_add(cuts(store, vars, 100)?);
    }
    Ok(sum)
}

fn marked_cuts<S: Store>(store: &mut S, vars: u32, times: u32) -> Result<u64, AllocError> {
    let mut sum = 0u64;
    let mut v = 0u32;
    for n in 0..times {
        let mark = store.mark()?;
        sum = sum.wrapping_add(cut_at_most(store, v, i64::from(n))?);
        undo(store, mark);
        v = after(v, vars);
    }
    Ok(sum)
}

/// Some odd numbers between 1 and another go, no two of them neighbours, each from another variable than the one before,
/// and all come back.
fn values<S: Store>(store: &mut S, vars: u32, hi: i64, count: u32) -> Result<u64, AllocError> {
    let mark = store.mark()?;
    let mut sum = 0u64;
    let mut v = 0u32;
    let mut n = 3i64;
    for _ in 0..count {
        sum = sum.wrapping_add(cut_value(store, v, n)?);
        v = after(v, vars);
        n = n.wrapping_add(74);
        if n >= hi {
            n = n.wrapping_sub(hi).wrapping_add(3) | 1;
        }
    }
    undo(store, mark);
    Ok(sum)
}

fn many_values<S: Store>(store: &mut S, vars: u32, hi: i64, times: u32) -> Result<u64, AllocError> {
    let mut sum = 0u64;
    for _ in 0..times / 100 {
        sum = sum.wrapping_add(values(store, vars, hi, 100)?);
    }
    Ok(sum)
}

fn has<S: Store>(store: &S, v: u32, n: i64) -> u64 {
    if v as usize >= store.vars() {
        return 0;
    }
    u64::from(store.has(v, n))
}

/// How many of some numbers below another are in the set.
fn members<S: Store>(store: &S, v: u32, end: u32, times: u32) -> u64 {
    if end == 0 {
        return 0;
    }
    let mut sum = 0u64;
    for k in 0..times {
        let n = k.wrapping_mul(7919) % end;
        sum = sum.wrapping_add(has(store, v, i64::from(n)));
    }
    sum
}

fn deep<S: Store>(store: &mut S, vars: u32, marks: u32) -> Result<u64, AllocError> {
    let mut sum = 0u64;
    let mut v = 0u32;
    for _ in 0..marks {
        store.mark()?;
        sum = sum.wrapping_add(cut_at_most(store, v, 500_000)?);
        v = after(v, vars);
    }
    undo(store, Mark { number: 0 });
    Ok(sum.wrapping_add(read(store, 0, 1)))
}

/// What the words say.
#[derive(Clone, Copy)]
struct Sizes {
    vars: u32,
    marks: u32,
    holes: u32,
    ranges: u32,
    times: u32,
}

fn told(rt: &HostRuntime, name: &str, start: Instant, sum: u64, times: u32) -> io::Result<()> {
    let tenths = start.elapsed(rt)?.as_nanos().saturating_mul(10) / u128::from(times.max(1));
    let (each, rest) = (tenths / 10, tenths % 10);
    eprintln!(rt; "{name}: {each}.{rest}")?;
    println!(rt; "{name}: {sum}")
}

/// The rows over intervals, of a store without variables.
fn time_intervals<S: Store>(rt: &HostRuntime, store: &mut S, sizes: Sizes) -> io::Result<()> {
    let alloc = rt.alloc();
    let Sizes { vars, times, .. } = sizes;
    grow(store, alloc, &up_to(alloc, 1_000_000)?, vars)?;
    let start = Instant::now(rt)?;
    let sum = reads(store, vars, times);
    told(rt, "four readers", start, sum, times)?;
    let start = Instant::now(rt)?;
    let sum = many_cuts(store, vars, times)?;
    told(rt, "a cut", start, sum, times)?;
    let start = Instant::now(rt)?;
    let sum = marked_cuts(store, vars, times)?;
    told(rt, "a mark, a cut and undo", start, sum, times)?;
    let start = Instant::now(rt)?;
    let sum = deep(store, vars, sizes.marks)?;
    told(rt, "one of the marks", start, sum, sizes.marks)
}

/// The rows over sets with holes, of such a store.
fn time_holes<S: Store>(rt: &HostRuntime, store: &mut S, sizes: Sizes) -> io::Result<()> {
    let alloc = rt.alloc();
    let times = sizes.times;
    let holes = i64::from(sizes.holes);
    let wide = sizes.ranges.wrapping_mul(2);
    grow(store, alloc, &odd_up_to(alloc, i64::from(wide))?, 1)?;
    let start = Instant::now(rt)?;
    let sum = members(store, 0, wide, times);
    told(rt, "a number is there", start, sum, times)?;
    store.shrink(0);
    grow(store, alloc, &odd_up_to(alloc, holes)?, sizes.vars)?;
    let start = Instant::now(rt)?;
    let sum = many_values(store, sizes.vars, holes, times)?;
    told(rt, "a number goes", start, sum, times)
}

fn time_copies(rt: &HostRuntime, sizes: Sizes) -> io::Result<()> {
    println!(rt; "copies")?;
    time_intervals(rt, &mut Copies::new(rt.alloc()), sizes)?;
    time_holes(rt, &mut Copies::new(rt.alloc()), sizes)
}

fn time_trail(rt: &HostRuntime, sizes: Sizes) -> io::Result<()> {
    println!(rt; "trail")?;
    time_intervals(rt, &mut Trail::new(rt.alloc()), sizes)?;
    time_holes(rt, &mut Trail::new(rt.alloc()), sizes)
}

fn number(words: &mut env::Args) -> u32 {
    match words.next() {
        Some(word) => word.parse().unwrap_or(0),
        None => 0,
    }
}

fn main(rt: HostRuntime) -> io::Result<()> {
    let mut words = env::args(&rt)?;
    let _program = words.next();
    let Some(store) = words.next() else {
        return Ok(());
    };
    let sizes = Sizes {
        vars: number(&mut words),
        marks: number(&mut words),
        holes: number(&mut words),
        ranges: number(&mut words),
        times: number(&mut words),
    };
    if store.as_str() != "trail" {
        time_copies(&rt, sizes)?;
    }
    if store.as_str() != "copies" {
        time_trail(&rt, sizes)?;
    }
    Ok(())
}
