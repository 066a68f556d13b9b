//! How long hulls take with memory that is kept between calls.
//!
//! The words are three numbers: how many queens, how many numbers that have to be distinct, and how often each hull
//! is taken. On standard output stands a sum over all hulls, on standard error the nanoseconds for one hull: of the
//! whole queens problem, of the distinct numbers, and of two long lists one in the other.
#![tactic(auto)]

use ms_evaluator::Evaluator;
use ms_ground::{Ground, Hull};
use ms_num::Iv;
use sqlite_items::{Boxed, Items};
use std::alloc::{AllocError, Global};
use std::time::Instant;
use std::{env, io};

fn boxed(alloc: Global, g: Ground) -> Result<Boxed<Ground>, AllocError> {
    Ok(Boxed::new(alloc, g)?)
}

// The variable, with so much added.
fn shifted(alloc: Global, variable: u32, by: i64) -> Result<Ground, AllocError> {
    if by == 0 {
        return Ok(Ground::Var(variable));
    }
    let x = boxed(alloc, Ground::Var(variable));
    let y = boxed(alloc, Ground::Num(by));
    Ok(Ground::Add(x?, y?))
}

// The variables are distinct, the k-th with k steps added.
fn distinct(alloc: Global, count: u32, step: i64) -> Result<Ground, AllocError> {
    let mut parts = Items::new(alloc);
    for variable in 0..count {
        parts.push(shifted(alloc, variable, i64::from(variable).wrapping_mul(step))?)?;
    }
    Ok(Ground::AllDiff(parts))
}

fn queens(alloc: Global, count: u32) -> Result<Ground, AllocError> {
    let mut parts = Items::new(alloc);
    for step in -1..2i64 {
        parts.push(distinct(alloc, count, step)?)?;
    }
    Ok(Ground::And(parts))
}

// Numbers far apart, and a last part.
fn list(alloc: Global, last: Ground) -> Result<Ground, AllocError> {
    let mut parts = Items::new(alloc);
    for number in 1..70i64 {
        parts.push(Ground::Num(number.wrapping_mul(400)))?;
    }
    parts.push(last)?;
    Ok(Ground::ToInt(boxed(alloc, Ground::AllDiff(parts))?))
}

fn nested(alloc: Global) -> Result<Ground, AllocError> {
    list(alloc, list(alloc, Ground::Var(0))?)
}

// The interval, where it is one.
fn interval(lo: i64, hi: i64) -> Option<Iv> {
    if lo <= hi { Iv::narrow(lo, hi) } else { None }
}

// So many intervals of some numbers, from places that are mixed.
fn intervals(alloc: Global, count: u32, width: i64) -> Result<Vec<Iv>, AllocError> {
    let mut sets = Vec::new(alloc);
    let mut state = 12345u64;
    for _ in 0..count {
        state = state
            .wrapping_mul(6364136223846793005)
            .wrapping_add(1442695040888963407);
        let lo = ((state >> 33) % 200) as i64;
        if let Some(set) = interval(lo, lo.wrapping_add(width)) {
            sets.push(set)?;
        }
    }
    Ok(sets)
}

// So many times the same interval.
fn same(alloc: Global, count: u32, hi: i64) -> Result<Vec<Iv>, AllocError> {
    let mut sets = Vec::new(alloc);
    for _ in 0..count {
        if let Some(set) = interval(1, hi) {
            sets.push(set)?;
        }
    }
    Ok(sets)
}

fn number_of(h: Hull) -> u64 {
    let truths = u64::from(h.may_be_true) + 2 * u64::from(h.may_be_false);
    truths + 4 * u64::from(h.may_be_defined)
}

// The sum over so many hulls of the tree, and 0 where it is not well formed on the box.
fn sum(alloc: Global, g: &Ground, sets: &[Iv], times: u32) -> Result<u64, AllocError> {
    let mut evaluator = Evaluator::new(alloc);
    let mut sum = 0u64;
    if !evaluator.is_well_formed(g, sets)? {
        return Ok(sum);
    }
    for _ in 0..times {
        sum = sum.wrapping_add(number_of(evaluator.hull(g, sets)?));
    }
    Ok(sum)
}

fn timed(rt: &HostRuntime, name: &str, g: &Ground, sets: &[Iv], times: u32) -> io::Result<u64> {
    let before = Instant::now(rt)?;
    let one = sum(rt.alloc(), g, sets, 1)?;
    let between = Instant::now(rt)?;
    let all = sum(rt.alloc(), g, sets, times.saturating_add(1))?;
    let first = between.duration_since(before).as_nanos();
    let spent = between.elapsed(rt)?.as_nanos();
    let each = spent.saturating_sub(first) / u128::from(times.max(1));
    eprintln!(rt; "{name}: {each}")?;
    Ok(one.wrapping_add(all))
}

fn number(words: &mut env::Args) -> u32 {
    match words.next() {
        Some(word) => word.parse().unwrap_or(0),
        None => 0,
    }
}

fn main(rt: HostRuntime) -> io::Result<()> {
    let alloc = rt.alloc();
    let mut words = env::args(&rt)?;
    let _program = words.next();
    let rows = number(&mut words);
    let count = number(&mut words);
    let times = number(&mut words);
    let board = same(alloc, rows, i64::from(rows))?;
    let mut all = timed(&rt, "queens", &queens(alloc, rows)?, &board, times)?;
    let sets = intervals(alloc, count, 60)?;
    let g = distinct(alloc, count, 0)?;
    all = all.wrapping_add(timed(&rt, "distinct", &g, &sets, times)?);
    let g = nested(alloc)?;
    all = all.wrapping_add(timed(&rt, "nested", &g, &same(alloc, 1, 3)?, times)?);
    println!(rt; "{all}")
}
