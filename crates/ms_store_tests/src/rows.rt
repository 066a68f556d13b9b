//! Rows of calls, with what they leave.
use crate::calls::{self, Change};
use ms_store::{Copies, Cut, Mark, Store};
use ms_trail::Trail;
use std::alloc::{AllocError, Global};
use std::process::Abort;
use std::test::Fail;

// A call with what it answers, or what the readers say.
#[derive(Clone, Copy)]
enum Step {
    // A new variable with the numbers from one to another.
    Grow(i64, i64),
    Mark(usize),
    Cut(u32, Change, Cut),
    Write(u32, i64, i64),
    Undo(usize),
    Shrink(usize),
    // The variable has these numbers and no others.
    Has(u32, &'static [i64]),
    // Its ends, and how many numbers it has.
    Ends(u32, i64, i64, u64),
    Member(u32, i64, bool),
    // How many variables and marks stand.
    Counts(usize, usize),
}

const FIVE: &[i64] = &[1, 2, 3, 4, 5];

const ROWS: &[Step] = &[
    // Cuts with each answer, a write, and back.
    Step::Grow(1, 5),
    Step::Mark(0),
    Step::Cut(0, Change::AtMost(3), Cut::Changed),
    Step::Has(0, &[1, 2, 3]),
    Step::Cut(0, Change::AtLeast(4), Cut::Emptied),
    Step::Has(0, &[1, 2, 3]),
    Step::Cut(0, Change::OtherThan(4), Cut::Kept),
    Step::Cut(0, Change::OtherThan(2), Cut::Changed),
    Step::Has(0, &[1, 3]),
    Step::Cut(0, Change::OtherThan(3), Cut::Changed),
    Step::Has(0, &[1]),
    Step::Cut(0, Change::OtherThan(1), Cut::Emptied),
    Step::Write(0, 0, 1),
    Step::Has(0, &[0, 1]),
    Step::Undo(0),
    Step::Has(0, FIVE),
    // Variables that come after a mark stay when it ends.
    Step::Mark(0),
    Step::Cut(0, Change::OtherThan(3), Cut::Changed),
    Step::Grow(0, 1),
    Step::Counts(2, 1),
    Step::Has(0, &[1, 2, 4, 5]),
    Step::Undo(0),
    Step::Counts(2, 0),
    Step::Has(0, FIVE),
    Step::Has(1, &[0, 1]),
    Step::Shrink(1),
    // The first of two marks ends the second too.
    Step::Mark(0),
    Step::Cut(0, Change::AtMost(3), Cut::Changed),
    Step::Mark(1),
    Step::Cut(0, Change::AtLeast(2), Cut::Changed),
    Step::Has(0, &[2, 3]),
    Step::Undo(0),
    Step::Counts(1, 0),
    Step::Has(0, FIVE),
    // A variable that is gone does not come back, nor does what was saved of it.
    Step::Mark(0),
    Step::Grow(0, 1),
    Step::Cut(1, Change::OtherThan(0), Cut::Changed),
    Step::Shrink(1),
    Step::Counts(1, 1),
    Step::Grow(1, 5),
    Step::Undo(0),
    Step::Counts(2, 0),
    Step::Has(0, FIVE),
    Step::Has(1, FIVE),
    Step::Shrink(0),
    Step::Counts(0, 0),
];

// Whether the call answers so, or the readers say so.
fn is_right<S: Store>(alloc: Global, store: &mut S, step: Step) -> Result<bool, AllocError> {
    match step {
        Step::Grow(lo, hi) => calls::grow(store, calls::between(alloc, lo, hi)?),
        Step::Mark(number) => Ok(store.mark()?.number == number),
        Step::Cut(v, change, cut) => Ok(calls::cut(store, v, change)? == Some(cut)),
        Step::Write(v, lo, hi) => calls::write(store, v, &calls::between(alloc, lo, hi)?),
        Step::Undo(number) => Ok(calls::undo(store, number)),
        Step::Shrink(vars) => Ok(calls::shrink(store, vars)),
        Step::Has(v, list) => Ok(calls::has_numbers(store, v, list)),
        Step::Ends(v, lo, hi, size) => Ok(calls::seen(store, v) == Some((lo, hi, size))),
        Step::Member(v, n, there) => Ok(calls::has(store, v, n) == Some(there)),
        Step::Counts(vars, marks) => Ok(store.vars() == vars && store.marks() == marks),
    }
}

fn run<S: Store>(
    rt: &impl Abort,
    alloc: Global,
    store: &mut S,
    steps: &[Step],
) -> Result<(), Fail> {
    for at in 0..steps.len() {
        assert!(rt; is_right(alloc, store, steps[at])?, "step {at}");
    }
    Ok(())
}

// The even numbers go, one under each mark.
fn loses_even<S: Store>(store: &mut S, count: usize) -> Result<bool, AllocError> {
    let mut n = 0i64;
    for number in 0..count {
        n = n.wrapping_add(2);
        let is_next = store.mark()?.number == number;
        let first = calls::cut(store, 0, Change::OtherThan(n))?;
        let again = calls::cut(store, 0, Change::OtherThan(n))?;
        if !is_next || first != Some(Cut::Changed) || again != Some(Cut::Kept) {
            return Ok(false);
        }
    }
    Ok(true)
}

// What is left of these sets when both ends are cut, on odd numbers up to 80.
const CUT_TO_ODD: &[Step] = &[
    Step::Cut(0, Change::AtMost(80), Cut::Changed),
    Step::Ends(0, 1, 79, 40),
    Step::Cut(0, Change::AtLeast(40), Cut::Changed),
    Step::Ends(0, 41, 79, 20),
    Step::Undo(20),
    Step::Member(0, 40, false),
    Step::Member(0, 42, true),
];

// Numbers go from inside a set, under marks, and come back.
fn cuts_inside<S: Store>(
    rt: &impl Abort,
    alloc: Global,
    store: &mut S,
    hi: i64,
) -> Result<(), Fail> {
    let size = hi.unsigned_abs();
    run(rt, alloc, store, &[Step::Grow(1, hi)])?;
    assert!(rt; loses_even(store, 40)?, "1..{hi}");
    run(rt, alloc, store, CUT_TO_ODD)?;
    run(
        rt,
        alloc,
        store,
        &[Step::Ends(0, 1, hi, size.wrapping_sub(20))],
    )?;
    run(
        rt,
        alloc,
        store,
        &[Step::Undo(0), Step::Ends(0, 1, hi, size), Step::Shrink(0)],
    )
}

// Sets of which a word, a row of words, all words of a row and a list of ranges have the holes.
const WIDTHS: [i64; 5] = [90, 100, 1000, 4096, 10_000];

fn rows<S: Store>(rt: &impl Abort, alloc: Global, store: &mut S) -> Result<(), Fail> {
    run(rt, alloc, store, ROWS)?;
    for hi in WIDTHS {
        cuts_inside(rt, alloc, store, hi)?;
    }
    Ok(())
}

const UNDER_TWO_MARKS: &[Step] = &[
    Step::Grow(1, 5),
    Step::Mark(0),
    Step::Cut(0, Change::AtMost(3), Cut::Changed),
    Step::Mark(1),
    Step::Cut(0, Change::AtLeast(2), Cut::Changed),
    Step::Counts(1, 2),
];

const GONE_BACK: &[Step] = &[
    Step::Has(0, FIVE),
    Step::Counts(1, 2),
    Step::Undo(1),
    Step::Has(0, &[1, 2, 3]),
    Step::Undo(0),
    Step::Has(0, FIVE),
];

#[test]
fn copies(rt: HostRuntime) -> Result<(), Fail> {
    let alloc = rt.alloc();
    rows(&rt, alloc, &mut Copies::new(alloc))
}

#[test]
fn trail(rt: HostRuntime) -> Result<(), Fail> {
    let alloc = rt.alloc();
    rows(&rt, alloc, &mut Trail::new(alloc))
}

#[test]
fn trail_goes_back_and_stays(rt: HostRuntime) -> Result<(), Fail> {
    let alloc = rt.alloc();
    let mut store = Trail::new(alloc);
    run(&rt, alloc, &mut store, UNDER_TWO_MARKS)?;
    if store.marks() == 2 {
        store.restore(Mark { number: 0 })?;
    }
    run(&rt, alloc, &mut store, GONE_BACK)
}
