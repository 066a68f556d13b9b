//! How long plain sessions take to find solutions.
//!
//! The words are three numbers: the queens of which all placements are counted, the queens of which the first placement
//! is found, and the number up to which a variable goes, on both sides of 0, that is three times another one of 1 to 3.
//! On standard output stands for each of the three how many solutions were found, whether none is left, and the first;
//! on standard error the microseconds.
#![tactic(auto)]

ghost use Rattle.std.specs.Prelude.{◌≡◌, ◌<◌, ◌^◌, List, IsTrue, IfOk, IfSome, false};
ghost use Rattle.ms_boxes.specs.Boxes.{box_of};
ghost use Rattle.ms_boxes.specs.Trees.{IsConstraint};
ghost use Rattle.ms_session.specs.declared.budget.Frame.{Frame};
ghost use Rattle.ms_session.specs.Frames.{outer_left};
ghost use Rattle.ms_session.specs.Stored.{state_of};
ghost use Rattle.ms_session.specs.Laws.{AllHaveRoom};

use ms_ground::{Branching, Ground, Order, Trees, ValueChoice, size, truth};
use ms_num::{Iv, Ranges};
use ms_session::{Budget, PlainSession, Session, Step, room_laws};
use sqlite_items::{Boxed, Items};
use std::alloc::{AllocError, Global};
use std::time::Instant;
use std::{env, io};

/// How many nodes a search may take.
const NODES: u64 = 10_000_000;

fn boxed(alloc: Global, tree: Ground) -> Result<Boxed<Ground>, AllocError> {
    Ok(Boxed::new(alloc, tree)?)
}

/// The variable, with so much added.
fn shifted(alloc: Global, variable: u32, by: i64) -> Result<Ground, AllocError> {
    let x = boxed(alloc, Ground::Var(variable));
    let y = boxed(alloc, Ground::Num(by));
    Ok(Ground::Add(x?, y?))
}

/// No two queens stand on one line that goes down by this many rows at each column.
fn line_is_free(alloc: Global, count: u32, rows: i64) -> Result<Ground, AllocError> {
    let mut places = Items::new(alloc);
    for column in 0..count {
        places.push(shifted(alloc, column, i64::from(column).wrapping_mul(rows))?)?;
    }
    Ok(Ground::AllDiff(places))
}

/// No queen takes another.
fn queens(alloc: Global, count: u32) -> Result<Trees, AllocError> {
    let mut constraints = Items::new(alloc);
    for rows in -1..2i64 {
        constraints.push(line_is_free(alloc, count, rows)?)?;
    }
    Ok(constraints)
}

/// The second variable is three times the first.
fn triple(alloc: Global) -> Result<Ground, AllocError> {
    let three = boxed(alloc, Ground::Num(3));
    let x = boxed(alloc, Ground::Var(0));
    let product = boxed(alloc, Ground::Mul(three?, x?));
    let c = boxed(alloc, Ground::Var(1));
    Ok(Ground::Eq(c?, product?))
}

fn one(alloc: Global, constraint: Ground) -> Result<Trees, AllocError> {
    let mut constraints = Items::new(alloc);
    constraints.push(constraint)?;
    Ok(constraints)
}

/// The numbers from one to another, where these are in order and within the limits.
fn between(alloc: Global, lo: i64, hi: i64) -> Result<Ranges, AllocError> {
    let interval = if lo <= hi { Iv::narrow(lo, hi) } else { None };
    match interval {
        Some(interval) => Ranges::from_iv(alloc, interval),
        None => Ok(Ranges::empty(alloc)),
    }
}

/// A row of the board for each queen.
fn board(alloc: Global, count: u32) -> Result<Vec<Ranges>, AllocError> {
    let mut sets = Vec::new(alloc);
    for _ in 0..count {
        sets.push(between(alloc, 1, i64::from(count))?)?;
    }
    Ok(sets)
}

/// Whether the tree is a constraint over variables of these sets.
fn is_constraint(tree: &Ground, sets: &[Ranges]) -> bool
    ensures { IsTrue result → IsConstraint (box_of sets.now) tree.now }
{
    truth(tree, sets).is_some()
}

fn declared_order(alloc: Global) -> Branching {
    Branching {
        order: Order::from_vec(Vec::new(alloc)),
        by_size: false,
        value: ValueChoice::Least,
    }
}

/// A session over the sets, to which the constraints are posted; none where it does not take one of them.
fn open(
    alloc: Global,
    sets: &[Ranges],
    constraints: &[Ground],
) -> Result<Option<PlainSession>, AllocError>
    ensures usable { IfOk result (λ opened. IfSome opened (λ session. (state_of session).failed ≡ false)) }
    ensures room { IfOk result (λ opened. IfSome opened (λ session. (frames : List Frame) → outer_left frames < 2 ^ 64 → AllHaveRoom frames (state_of session))) }
{
    room_laws();
    let mut session = PlainSession::open(alloc, sets, &[], declared_order(alloc))?;
    for constraint in constraints {
        if !is_constraint(constraint, sets) {
            return Ok(None);
        }
        if session.live() > 1_000_000 || size(constraint) > 1_000_000 {
            return Ok(None);
        }
        session.post(constraint)?;
    }
    Ok(Some(session))
}

fn next(session: &mut PlainSession, budget: &mut Budget) -> Result<Step, AllocError>
    requires usable { (state_of session.old).failed ≡ false }
    requires room { AllHaveRoom budget.old (state_of session.old) }
    ensures usable { IfOk result (λ _. (state_of session.new).failed ≡ false) }
    ensures room { IfOk result (λ _. AllHaveRoom budget.new (state_of session.new)) }
{
    room_laws();
    let _frames = budget.len();
    session.next(budget)
}

/// What a search has come to.
struct Outcome {
    found: u64,
    none_left: bool,
    first: Vec<i64>,
}

/// Searches for so many solutions.
fn search(
    alloc: Global,
    session: &mut PlainSession,
    budget: &mut Budget,
    most: u64,
) -> Result<Outcome, AllocError>
    requires usable { (state_of session.old).failed ≡ false }
    requires room { AllHaveRoom budget.old (state_of session.old) }
{
    let mut first = Vec::new(alloc);
    for found in 0..most {
        match next(session, budget)? {
            Step::Found(point) if found == 0 => first = point.into_vec(),
            Step::Found(_) => {}
            Step::NoneLeft => {
                return Ok(Outcome {
                    found,
                    none_left: true,
                    first,
                });
            }
            Step::Spent => {
                return Ok(Outcome {
                    found,
                    none_left: false,
                    first,
                });
            }
        }
    }
    Ok(Outcome {
        found: most,
        none_left: false,
        first,
    })
}

/// Opens a session, searches for so many solutions, and says what was found and how long that took.
fn timed(
    rt: &HostRuntime,
    name: &str,
    sets: &[Ranges],
    constraints: &[Ground],
    most: u64,
) -> io::Result<()> {
    let alloc = rt.alloc();
    let start = Instant::now(rt)?;
    let Some(mut session) = open(alloc, sets, constraints)? else {
        return eprintln!(rt; "{name}: a session takes no such constraint");
    };
    let mut budget = Budget::new(alloc, NODES)?;
    let Outcome {
        found,
        none_left,
        first,
    } = search(alloc, &mut session, &mut budget, most)?;
    let spent = start.elapsed(rt)?.as_micros();
    eprintln!(rt; "{name}: {spent}")?;
    println!(rt; "{name}: {found}, none left: {none_left}, first {first:?}")
}

fn number(words: &mut env::Args) -> u32 {
    match words.next() {
        Some(word) => word.parse().unwrap_or(0),
        None => 0,
    }
}

fn main(rt: HostRuntime) -> io::Result<()> {
    let alloc = rt.alloc();
    let mut words = env::args(&rt)?;
    let _program = words.next();
    let small = number(&mut words);
    let large = number(&mut words);
    let far = i64::from(number(&mut words));
    let constraints = queens(alloc, small)?;
    timed(
        &rt,
        "all placements",
        &board(alloc, small)?,
        constraints.as_slice(),
        u64::MAX,
    )?;
    let constraints = queens(alloc, large)?;
    timed(
        &rt,
        "a placement",
        &board(alloc, large)?,
        constraints.as_slice(),
        1,
    )?;
    let constraints = one(alloc, triple(alloc)?)?;
    let sets = [between(alloc, 1, 3)?, between(alloc, -far, far)?];
    timed(&rt, "an equation", &sets, constraints.as_slice(), u64::MAX)
}
