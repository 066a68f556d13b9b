//! How long the expressions of a model take to be placed.
//!
//! The words are seven numbers:
//!
//! 1. `scan`: two names run through so many numbers each, and what stands after `where` is never true.
//! 2. `read`: an array of known numbers has so many rows and columns, and each element is read once.
//! 3. `pairs`: so many variables, any two of which differ,
//! 4. where one constraint has the pairs of so many first variables.
//! 5. `deep`: each body has so many brackets,
//! 6. and so many calls are open at the same time,
//! 7. of which the innermost goes through so many numbers.
//!
//! Each is a text that is read, typed and placed. On standard output stands for each how many evaluation steps were taken
//! and a sum over what was placed (numbers, truth values, sizes of trees), or the first fault; on standard error the
//! milliseconds that placing took.
#![tactic(auto)]

mod names;
mod texts;

use crate::names::Names;
use ms_base::{Count, EVALUATION_STEP_LIMIT};
use ms_code::{Code, Item};
use ms_draws::ListWords;
use ms_num::Iv;
use ms_placing::PlaceFault;
use ms_syntax::{Place, Tree};
use ms_tree_nodes::leaves::variable;
use ms_types::{Typed, check};
use ms_values::{Array, Cells, Elements, Indices, Narrow, Operand, Pile, Shared};
use ms_walk::place;
use std::alloc::{AllocError, Global};
use std::time::Instant;
use std::{env, io};

/// The greatest number of bytes that a text may have.
const LIMIT: usize = 1048576;

/// The tree of a text, where it is one.
fn read(alloc: Global, file: u8, text: &str) -> Option<Tree> {
    let bytes = text.as_bytes();
    if bytes.len() > LIMIT {
        return None;
    }
    match ms_lexer::tokens(alloc, file, bytes) {
        Ok(tokens) => ms_parser::model(alloc, &tokens).ok(),
        Err(_) => None,
    }
}

/// The model of a text, where it is well typed.
fn typed(alloc: Global, text: &str) -> Option<Typed> {
    let model = read(alloc, 0, text)?;
    let library = read(alloc, 2, "")?;
    check(alloc, model, library).ok()
}

/// What was placed, and what is kept of it.
#[derive(Drop)]
struct Outcome {
    steps: u64,
    sum: u64,
    fault: Option<PlaceFault>,
    kept: Vec<Operand>,
}

/// So many variables from 1 to 9.
fn variables(alloc: Global, count: u32) -> Result<Operand, AllocError> {
    let mut trees = Elements::new(alloc);
    if let Some(set) = Iv::narrow(1, 9) {
        for number in 0..count {
            trees.push(variable(alloc, number, set)?)?;
        }
    }
    let low = match Narrow::new(1) {
        Some(low) => low,
        None => return Err(AllocError),
    };
    let array = Array {
        indices: Indices::Line(low),
        cells: Cells::Integers(trees),
    };
    Ok(Operand::Array(Shared::new(alloc, array)?))
}

fn number_of(x: &Operand) -> u64 {
    match x {
        Operand::Number(Some(n)) => n.get().unsigned_abs(),
        Operand::Truth(true) => 1,
        Operand::Integer(tree) | Operand::Condition(tree) => tree.size,
        _ => 0,
    }
}

/// What an expression is placed to, from all the steps of one placing; 0 where there is a fault.
fn value(
    alloc: Global,
    names: &Names<'_>,
    e: &Code,
    outcome: &mut Outcome,
) -> Result<Operand, AllocError> {
    let mut words = ListWords::new(alloc, &[])?;
    let mut left = EVALUATION_STEP_LIMIT;
    let found = place(alloc, names, &mut words, Pile::new(alloc), e, &mut left);
    let taken = EVALUATION_STEP_LIMIT.saturating_sub(left);
    outcome.steps = outcome.steps.wrapping_add(taken);
    match found {
        Ok((_, x)) => Ok(x),
        Err(fault) => {
            outcome.fault = Some(fault);
            Ok(Operand::Number(None))
        }
    }
}

/// Places the expression of one item. A declaration without a value is one of variables.
fn add(
    alloc: Global,
    names: &mut Names<'_>,
    item: &Item,
    count: u32,
    outcome: &mut Outcome,
) -> Result<(), AllocError> {
    match item {
        Item::Declare(declaration) => {
            let x = match &declaration.value {
                Some(e) => value(alloc, names, e, outcome)?,
                None => variables(alloc, count)?,
            };
            names.values.push(x)?;
        }
        Item::Function(_) => names.values.push(Operand::Number(None))?,
        Item::Constraint(_, e) => {
            let x = value(alloc, names, e, outcome)?;
            outcome.sum = outcome.sum.wrapping_add(number_of(&x));
            outcome.kept.push(x)?;
        }
        _ => {}
    }
    Ok(())
}

/// Places the items in their order.
fn all(alloc: Global, items: &[Item], count: u32) -> Result<Outcome, AllocError> {
    let mut names = Names {
        values: Vec::new(alloc),
        items,
    };
    let mut outcome = Outcome {
        steps: 0,
        sum: 0,
        fault: None,
        kept: Vec::new(alloc),
    };
    for item in items {
        add(alloc, &mut names, item, count, &mut outcome)?;
    }
    Ok(outcome)
}

fn count_name(count: Count) -> &'static str {
    match count {
        Count::Steps => "steps",
        Count::Nesting => "nesting",
        Count::Elements => "elements",
        _ => "others",
    }
}

fn print_fault(
    rt: &HostRuntime,
    name: &str,
    steps: u64,
    why: &str,
    place: Place,
) -> io::Result<()> {
    println!(rt;
        "{name}: {steps} steps, {why} at {}:{}",
        place.line, place.col
    )
}

fn print(rt: &HostRuntime, name: &str, outcome: &Outcome) -> io::Result<()> {
    let steps = outcome.steps;
    match outcome.fault {
        None => {
            let sum = outcome.sum;
            println!(rt; "{name}: {steps} steps, {sum}")
        }
        Some(PlaceFault::Wide(place)) => print_fault(rt, name, steps, "wide", place),
        Some(PlaceFault::Big(count, place)) => {
            print_fault(rt, name, steps, count_name(count), place)
        }
        Some(PlaceFault::Memory) => println!(rt; "{name}: no memory"),
    }
}

/// Reads, types and places a text, with so many variables where it declares some.
fn timed(rt: &HostRuntime, name: &str, text: &str, count: u32) -> io::Result<()> {
    let alloc = rt.alloc();
    let model = match typed(alloc, text) {
        Some(model) => model,
        None => return println!(rt; "{name}: no model"),
    };
    let before = Instant::now(rt)?;
    let outcome = all(alloc, model.items(), count)?;
    let spent = before.elapsed(rt)?.as_millis();
    eprintln!(rt; "{name}: {spent}")?;
    print(rt, name, &outcome)
}

fn number(words: &mut env::Args) -> u32 {
    match words.next() {
        Some(word) => word.parse().unwrap_or(0),
        None => 0,
    }
}

fn main(rt: HostRuntime) -> io::Result<()> {
    let alloc = rt.alloc();
    let mut words = env::args(&rt)?;
    let _program = words.next();
    let numbers = number(&mut words);
    timed(&rt, "scan", texts::scan(alloc, numbers)?.as_str(), 0)?;
    let rows = number(&mut words);
    timed(&rt, "read", texts::elements(alloc, rows)?.as_str(), 0)?;
    let count = number(&mut words);
    let width = number(&mut words);
    timed(
        &rt,
        "pairs",
        texts::pairs(alloc, count, width)?.as_str(),
        count,
    )?;
    let brackets = number(&mut words);
    let calls = number(&mut words);
    let last = number(&mut words);
    timed(
        &rt,
        "deep",
        texts::deep(alloc, brackets, calls, last)?.as_str(),
        0,
    )
}
