//! How long the first fault of declarations takes to find.
//!
//! The word is a number. On standard error stand the milliseconds for so many declarations each of
//! which names the next one, for as many functions each of which calls the next one, for one `let`
//! with as many locals, and for one sum of as many numbers. The last declaration and the last
//! function name the first one, so that there is a cycle of all. On standard output stands how many
//! faults were found.
#![tactic(auto)]

use ms_declarations::declaration_fault;
use ms_syntax::Tree;
use std::alloc::Global;
use std::time::Instant;
use std::{env, io};

/// The greatest number of bytes that a text may have.
const LIMIT: usize = 1048576;

/// The tree of a text, where it is one.
fn read(alloc: Global, file: u8, text: &str) -> Option<Tree> {
    let bytes = text.as_bytes();
    if bytes.len() > LIMIT {
        return None;
    }
    match ms_lexer::tokens(alloc, file, bytes) {
        Ok(tokens) => ms_parser::model(alloc, &tokens).ok(),
        Err(_) => None,
    }
}

/// Whether the declarations of a text have a fault, and how long it took to find.
fn timed(rt: &HostRuntime, name: &str, text: &str) -> io::Result<u64> {
    let alloc = rt.alloc();
    let library = match read(alloc, 2, "") {
        Some(library) => library,
        None => return Ok(0),
    };
    let model = match read(alloc, 0, text) {
        Some(model) => model,
        None => {
            eprintln!(rt; "{name}: too long")?;
            return Ok(0);
        }
    };
    let before = Instant::now(rt)?;
    let fault = declaration_fault(alloc, &model, &library)?;
    let spent = before.elapsed(rt)?.as_millis();
    eprintln!(rt; "{name}: {spent}")?;
    match fault {
        Some(_) => Ok(1),
        None => Ok(0),
    }
}

fn declarations(alloc: Global, count: u32) -> io::Result<String> {
    let mut text = format!(in alloc; "solve satisfy; int: x{count} = x0;")?;
    for number in 0..count {
        let next = number.saturating_add(1);
        let item = format!(in alloc; "int: x{number} = x{next};")?;
        text.push_str(item.as_str())?;
    }
    Ok(text)
}

fn functions(alloc: Global, count: u32) -> io::Result<String> {
    let mut text = format!(in alloc; "solve satisfy; function int: f{count}() = f0();")?;
    for number in 0..count {
        let next = number.saturating_add(1);
        let item = format!(in alloc; "function int: f{number}() = f{next}();")?;
        text.push_str(item.as_str())?;
    }
    Ok(text)
}

fn locals(alloc: Global, count: u32) -> io::Result<String> {
    let mut text = format!(in alloc; "solve satisfy; int: y = 1; constraint let {{")?;
    for number in 0..count {
        let item = format!(in alloc; "int: x{number} = y;")?;
        text.push_str(item.as_str())?;
    }
    text.push_str("} in true")?;
    Ok(text)
}

fn sum(alloc: Global, count: u32) -> io::Result<String> {
    let mut text = format!(in alloc; "solve satisfy; int: y = 1")?;
    for _ in 0..count {
        text.push_str(" + 1")?;
    }
    Ok(text)
}

fn number(words: &mut env::Args) -> u32 {
    match words.next() {
        Some(word) => word.parse().unwrap_or(0),
        None => 0,
    }
}

fn main(rt: HostRuntime) -> io::Result<()> {
    let alloc = rt.alloc();
    let mut words = env::args(&rt)?;
    let _program = words.next();
    let count = number(&mut words);
    let mut faults = timed(&rt, "declarations", declarations(alloc, count)?.as_str())?;
    faults = faults.wrapping_add(timed(&rt, "functions", functions(alloc, count)?.as_str())?);
    faults = faults.wrapping_add(timed(&rt, "locals", locals(alloc, count)?.as_str())?);
    faults = faults.wrapping_add(timed(&rt, "sum", sum(alloc, count)?.as_str())?);
    println!(rt; "{faults}")
}
