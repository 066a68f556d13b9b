//! Operands that the tests of the code speak of: 5, true, {1, 3, 4}, "ab", an integer variable of 0..2, a Boolean one, and
//! arrays.

use ms_base::Bytes;
use ms_num::{Iv, Ranges};
use ms_rules::{empty, grow, line_from_one};
use ms_tree_nodes::leaves::{bit_variable, variable};
use ms_trees::Ground;
use ms_values::{Cells, Kind, Narrow, Operand, Placed, Shared};
use std::alloc::{AllocError, Global};

/// One operand of each form.
#[derive(Clone, Copy)]
pub enum Sample {
    Five,
    Yes,
    Set,
    Text,
    Integer,
    Condition,
    /// [5, undefined]
    Numbers,
    /// [true, false]
    Truths,
    /// The Boolean variable, alone.
    Conditions,
    NoArray,
}

fn set(alloc: Global) -> Result<Operand, AllocError> {
    let ranges = Ranges::from_list(alloc, &[1, 3, 4])?;
    Ok(Operand::Set(Some(Shared::new(alloc, ranges)?)))
}

fn text(alloc: Global) -> Result<Operand, AllocError> {
    let bytes = Bytes::from_vec(Vec::from_slice(alloc, b"ab")?);
    Ok(Operand::Text(Some(Shared::new(alloc, bytes)?)))
}

/// The elements of one of the arrays.
pub fn cells(alloc: Global, which: Sample) -> Result<Cells, AllocError> {
    match which {
        Sample::Truths => two(
            alloc,
            Kind::Truth,
            Operand::Truth(true),
            Operand::Truth(false),
        ),
        Sample::Conditions => one(alloc, Kind::Condition, condition(alloc)?),
        _ => two(alloc, Kind::Number, five(), Operand::Number(None)),
    }
}

fn one(alloc: Global, kind: Kind, x: Operand) -> Result<Cells, AllocError> {
    let mut cells = empty(alloc, kind);
    grow(alloc, &mut cells, x)?;
    Ok(cells)
}

fn two(alloc: Global, kind: Kind, x: Operand, y: Operand) -> Result<Cells, AllocError> {
    let mut cells = one(alloc, kind, x)?;
    grow(alloc, &mut cells, y)?;
    Ok(cells)
}

fn five() -> Operand {
    Operand::Number(Narrow::new(5))
}

fn integer(alloc: Global) -> Result<Operand, AllocError> {
    Ok(Operand::Integer(variable(alloc, 0, Iv::new(0, 2))?))
}

fn condition(alloc: Global) -> Result<Operand, AllocError> {
    Ok(Operand::Condition(bit_variable(alloc, 2, Iv::new(0, 1))?))
}

pub fn operand(alloc: Global, which: Sample) -> Result<Operand, AllocError> {
    match which {
        Sample::Five => Ok(five()),
        Sample::Yes => Ok(Operand::Truth(true)),
        Sample::Set => set(alloc),
        Sample::Text => text(alloc),
        Sample::Integer => integer(alloc),
        Sample::Condition => condition(alloc),
        Sample::Numbers => line_from_one(alloc, cells(alloc, which)?),
        Sample::Truths => line_from_one(alloc, cells(alloc, which)?),
        Sample::Conditions => line_from_one(alloc, cells(alloc, which)?),
        Sample::NoArray => Ok(Operand::NoArray(Kind::Integer)),
    }
}

/// What the tests tell trees by.
#[derive(Clone, Copy, Debug, PartialEq, Eq)]
pub enum Form {
    Number(i64),
    Undefined,
    Truth(bool),
    Variable(u32),
    BitVariable(u32),
    Bit,
    Other,
}

pub fn form_of(x: &Placed) -> Form {
    match x.tree.get() {
        Ground::Num(n) => Form::Number(*n),
        Ground::Undef => Form::Undefined,
        Ground::True => Form::Truth(true),
        Ground::False => Form::Truth(false),
        Ground::Var(v) => Form::Variable(*v),
        Ground::BVar(v) => Form::BitVariable(*v),
        Ground::ToInt(_) => Form::Bit,
        _ => Form::Other,
    }
}

pub fn plain(number: Option<Narrow>) -> Option<i64> {
    match number {
        Some(number) => Some(number.get()),
        None => None,
    }
}
