use ms_ground::{Ground, Row, Rows};
use ms_num::Ranges;
use sqlite_items::{Boxed, Items};
use std::alloc::{AllocError, Global};

/// An operation on one tree.
#[derive(Clone, Copy)]
pub enum One {
    Neg,
    Abs,
    ToInt,
    Not,
    /// The number is 0, 2 or 3.
    In,
}

/// An operation on two trees.
#[derive(Clone, Copy)]
pub enum Both {
    Add,
    Sub,
    Mul,
    Div,
    Mod,
    Iff,
    Imp,
    Xor,
    Eq,
    Ne,
    Lt,
    Le,
}

/// An operation on a list of trees.
#[derive(Clone, Copy)]
pub enum List {
    Sum,
    Least,
    Greatest,
    And,
    Or,
    AllDiff,
    /// A table of the rows 1, -1 and 3, 2.
    Table,
}

/// A symbol of postfix notation: a leaf, or an operation on the last trees that are left.
#[derive(Clone, Copy)]
pub enum Postfix {
    Num(i16),
    Undef,
    Var(u32),
    True,
    False,
    BVar(u32),
    One(One),
    Both(Both),
    /// An operation with the number of its parts.
    All(List, usize),
    /// Lowest index and number of elements; the index is the last.
    Elem(i16, usize),
    /// Lowest index of the rows and of the columns, width, and number of elements; the indices are the last two.
    Elem2(i16, i16, u32, usize),
    /// The number of elements; what is counted is the last.
    Count(usize),
    IteI,
    IteB,
}

/// The tree that the symbols write, if they write one.
pub fn tree(alloc: Global, symbols: &[Postfix]) -> Result<Option<Ground>, AllocError> {
    let mut left = Vec::new(alloc);
    for symbol in symbols {
        match node(alloc, &mut left, *symbol)? {
            Some(next) => left.push(next)?,
            None => return Ok(None),
        }
    }
    Ok(left.pop())
}

fn node(
    alloc: Global,
    left: &mut Vec<Ground>,
    symbol: Postfix,
) -> Result<Option<Ground>, AllocError> {
    match symbol {
        Postfix::Num(n) => Ok(Some(Ground::Num(i64::from(n)))),
        Postfix::Undef => Ok(Some(Ground::Undef)),
        Postfix::Var(v) => Ok(Some(Ground::Var(v))),
        Postfix::True => Ok(Some(Ground::True)),
        Postfix::False => Ok(Some(Ground::False)),
        Postfix::BVar(v) => Ok(Some(Ground::BVar(v))),
        Postfix::One(operation) => of_one(alloc, left, operation),
        Postfix::Both(operation) => of_two(alloc, left, operation),
        Postfix::All(operation, count) => of_list(alloc, left, operation, count),
        Postfix::Elem(low, count) => elem(alloc, left, low, count),
        Postfix::Elem2(low, first, width, count) => elem2(alloc, left, low, first, width, count),
        Postfix::Count(count) => counted(alloc, left, count),
        Postfix::IteI => chosen(alloc, left, true),
        Postfix::IteB => chosen(alloc, left, false),
    }
}

/// What may be missing, or want of memory.
type Made<T> = Result<Option<T>, AllocError>;

// Both, where both are there. A part that is made is let go here alone, and not at each place where a later one
// may fail.
fn pair<A: Drop, B: Drop>(first: Made<A>, second: Made<B>) -> Made<(A, B)> {
    let first = first?;
    let second = second?;
    match (first, second) {
        (Some(first), Some(second)) => Ok(Some((first, second))),
        _ => Ok(None),
    }
}

fn boxed<T: Drop>(alloc: Global, value: Option<T>) -> Made<Boxed<T>> {
    match value {
        Some(value) => Ok(Some(Boxed::new(alloc, value)?)),
        None => Ok(None),
    }
}

fn part(alloc: Global, left: &mut Vec<Ground>) -> Made<Boxed<Ground>> {
    boxed(alloc, left.pop())
}

// The last of the list, in their order, where there are so many.
fn last<T: Drop>(alloc: Global, left: &mut Vec<T>, count: usize) -> Made<Items<T>> {
    let mut parts = Vec::new(alloc);
    for _ in 0..count {
        match left.pop() {
            Some(part) => parts.push(part)?,
            None => return Ok(None),
        }
    }
    parts.reverse();
    Ok(Some(Items::from_vec(parts)))
}

fn of_one(alloc: Global, left: &mut Vec<Ground>, operation: One) -> Made<Ground> {
    let set = Ranges::from_list(alloc, &[0, 2, 3]).map(Some);
    let a = part(alloc, left);
    let Some((a, set)) = pair(a, set)? else {
        return Ok(None);
    };
    Ok(Some(match operation {
        One::Neg => Ground::Neg(a),
        One::Abs => Ground::Abs(a),
        One::ToInt => Ground::ToInt(a),
        One::Not => Ground::Not(a),
        One::In => Ground::In(a, set),
    }))
}

fn of_two(alloc: Global, left: &mut Vec<Ground>, operation: Both) -> Made<Ground> {
    let b = part(alloc, left);
    let a = part(alloc, left);
    let Some((a, b)) = pair(a, b)? else {
        return Ok(None);
    };
    Ok(Some(match operation {
        Both::Add => Ground::Add(a, b),
        Both::Sub => Ground::Sub(a, b),
        Both::Mul => Ground::Mul(a, b),
        Both::Div => Ground::Div(a, b),
        Both::Mod => Ground::Mod(a, b),
        Both::Iff => Ground::Iff(a, b),
        Both::Imp => Ground::Imp(a, b),
        Both::Xor => Ground::Xor(a, b),
        Both::Eq => Ground::Eq(a, b),
        Both::Ne => Ground::Ne(a, b),
        Both::Lt => Ground::Lt(a, b),
        Both::Le => Ground::Le(a, b),
    }))
}

fn of_list(alloc: Global, left: &mut Vec<Ground>, operation: List, count: usize) -> Made<Ground> {
    let rows = rows(alloc).map(Some);
    let parts = last(alloc, left, count);
    let Some((parts, rows)) = pair(parts, rows)? else {
        return Ok(None);
    };
    Ok(Some(match operation {
        List::Sum => Ground::Sum(parts),
        List::Least => Ground::Least(parts),
        List::Greatest => Ground::Greatest(parts),
        List::And => Ground::And(parts),
        List::Or => Ground::Or(parts),
        List::AllDiff => Ground::AllDiff(parts),
        List::Table => Ground::Table(parts, rows),
    }))
}

fn rows(alloc: Global) -> Result<Rows, AllocError> {
    let mut rows = Vec::new(alloc);
    rows.push(Row::from_vec(Vec::from_slice(alloc, &[1, -1])?))?;
    rows.push(Row::from_vec(Vec::from_slice(alloc, &[3, 2])?))?;
    Ok(Rows::from_vec(rows))
}

fn elem(alloc: Global, left: &mut Vec<Ground>, low: i16, count: usize) -> Made<Ground> {
    let index = part(alloc, left);
    let parts = last(alloc, left, count);
    let Some((parts, index)) = pair(parts, index)? else {
        return Ok(None);
    };
    Ok(Some(Ground::Elem(i64::from(low), parts, index)))
}

fn elem2(
    alloc: Global,
    left: &mut Vec<Ground>,
    low: i16,
    first: i16,
    width: u32,
    count: usize,
) -> Made<Ground> {
    let column = part(alloc, left);
    let row = part(alloc, left);
    let parts = last(alloc, left, count);
    let Some((parts, (row, column))) = pair(parts, pair(row, column))? else {
        return Ok(None);
    };
    Ok(Some(Ground::Elem2(i64::from(low), i64::from(first), width, parts, row, column)))
}

fn counted(alloc: Global, left: &mut Vec<Ground>, count: usize) -> Made<Ground> {
    let n = part(alloc, left);
    let parts = last(alloc, left, count);
    let Some((parts, n)) = pair(parts, n)? else {
        return Ok(None);
    };
    Ok(Some(Ground::Count(parts, n)))
}

fn chosen(alloc: Global, left: &mut Vec<Ground>, of_numbers: bool) -> Made<Ground> {
    let b = part(alloc, left);
    let a = part(alloc, left);
    let condition = part(alloc, left);
    let Some((condition, (a, b))) = pair(condition, pair(a, b))? else {
        return Ok(None);
    };
    if of_numbers {
        Ok(Some(Ground::IteI(condition, a, b)))
    } else {
        Ok(Some(Ground::IteB(condition, a, b)))
    }
}
