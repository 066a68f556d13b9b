//! Typed trees as lists of what stands in them, each node before its parts, so that a test can write them down.

use ms_code::{Arm, Code, Condition, Generators, Link, Reference, Row, Subscript};
use ms_syntax::{Operator, Sign};
use ms_typing::ExprType;
use std::alloc::AllocError;

/// A node, or what is kept of a part beside its expression.
#[derive(Clone, Copy, PartialEq, Eq)]
pub(crate) enum Seen {
    Number(u64),
    Truth(bool),
    /// A text, by its length.
    Text(usize),
    Name(Reference),
    /// A first operand, and so many links.
    Chain(usize),
    /// An operator with its column, before its operand.
    By(Operator, u32),
    Prefix(Sign),
    Parenthesis,
    /// An array, and so many subscripts.
    Access(usize),
    /// A subscript of one index.
    One,
    /// A subscript of two.
    Two,
    /// A function with so many arguments.
    Call(Reference, usize),
    Gathered(ExprType),
    RepeatEach,
    /// So many generators, and whether a condition is behind them.
    Generators(usize, bool),
    /// So many names before a set.
    Names(usize),
    Array(ExprType, usize),
    Rows(ExprType, usize),
    Row(usize),
    Set(usize),
    Comprehension(ExprType),
    /// So many conditions with their branches, and the last branch.
    If(usize),
    When(Condition),
    Let(usize),
    Convert(ExprType),
}

fn add(list: &mut Vec<Seen>, seen: Seen) -> Result<(), AllocError> {
    list.push(seen)?;
    Ok(())
}

/// Adds what stands in a typed tree.
#[cycle(see)]
pub(crate) fn see(list: &mut Vec<Seen>, code: &Code) -> Result<(), AllocError> {
    match code {
        Code::Number(_, n) => add(list, Seen::Number(*n)),
        Code::Truth(_, truth) => add(list, Seen::Truth(*truth)),
        Code::Text(_, text) => add(list, Seen::Text(text.as_slice().len())),
        Code::Name(_, reference) => add(list, Seen::Name(*reference)),
        Code::Chain(first, links) => {
            add(list, Seen::Chain(links.len()))?;
            see(list, first.get())?;
            see_links(list, links.as_slice())
        }
        Code::Prefix(_, sign, operand) => {
            add(list, Seen::Prefix(*sign))?;
            see(list, operand.get())
        }
        Code::Parenthesis(_, inner) => {
            add(list, Seen::Parenthesis)?;
            see(list, inner.get())
        }
        Code::Access(_, array, subscripts) => {
            add(list, Seen::Access(subscripts.len()))?;
            see(list, array.get())?;
            see_subscripts(list, subscripts.as_slice())
        }
        Code::Call(_, reference, arguments) => {
            add(list, Seen::Call(*reference, arguments.len()))?;
            see_all(list, arguments.as_slice())
        }
        Code::Gathered(_, kind, generators, element) => {
            add(list, Seen::Gathered(*kind))?;
            see_generators(list, generators)?;
            see(list, element.get())
        }
        Code::RepeatEach(_, generators, search) => {
            add(list, Seen::RepeatEach)?;
            see_generators(list, generators)?;
            see(list, search.get())
        }
        Code::Array(_, kind, elements) => {
            add(list, Seen::Array(*kind, elements.len()))?;
            see_all(list, elements.as_slice())
        }
        Code::Rows(_, kind, rows) => {
            add(list, Seen::Rows(*kind, rows.len()))?;
            see_rows(list, rows.as_slice())
        }
        Code::Set(_, elements) => {
            add(list, Seen::Set(elements.len()))?;
            see_all(list, elements.as_slice())
        }
        Code::Comprehension(_, kind, generators, element) => {
            add(list, Seen::Comprehension(*kind))?;
            see_generators(list, generators)?;
            see(list, element.get())
        }
        Code::If(_, arms, last) => {
            add(list, Seen::If(arms.len()))?;
            see_arms(list, arms.as_slice())?;
            see(list, last.get())
        }
        Code::Let(_, values, body) => {
            add(list, Seen::Let(values.len()))?;
            see_all(list, values.as_slice())?;
            see(list, body.get())
        }
        Code::Convert(kind, inner) => {
            add(list, Seen::Convert(*kind))?;
            see(list, inner.get())
        }
    }
}

#[cycle(see)]
fn see_all(list: &mut Vec<Seen>, codes: &[Code]) -> Result<(), AllocError> {
    for code in codes {
        see(list, code)?;
    }
    Ok(())
}

#[cycle(see)]
fn see_links(list: &mut Vec<Seen>, links: &[Link]) -> Result<(), AllocError> {
    for link in links {
        add(list, Seen::By(link.operator, link.place.col))?;
        see(list, &link.operand)?;
    }
    Ok(())
}

#[cycle(see)]
fn see_subscripts(list: &mut Vec<Seen>, subscripts: &[Subscript]) -> Result<(), AllocError> {
    for subscript in subscripts {
        see_subscript(list, subscript)?;
    }
    Ok(())
}

#[cycle(see)]
fn see_subscript(list: &mut Vec<Seen>, subscript: &Subscript) -> Result<(), AllocError> {
    match &subscript.second {
        Some(second) => {
            add(list, Seen::Two)?;
            see(list, &subscript.first)?;
            see(list, second.get())
        }
        None => {
            add(list, Seen::One)?;
            see(list, &subscript.first)
        }
    }
}

#[cycle(see)]
fn see_rows(list: &mut Vec<Seen>, rows: &[Row]) -> Result<(), AllocError> {
    for row in rows {
        add(list, Seen::Row(row.elements.len()))?;
        see_all(list, row.elements.as_slice())?;
    }
    Ok(())
}

#[cycle(see)]
fn see_arms(list: &mut Vec<Seen>, arms: &[Arm]) -> Result<(), AllocError> {
    for arm in arms {
        add(list, Seen::When(arm.kind))?;
        see(list, &arm.condition)?;
        see(list, &arm.branch)?;
    }
    Ok(())
}

#[cycle(see)]
fn see_generators(list: &mut Vec<Seen>, generators: &Generators) -> Result<(), AllocError> {
    add(
        list,
        Seen::Generators(generators.list.len(), generators.condition.is_some()),
    )?;
    for generator in generators.list.as_slice() {
        add(list, Seen::Names(generator.names))?;
        see(list, &generator.set)?;
    }
    match &generators.condition {
        Some(condition) => see(list, condition.get()),
        None => Ok(()),
    }
}
