//! Values on the incumbent.

ghost use Rattle.std.specs.Prelude.{◌≡◌, IfOk, option_map};
ghost use Rattle.ms_rules.specs.Calls as c;

use crate::point::{number_on, truth_on};
use ms_values::{Narrow, Operand};
use std::alloc::{AllocError, Global};

fn on_point(alloc: Global, point: &[Narrow], x: Operand) -> Result<Operand, AllocError>
    ensures { IfOk result (λ z. z ≡ c.on_point point.now x) }
{
    match x {
        Operand::Number(number) => Ok(Operand::Number(number)),
        Operand::Truth(truth) => Ok(Operand::Truth(truth)),
        Operand::Set(set) => Ok(Operand::Set(set)),
        Operand::Text(text) => Ok(Operand::Text(text)),
        Operand::Integer(x) => Ok(Operand::Number(number_on(alloc, point, x.tree.get())?)),
        Operand::Condition(x) => Ok(Operand::Truth(truth_on(alloc, point, x.tree.get())?)),
        Operand::Array(_) => Ok(Operand::Number(None)),
        Operand::NoArray(_) => Ok(Operand::Number(None)),
    }
}

fn without_point(x: Operand) -> Operand
    ensures { result ≡ c.without_point x }
{
    match x {
        Operand::Number(_) => Operand::Number(None),
        Operand::Truth(_) => Operand::Truth(false),
        Operand::Set(_) => Operand::Number(None),
        Operand::Text(_) => Operand::Number(None),
        Operand::Integer(_) => Operand::Number(None),
        Operand::Condition(_) => Operand::Truth(false),
        Operand::Array(_) => Operand::Number(None),
        Operand::NoArray(_) => Operand::Number(None),
    }
}

/// The value of the operand on the incumbent, which has the number of each variable: a known value stays, and a tree that
/// may be asked there has its value. Without an incumbent none has a value.
pub fn on_incumbent(
    alloc: Global,
    point: Option<&[Narrow]>,
    x: Operand,
) -> Result<Operand, AllocError>
    ensures { IfOk result (λ z. z ≡ c.on_incumbent (option_map (λ p. p.now) point.entry) x) }
{
    match point {
        Some(point) => on_point(alloc, point, x),
        None => Ok(without_point(x)),
    }
}
