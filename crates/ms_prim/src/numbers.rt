ghost use Rattle.std.specs.Prelude.{◌≡◌, ◌^◌, ◌-◌, IsTrue, All, ◌≤ℤ◌, ◌*ℤ◌, pos, negsuc, unsigned_abs, Option, Some};
ghost use Rattle.ms_num.specs.Span.{IsWithin};
ghost use Rattle.ms_num.specs.Numbers.{int_eq, div_at, mod_at};
ghost use Rattle.ms_trees.specs.Value.{compare};
ghost use Rattle.ms_trees.specs.Enclosure.{points};
ghost use Rattle.ms_trees.specs.WellFormed.{has_variable};
ghost use Rattle.ms_prim.specs.Fitting.{part_fits, term_fits, bit_fits, tie_fits, lit_fits};
ghost use Rattle.ms_prim.specs.Results.{at, part_at, is_one, lit_at, relates, ties};

use crate::pieces::{Cmp, Lit, Part, Term, Tie};
use ms_num::interval_law;

/// The number of the variable.
pub(crate) fn variable(v: u32, point: &[i64]) -> i64
    requires fit { IsTrue (has_variable (points point.now) v) }
    requires within { All IsWithin point.now }
    ensures value { result ≡ at point.now v }
    ensures within { IsWithin result }
{
    point[v as usize]
}

/// The number of the part.
pub(crate) fn number(part: Part, point: &[i64]) -> i64
    requires fit { IsTrue (part_fits (points point.now) part) }
    requires within { All IsWithin point.now }
    ensures value { result ≡ part_at point.now part }
    ensures within { IsWithin result }
{
    match part {
        Part::V(v) => variable(v, point),
        Part::N(n) => n,
    }
}

/// The product of two numbers within the limits.
pub(crate) fn product(x: i64, y: i64) -> i128
    requires left { IsWithin x }
    requires right { IsWithin y }
    ensures value { result ≡ x *ℤ y }
    ensures low { negsuc (2 ^ 100 - 1) ≤ℤ result }
    ensures high { result ≤ℤ pos (2 ^ 100) }
{
    interval_law();
    multiplied(x, y)
}

fn multiplied(x: i64, y: i64) -> i128
    requires left { IsWithin x }
    requires right { IsWithin y }
    ensures { result ≡ x *ℤ y }
{
    i128::from(x) * i128::from(y)
}

/// Cut toward zero.
pub(crate) fn quotient(x: i64, y: i64) -> Option<i64>
    requires { IsWithin x }
    ensures { result ≡ div_at x y }
{
    if y == 0 { None } else { Some(x / y) }
}

/// With the sign of the dividend.
pub(crate) fn remainder(x: i64, y: i64) -> Option<i64>
    requires { IsWithin x }
    ensures { result ≡ mod_at x y }
{
    if y == 0 { None } else { Some(x % y) }
}

/// The absolute value.
pub(crate) fn magnitude(x: i64) -> i64
    requires { IsWithin x }
    ensures { result ≡ pos (unsigned_abs x) }
{
    x.abs()
}

/// Whether the number is that of the variable.
pub(crate) fn equals(x: i128, v: u32, point: &[i64]) -> bool
    requires fit { IsTrue (has_variable (points point.now) v) }
    requires within { All IsWithin point.now }
    ensures { result ≡ int_eq x (at point.now v) }
{
    x == i128::from(variable(v, point))
}

/// Whether there is a number, and it is that of the variable.
pub(crate) fn some_equals(x: Option<i64>, v: u32, point: &[i64]) -> bool
    requires fit { IsTrue (has_variable (points point.now) v) }
    requires within { All IsWithin point.now }
    ensures { result ≡ compare int_eq x (Some (at point.now v)) }
{
    match x {
        Some(x) => x == variable(v, point),
        None => false,
    }
}

/// Whether the numbers compare so.
pub(crate) fn compared(cmp: Cmp, x: i128, y: i128) -> bool
    ensures { result ≡ relates cmp x y }
{
    match cmp {
        Cmp::Same => x == y,
        Cmp::Other => x != y,
        Cmp::AtMost => x <= y,
        Cmp::Less => x < y,
    }
}

/// Whether the truth variable is true.
pub(crate) fn truth(v: u32, point: &[i64]) -> bool
    requires fit { IsTrue (bit_fits (points point.now) v) }
    ensures { result ≡ is_one point.now v }
{
    point[v as usize] == 1
}

/// Whether the literal holds.
pub(crate) fn holds_lit(lit: Lit, point: &[i64]) -> bool
    requires fit { IsTrue (lit_fits (points point.now) lit) }
    ensures { result ≡ lit_at point.now lit }
{
    if lit.positive {
        truth(lit.var, point)
    } else {
        !truth(lit.var, point)
    }
}

/// Whether the truth value of an operation is as its tie asks.
pub(crate) fn is_tied(holds: bool, tie: Tie, point: &[i64]) -> bool
    requires fit { IsTrue (tie_fits (points point.now) tie) }
    ensures { result ≡ ties point.now tie holds }
{
    match tie {
        Tie::Holds => holds,
        Tie::Iff(v) => holds == truth(v, point),
    }
}

/// The product of the term.
pub(crate) fn term_value(term: Term, point: &[i64]) -> i128
    requires fit { IsTrue (term_fits (points point.now) term) }
    requires within { All IsWithin point.now }
    ensures value { result ≡ term.factor *ℤ at point.now term.var }
    ensures low { negsuc (2 ^ 100 - 1) ≤ℤ result }
    ensures high { result ≤ℤ pos (2 ^ 100) }
{
    product(term.factor, variable(term.var, point))
}
