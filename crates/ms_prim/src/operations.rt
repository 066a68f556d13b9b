ghost use Rattle.std.specs.Prelude.{◌≡◌, ◌≤◌, ◌^◌, ◌-◌, length, map, All, Some, ◌≤ℤ◌, ◌<◌, pos, negsuc, drop};
ghost use Rattle.std.specs.List.{list_any};
ghost use Rattle.ms_num.specs.Span.{IsWithin};
ghost use Rattle.ms_num.specs.Numbers.{min_at, max_at};
ghost use Rattle.ms_trees.specs.Value.{extreme, counted, selected, is_place, is_place2, is_row, are_distinct, first_differs};
ghost use Rattle.ms_trees.specs.Enclosure.{points};
ghost use Rattle.ms_trees.specs.Extreme.{so_far};
ghost use Rattle.ms_prim.specs.Fitting.{most_terms};
ghost use Rattle.ms_prim.specs.Results.{weighted, all_meant, lit_at, PartsAreFit, TermsAreFit, LitsAreFit};

use crate::numbers::{holds_lit, number, term_value};
use crate::pieces::{Lit, Part, Term};
use ms_trees::{Row, grid_place, line_place};

/// The sum of the terms.
pub(crate) fn total(terms: &[Term], point: &[i64]) -> i128
    requires fit { TermsAreFit (points point.now) terms.now }
    requires few { length terms.now ≤ most_terms }
    requires within { All IsWithin point.now }
    ensures value { result ≡ weighted point.now terms.now }
    ensures low { negsuc (2 ^ 121 - 1) ≤ℤ result }
    ensures high { result ≤ℤ pos (2 ^ 121) }
{
    let mut sum = 0i128;
    for term in terms {
        sum += term_value(*term, point);
    }
    sum
}

/// The least number of the parts, if there are any.
pub(crate) fn least(parts: &[Part], point: &[i64]) -> Option<i64>
    requires fit { PartsAreFit (points point.now) parts.now }
    requires within { All IsWithin point.now }
    ensures { result ≡ extreme min_at (all_meant point.now parts.now) }
{
    let mut best = None;
    for part in parts {
        best = lesser(best, number(*part, point));
    }
    best
}

/// The greatest number of the parts, if there are any.
pub(crate) fn greatest(parts: &[Part], point: &[i64]) -> Option<i64>
    requires fit { PartsAreFit (points point.now) parts.now }
    requires within { All IsWithin point.now }
    ensures { result ≡ extreme max_at (all_meant point.now parts.now) }
{
    let mut best = None;
    for part in parts {
        best = greater(best, number(*part, point));
    }
    best
}

// The lesser of a number, if there is one, and another.
fn lesser(best: Option<i64>, x: i64) -> Option<i64>
    ensures { result ≡ so_far min_at best x }
{
    match best {
        Some(best) => Some(best.min(x)),
        None => Some(x),
    }
}

// The greater of a number, if there is one, and another.
fn greater(best: Option<i64>, x: i64) -> Option<i64>
    ensures { result ≡ so_far max_at best x }
{
    match best {
        Some(best) => Some(best.max(x)),
        None => Some(x),
    }
}

/// How many of the parts are the number.
pub(crate) fn count(parts: &[Part], n: i64, point: &[i64]) -> usize
    requires fit { PartsAreFit (points point.now) parts.now }
    requires within { All IsWithin point.now }
    ensures { counted (all_meant point.now parts.now) (Some n) ≡ Some (pos result) }
{
    let mut count = 0usize;
    for part in parts {
        if number(*part, point) == n {
            count += 1;
        }
    }
    count
}

/// The element of the index, if it has one.
pub(crate) fn element(low: i64, parts: &[Part], index: i64, point: &[i64]) -> Option<i64>
    requires fit { PartsAreFit (points point.now) parts.now }
    requires within { All IsWithin point.now }
    ensures { result ≡ selected (is_place low (Some index)) 0 (all_meant point.now parts.now) }
{
    let place = line_place(low, index, parts.len())?;
    Some(number(parts[place], point))
}

/// The element of the row and the column, if they have one.
pub(crate) fn element2(
    low: i64,
    left: i64,
    width: u32,
    parts: &[Part],
    row: i64,
    column: i64,
    point: &[i64],
) -> Option<i64>
    requires fit { PartsAreFit (points point.now) parts.now }
    requires within { All IsWithin point.now }
    ensures { result ≡ selected (is_place2 low left width (length (all_meant point.now parts.now)) (Some row) (Some column)) 0 (all_meant point.now parts.now) }
{
    let place = grid_place(low, left, width as usize, parts.len(), row, column)?;
    Some(number(parts[place], point))
}

/// Whether some literal holds.
pub(crate) fn some_holds(lits: &[Lit], point: &[i64]) -> bool
    requires fit { LitsAreFit (points point.now) lits.now }
    ensures { result ≡ list_any (lit_at point.now) lits.now }
{
    for lit in lits {
        if holds_lit(*lit, point) {
            return true;
        }
    }
    false
}

/// Whether the parts are the numbers of one of the rows.
pub(crate) fn is_some_row(parts: &[Part], rows: &[Row], point: &[i64]) -> bool
    requires fit { PartsAreFit (points point.now) parts.now }
    requires within { All IsWithin point.now }
    ensures { result ≡ list_any (is_row (all_meant point.now parts.now)) rows.now }
{
    for row in rows {
        if are_numbers(parts, row.as_slice(), point) {
            return true;
        }
    }
    false
}

// Whether the parts are the numbers of the row.
fn are_numbers(parts: &[Part], row: &[i64], point: &[i64]) -> bool
    requires fit { PartsAreFit (points point.now) parts.now }
    requires within { All IsWithin point.now }
    ensures { result ≡ is_row (all_meant point.now parts.now) row.now }
{
    if parts.len() != row.len() {
        return false;
    }
    for place in 0..parts.len() {
        if number(parts[place], point) != row[place] {
            return false;
        }
    }
    true
}

/// Whether no two parts are the same number.
pub(crate) fn all_differ(parts: &[Part], point: &[i64]) -> bool
    requires fit { PartsAreFit (points point.now) parts.now }
    requires within { All IsWithin point.now }
    ensures { result ≡ are_distinct (all_meant point.now parts.now) }
{
    for place in 0..parts.len() {
        if !differs_from_later(parts, place, point) {
            return false;
        }
    }
    true
}

// Whether no later part is the same number as that at the place.
fn differs_from_later(parts: &[Part], place: usize, point: &[i64]) -> bool
    requires fit { PartsAreFit (points point.now) parts.now }
    requires within { All IsWithin point.now }
    requires place { place < length parts.now }
    ensures { result ≡ first_differs (all_meant point.now (drop place parts.now)) }
{
    let x = number(parts[place], point);
    for later in place + 1..parts.len() {
        if number(parts[later], point) == x {
            return false;
        }
    }
    true
}
