ghost use Rattle.std.specs.Prelude.{◌≡◌, ◌<◌, IsTrue, IfSome, Some, pos, map, length, drop};
ghost use Rattle.std.specs.List.{list_any};
ghost use Rattle.ms_num.specs.Numbers.{add_at};
ghost use Rattle.ms_num.specs.Span.{IsWithin, point as single};
ghost use Rattle.ms_trees.specs.Value.{value, folded, extreme, counted, all_true, any_true, first_differs, are_distinct, is_row};
ghost use Rattle.ms_trees.specs.Enclosure.{enclosure, points};
ghost use Rattle.ms_trees.specs.Kept.{KeepsNumbers, part};
ghost use Rattle.ms_trees.specs.Access.{number_of};
ghost use Rattle.ms_trees.specs.Extreme.{extreme_at as operation_of};
ghost use Rattle.ms_trees.specs.WellFormed.{is_well_formed, are_numbers, are_truths, sums_fit, checked};

use crate::access::{grid_place, line_place};
use crate::extreme::Extreme;
use crate::kept::KEPT;
use crate::numbers::{
    are_equal, differ, difference, is_entry, magnitude, negated, one_if_same, pair, product,
    quotient, remainder, sum,
};
use crate::table::Row;
use crate::tree::Ground;

/// The number of an integer tree on the point, unless it is undefined there.
#[cycle(meaning)]
pub fn value_at(g: &Ground, point: &[i64]) -> Option<i64>
    requires { IsTrue (is_well_formed (points point.now) g.now) }
    ensures { result ≡ (value point.now g.now).number }
{
    match g {
        Ground::Num(n) => Some(*n),
        Ground::Var(v) => Some(point[*v as usize]),
        Ground::Add(a, b) => match pair(value_at(a.get(), point), value_at(b.get(), point)) {
            Some((x, y)) => Some(sum(x, y)),
            None => None,
        },
        Ground::Sub(a, b) => match pair(value_at(a.get(), point), value_at(b.get(), point)) {
            Some((x, y)) => Some(difference(x, y)),
            None => None,
        },
        Ground::Mul(a, b) => match pair(value_at(a.get(), point), value_at(b.get(), point)) {
            Some((x, y)) => Some(product(x, y)),
            None => None,
        },
        Ground::Div(a, b) => match pair(value_at(a.get(), point), value_at(b.get(), point)) {
            Some((x, y)) => quotient(x, y),
            None => None,
        },
        Ground::Mod(a, b) => match pair(value_at(a.get(), point), value_at(b.get(), point)) {
            Some((x, y)) => remainder(x, y),
            None => None,
        },
        Ground::Neg(a) => match value_at(a.get(), point) {
            Some(x) => Some(negated(x)),
            None => None,
        },
        Ground::Abs(a) => match value_at(a.get(), point) {
            Some(x) => Some(magnitude(x)),
            None => None,
        },
        Ground::Sum(parts) => sum_at(parts.as_slice(), point),
        Ground::Least(parts) => extreme_at(Extreme::Least, parts.as_slice(), point),
        Ground::Greatest(parts) => extreme_at(Extreme::Greatest, parts.as_slice(), point),
        Ground::ToInt(a) => Some(if holds(a.get(), point) { 1 } else { 0 }),
        Ground::Elem(low, parts, index) => match value_at(index.get(), point) {
            Some(z) => selected_at(parts.as_slice(), line_place(*low, z, parts.len()), point),
            None => None,
        },
        Ground::Elem2(low, left, width, parts, row, column) => match pair(
            value_at(row.get(), point),
            value_at(column.get(), point),
        ) {
            Some((y, z)) => {
                let place = grid_place(*low, *left, *width as usize, parts.len(), y, z);
                selected_at(parts.as_slice(), place, point)
            }
            None => None,
        },
        Ground::Count(parts, a) => match value_at(a.get(), point) {
            Some(n) => count_at(parts.as_slice(), n, point),
            None => None,
        },
        Ground::IteI(condition, a, b) => {
            if holds(condition.get(), point) {
                value_at(a.get(), point)
            } else {
                value_at(b.get(), point)
            }
        }
        _ => None,
    }
}

/// Whether a Boolean tree is true on the point.
#[cycle(meaning)]
pub fn holds(g: &Ground, point: &[i64]) -> bool
    requires { IsTrue (is_well_formed (points point.now) g.now) }
    ensures { result ≡ (value point.now g.now).truth }
{
    match g {
        Ground::True => true,
        Ground::BVar(v) => point[*v as usize] == 1,
        Ground::And(parts) => all_hold(parts.as_slice(), point),
        Ground::Or(parts) => some_holds(parts.as_slice(), point),
        Ground::Not(a) => !holds(a.get(), point),
        Ground::Iff(a, b) => are_equal(holds(a.get(), point), holds(b.get(), point)),
        Ground::Imp(a, b) => !holds(a.get(), point) || holds(b.get(), point),
        Ground::Xor(a, b) => !are_equal(holds(a.get(), point), holds(b.get(), point)),
        Ground::Eq(a, b) => match pair(value_at(a.get(), point), value_at(b.get(), point)) {
            Some((x, y)) => x == y,
            None => false,
        },
        Ground::Ne(a, b) => match pair(value_at(a.get(), point), value_at(b.get(), point)) {
            Some((x, y)) => x != y,
            None => false,
        },
        Ground::Lt(a, b) => match pair(value_at(a.get(), point), value_at(b.get(), point)) {
            Some((x, y)) => x < y,
            None => false,
        },
        Ground::Le(a, b) => match pair(value_at(a.get(), point), value_at(b.get(), point)) {
            Some((x, y)) => x <= y,
            None => false,
        },
        Ground::IteB(condition, a, b) => {
            if holds(condition.get(), point) {
                holds(a.get(), point)
            } else {
                holds(b.get(), point)
            }
        }
        Ground::In(a, ranges) => match value_at(a.get(), point) {
            Some(x) => ranges.has(x),
            None => false,
        },
        Ground::AllDiff(parts) => all_differ(parts.as_slice(), point),
        Ground::Table(parts, rows) => is_some_row(parts.as_slice(), rows.as_slice(), point),
        _ => false,
    }
}

#[cycle(meaning)]
fn sum_at(parts: &[Ground], point: &[i64]) -> Option<i64>
    requires fit { IsTrue (are_numbers (map (checked (points point.now)) parts.now)) }
    requires narrow { IsTrue (sums_fit (Some (single (pos 0))) (map (enclosure (points point.now)) parts.now)) }
    ensures { result ≡ folded add_at (Some (pos 0)) (map (value point.now) parts.now) }
{
    let mut total = 0i64;
    for part in parts {
        match value_at(part, point) {
            Some(x) => total = sum(total, x),
            None => return None,
        }
    }
    Some(total)
}

#[cycle(meaning)]
fn extreme_at(which: Extreme, parts: &[Ground], point: &[i64]) -> Option<i64>
    requires { IsTrue (are_numbers (map (checked (points point.now)) parts.now)) }
    ensures { result ≡ extreme (operation_of which) (map (value point.now) parts.now) }
{
    let mut best = None;
    for part in parts {
        match value_at(part, point) {
            Some(x) => best = Some(which.take(best, x)),
            None => return None,
        }
    }
    best
}

// The number of the part at the place, if there is a place.
#[cycle(meaning)]
fn selected_at(parts: &[Ground], place: Option<usize>, point: &[i64]) -> Option<i64>
    requires fit { IsTrue (are_numbers (map (checked (points point.now)) parts.now)) }
    requires place { IfSome place (λ p. p < length parts.now) }
    ensures { result ≡ number_of (map (value point.now) parts.now) place }
{
    match place {
        Some(place) => value_at(&parts[place], point),
        None => None,
    }
}

#[cycle(meaning)]
fn count_at(parts: &[Ground], n: i64, point: &[i64]) -> Option<i64>
    requires fit { IsTrue (are_numbers (map (checked (points point.now)) parts.now)) }
    requires narrow { IfSome (counted (map (value point.now) parts.now) (Some n)) IsWithin }
    ensures { result ≡ counted (map (value point.now) parts.now) (Some n) }
{
    let mut count = 0usize;
    for part in parts {
        match value_at(part, point) {
            Some(x) => count += one_if_same(x, n),
            None => return None,
        }
    }
    Some(count as i64)
}

#[cycle(meaning)]
fn all_hold(parts: &[Ground], point: &[i64]) -> bool
    requires { IsTrue (are_truths (map (checked (points point.now)) parts.now)) }
    ensures { result ≡ all_true (map (value point.now) parts.now) }
{
    for part in parts {
        if !holds(part, point) {
            return false;
        }
    }
    true
}

#[cycle(meaning)]
fn some_holds(parts: &[Ground], point: &[i64]) -> bool
    requires { IsTrue (are_truths (map (checked (points point.now)) parts.now)) }
    ensures { result ≡ any_true (map (value point.now) parts.now) }
{
    for part in parts {
        if holds(part, point) {
            return true;
        }
    }
    false
}

// The numbers of the first parts, each asked once.
#[cycle(meaning)]
fn first_numbers(parts: &[Ground], point: &[i64]) -> [Option<i64>; KEPT]
    requires { IsTrue (are_numbers (map (checked (points point.now)) parts.now)) }
    ensures { KeepsNumbers point.now parts.now result }
{
    let mut kept = [None; KEPT];
    for place in 0..parts.len().min(KEPT) {
        kept[place] = value_at(&parts[place], point);
    }
    kept
}

// The number of the part at the place.
#[cycle(meaning)]
fn number_at(
    parts: &[Ground],
    kept: &[Option<i64>; KEPT],
    place: usize,
    point: &[i64],
) -> Option<i64>
    requires fit { IsTrue (are_numbers (map (checked (points point.now)) (drop place parts.now))) }
    requires place { place < length parts.now }
    requires kept { KeepsNumbers point.now parts.now kept.now }
    ensures { result ≡ (value point.now (part parts.now place)).number }
{
    if place < KEPT {
        kept[place]
    } else {
        value_at(&parts[place], point)
    }
}

#[cycle(meaning)]
fn all_differ(parts: &[Ground], point: &[i64]) -> bool
    requires { IsTrue (are_numbers (map (checked (points point.now)) parts.now)) }
    ensures { result ≡ are_distinct (map (value point.now) parts.now) }
{
    let kept = first_numbers(parts, point);
    for place in 0..parts.len() {
        if !differs_from_later(parts, &kept, place, point) {
            return false;
        }
    }
    true
}

// The part at the place is a number, and no later part is the same.
#[cycle(meaning)]
fn differs_from_later(
    parts: &[Ground],
    kept: &[Option<i64>; KEPT],
    place: usize,
    point: &[i64],
) -> bool
    requires fit { IsTrue (are_numbers (map (checked (points point.now)) (drop place parts.now))) }
    requires place { place < length parts.now }
    requires kept { KeepsNumbers point.now parts.now kept.now }
    ensures { result ≡ first_differs (map (value point.now) (drop place parts.now)) }
{
    let x = number_at(parts, kept, place, point);
    if x.is_none() {
        return false;
    }
    for later in place + 1..parts.len() {
        if !differ(x, number_at(parts, kept, later, point)) {
            return false;
        }
    }
    true
}

#[cycle(meaning)]
fn is_some_row(parts: &[Ground], rows: &[Row], point: &[i64]) -> bool
    requires { IsTrue (are_numbers (map (checked (points point.now)) parts.now)) }
    ensures { result ≡ list_any (is_row (map (value point.now) parts.now)) rows.now }
{
    let kept = first_numbers(parts, point);
    for row in rows {
        if are_numbers(parts, &kept, row.as_slice(), point) {
            return true;
        }
    }
    false
}

// The parts are the numbers, one by one.
#[cycle(meaning)]
fn are_numbers(parts: &[Ground], kept: &[Option<i64>; KEPT], row: &[i64], point: &[i64]) -> bool
    requires fit { IsTrue (are_numbers (map (checked (points point.now)) parts.now)) }
    requires kept { KeepsNumbers point.now parts.now kept.now }
    ensures { result ≡ is_row (map (value point.now) parts.now) row.now }
{
    if parts.len() != row.len() {
        return false;
    }
    for place in 0..parts.len() {
        if !is_entry(number_at(parts, kept, place, point), row, place) {
            return false;
        }
    }
    true
}
