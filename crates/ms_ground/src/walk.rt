//! What a tree may mean on a box, where it is well formed there: one walk that is the test too.

ghost use Rattle.std.specs.Prelude.{◌≡◌, ◌<◌, ◌≤◌, IsTrue, Some, false, true, pos, map, length, ◌||◌, ◌&&◌, not, MatchOption, drop};
ghost use Rattle.std.specs.List.{list_any};
ghost use Rattle.ms_num.specs.Span.{add_span, point as single};
ghost use Rattle.ms_trees.specs.Enclosure.{enclosure, numeric_enclosure, boolean_enclosure, folded_intervals, any_may_be_undefined, all_may_be_true, any_may_be_false, any_may_be_true, all_may_be_false, extreme_enclosure, selected_enclosure, counted_enclosure, all_some, some_meet, has_room, room_from, have_room, some_several, may_be_row, distinct, rowed, test_interval};
ghost use Rattle.ms_trees.specs.Kept.{part};
ghost use Rattle.ms_trees.specs.Access.{reaches as reached_by};
ghost use Rattle.ms_trees.specs.Extreme.{extreme_span as operation_of};
ghost use Rattle.ms_trees.specs.WellFormed.{are_numbers, sums_fit, checked};
ghost use Rattle.ms_ground.specs.Kept.{KeepsParts};
ghost use Rattle.ms_ground.specs.Known.{known, number_on, truth_on, numbers_of, node_of_numbers, node_of_truths};
ghost use Rattle.ms_ground.specs.Room.{first_meets};

use crate::extremes::take_more;
use crate::leaves::{bit_variable, constant, variable};
use crate::misses::{misses, misses_grid};
use crate::operations::{
    are_one, at_most, bit, boolean, denial, difference, either, either_of_truths, equal,
    equivalence, exclusive, gather, implication, less, magnitude, meets, membership, negation,
    numeric, product, quotient, remainder, sum, tabled, unequal, within,
};
use crate::room::{admits, between, counted, has_many, is_unsure, keep, lies_in, one_if};
use ms_num::{Intervals, Iv};
use ms_trees::{Access, Enclosure, Extreme, Ground, KEPT, Row, reaches};

/// What the tree may mean on the box, where it is a well formed integer tree.
#[cycle(walk)]
pub fn number<B: Intervals>(g: &Ground, sets: B) -> Option<Enclosure>
    ensures { result ≡ number_on (B.spans sets) g.now }
{
    match g {
        Ground::Num(n) => constant(*n),
        Ground::Undef => Some(numeric(None, true)),
        Ground::Var(v) => variable(*v, sets),
        Ground::Add(a, b) => sum(number(a.get(), sets)?, number(b.get(), sets)?),
        Ground::Sub(a, b) => difference(number(a.get(), sets)?, number(b.get(), sets)?),
        Ground::Mul(a, b) => product(number(a.get(), sets)?, number(b.get(), sets)?),
        Ground::Div(a, b) => quotient(number(a.get(), sets)?, number(b.get(), sets)?),
        Ground::Mod(a, b) => remainder(number(a.get(), sets)?, number(b.get(), sets)?),
        Ground::Neg(a) => negation(number(a.get(), sets)?),
        Ground::Abs(a) => magnitude(number(a.get(), sets)?),
        Ground::Sum(parts) => sum_on(parts.as_slice(), sets),
        Ground::Least(parts) => extreme_on(Extreme::Least, parts.as_slice(), sets),
        Ground::Greatest(parts) => extreme_on(Extreme::Greatest, parts.as_slice(), sets),
        Ground::ToInt(a) => Some(bit(truth(a.get(), sets)?)),
        Ground::Elem(low, parts, index) => {
            let i = number(index.get(), sets)?;
            let none = misses(*low, parts.len(), i);
            let access = Access::along(*low, i.interval);
            selected_on(parts.as_slice(), &access, none, sets)
        }
        Ground::Elem2(low, left, width, parts, row, column) => {
            let i = number(row.get(), sets)?;
            let j = number(column.get(), sets)?;
            let width = *width as usize;
            let none = misses_grid(*low, *left, width, parts.len(), i, j);
            let access = Access::over(*low, *left, width, parts.len(), i.interval, j.interval);
            selected_on(parts.as_slice(), &access, none, sets)
        }
        Ground::Count(parts, a) => count_on(parts.as_slice(), number(a.get(), sets)?, sets),
        Ground::IteI(condition, a, b) => {
            let c = truth(condition.get(), sets)?;
            either(c, number(a.get(), sets)?, number(b.get(), sets)?)
        }
        _ => None,
    }
}

/// What the tree may mean on the box, where it is a well formed Boolean tree.
#[cycle(walk)]
pub fn truth<B: Intervals>(g: &Ground, sets: B) -> Option<Enclosure>
    ensures { result ≡ truth_on (B.spans sets) g.now }
{
    match g {
        Ground::True => Some(boolean(true, false)),
        Ground::False => Some(boolean(false, true)),
        Ground::BVar(v) => bit_variable(*v, sets),
        Ground::And(parts) => all_on(parts.as_slice(), sets),
        Ground::Or(parts) => any_on(parts.as_slice(), sets),
        Ground::Not(a) => Some(denial(truth(a.get(), sets)?)),
        Ground::Iff(a, b) => Some(equivalence(truth(a.get(), sets)?, truth(b.get(), sets)?)),
        Ground::Imp(a, b) => Some(implication(truth(a.get(), sets)?, truth(b.get(), sets)?)),
        Ground::Xor(a, b) => Some(exclusive(truth(a.get(), sets)?, truth(b.get(), sets)?)),
        Ground::Eq(a, b) => Some(equal(number(a.get(), sets)?, number(b.get(), sets)?)),
        Ground::Ne(a, b) => Some(unequal(number(a.get(), sets)?, number(b.get(), sets)?)),
        Ground::Lt(a, b) => Some(less(number(a.get(), sets)?, number(b.get(), sets)?)),
        Ground::Le(a, b) => Some(at_most(number(a.get(), sets)?, number(b.get(), sets)?)),
        Ground::IteB(condition, a, b) => {
            let c = truth(condition.get(), sets)?;
            Some(either_of_truths(c, truth(a.get(), sets)?, truth(b.get(), sets)?))
        }
        Ground::In(a, ranges) => Some(membership(number(a.get(), sets)?, ranges)),
        Ground::AllDiff(parts) => distinct_on(parts.as_slice(), sets),
        Ground::Table(parts, rows) => rowed_on(parts.as_slice(), rows.as_slice(), sets),
        _ => None,
    }
}

#[cycle(walk)]
fn sum_on<B: Intervals>(parts: &[Ground], sets: B) -> Option<Enclosure>
    ensures { result ≡ known (are_numbers (map (checked (B.spans sets)) parts.now) && sums_fit (Some (single (pos 0))) (map (enclosure (B.spans sets)) parts.now)) (numeric_enclosure (folded_intervals add_span (Some (single (pos 0))) (map (enclosure (B.spans sets)) parts.now)) (any_may_be_undefined (map (enclosure (B.spans sets)) parts.now))) }
{
    let mut total = numeric(Some(Iv::single(0)), false);
    for part in parts {
        total = sum(total, number(part, sets)?)?;
    }
    Some(total)
}

#[cycle(walk)]
fn extreme_on<B: Intervals>(which: Extreme, parts: &[Ground], sets: B) -> Option<Enclosure>
    ensures { result ≡ node_of_numbers (B.spans sets) parts.now (extreme_enclosure (operation_of which) (map (enclosure (B.spans sets)) parts.now)) }
{
    let mut best = None;
    for part in parts {
        best = Some(take_more(which, best, number(part, sets)?));
    }
    match best {
        Some(best) => within(numeric(best.interval, best.may_be_undefined)),
        None => Some(numeric(None, true)),
    }
}

#[cycle(walk)]
fn selected_on<B: Intervals>(
    parts: &[Ground],
    access: &Access,
    none: bool,
    sets: B,
) -> Option<Enclosure>
    ensures { result ≡ node_of_numbers (B.spans sets) parts.now (selected_enclosure (reached_by access.now) none (map (enclosure (B.spans sets)) parts.now)) }
{
    let mut so_far = numeric(None, none);
    for place in 0..parts.len() {
        let x = number(&parts[place], sets)?;
        if reaches(access, place) {
            so_far = gather(so_far, x);
        }
    }
    within(numeric(so_far.interval, so_far.may_be_undefined))
}

#[cycle(walk)]
fn count_on<B: Intervals>(parts: &[Ground], y: Enclosure, sets: B) -> Option<Enclosure>
    ensures { result ≡ node_of_numbers (B.spans sets) parts.now (counted_enclosure (map (enclosure (B.spans sets)) parts.now) y) }
{
    let mut defined = y.interval.is_some();
    let mut may_be_undefined = y.may_be_undefined;
    let mut certain = 0usize;
    let mut possible = 0usize;
    for part in parts {
        let x = number(part, sets)?;
        defined &= x.interval.is_some();
        may_be_undefined |= x.may_be_undefined;
        certain += one_if(are_one(x.interval, y.interval));
        possible += one_if(meets(x.interval, y.interval));
    }
    counted(defined, certain, possible, may_be_undefined)
}

#[cycle(walk)]
fn all_on<B: Intervals>(parts: &[Ground], sets: B) -> Option<Enclosure>
    ensures { result ≡ node_of_truths (B.spans sets) parts.now (boolean_enclosure (all_may_be_true (map (enclosure (B.spans sets)) parts.now)) (any_may_be_false (map (enclosure (B.spans sets)) parts.now))) }
{
    let mut all = boolean(true, false);
    for part in parts {
        let x = truth(part, sets)?;
        all.may_be_true &= x.may_be_true;
        all.may_be_false |= x.may_be_false;
    }
    Some(boolean(all.may_be_true, all.may_be_false))
}

#[cycle(walk)]
fn any_on<B: Intervals>(parts: &[Ground], sets: B) -> Option<Enclosure>
    ensures { result ≡ node_of_truths (B.spans sets) parts.now (boolean_enclosure (any_may_be_true (map (enclosure (B.spans sets)) parts.now)) (all_may_be_false (map (enclosure (B.spans sets)) parts.now))) }
{
    let mut any = boolean(false, true);
    for part in parts {
        let x = truth(part, sets)?;
        any.may_be_true |= x.may_be_true;
        any.may_be_false &= x.may_be_false;
    }
    Some(boolean(any.may_be_true, any.may_be_false))
}

// What the first parts may mean, where each part is a well formed integer tree.
#[cycle(walk)]
fn first_enclosures<B: Intervals>(parts: &[Ground], sets: B) -> Option<[Enclosure; KEPT]>
    ensures { MatchOption result (are_numbers (map (checked (B.spans sets)) parts.now) ≡ false) (KeepsParts (B.spans sets) parts.now) }
{
    let mut kept = [numeric(None, false); KEPT];
    for place in 0..parts.len() {
        keep(&mut kept, place, number(&parts[place], sets)?);
    }
    Some(kept)
}

// What the part at the place may mean.
#[cycle(walk)]
fn enclosure_at<B: Intervals>(
    parts: &[Ground],
    kept: &[Enclosure; KEPT],
    place: usize,
    sets: B,
) -> Enclosure
    requires place { place < length parts.now }
    requires kept { KeepsParts (B.spans sets) parts.now kept.now }
    ensures { result ≡ numbers_of (B.spans sets) (part parts.now place) }
{
    if place < KEPT {
        return kept[place];
    }
    match number(&parts[place], sets) {
        Some(x) => x,
        None => unreachable!(),
    }
}

#[cycle(walk)]
fn distinct_on<B: Intervals>(parts: &[Ground], sets: B) -> Option<Enclosure>
    ensures { result ≡ node_of_numbers (B.spans sets) parts.now (distinct (map (enclosure (B.spans sets)) parts.now)) }
{
    let kept = first_enclosures(parts, sets)?;
    let have_room = all_have_room(parts, &kept, sets);
    Some(boolean(have_room, some_meet_on(parts, &kept, sets)))
}

// Each part has an interval, and each range between two ends has room.
#[cycle(walk)]
fn all_have_room<B: Intervals>(parts: &[Ground], kept: &[Enclosure; KEPT], sets: B) -> bool
    requires { KeepsParts (B.spans sets) parts.now kept.now }
    ensures { result ≡ (all_some (map (enclosure (B.spans sets)) parts.now) && have_room (map (enclosure (B.spans sets)) parts.now)) }
{
    for place in 0..parts.len() {
        let Some(start) = enclosure_at(parts, kept, place, sets).interval else {
            return false;
        };
        if !has_room_from(parts, kept, start, sets) {
            return false;
        }
    }
    true
}

#[cycle(walk)]
fn has_room_from<B: Intervals>(
    parts: &[Ground],
    kept: &[Enclosure; KEPT],
    start: Iv,
    sets: B,
) -> bool
    requires { KeepsParts (B.spans sets) parts.now kept.now }
    ensures { result ≡ room_from (map (enclosure (B.spans sets)) parts.now) (Some start) }
{
    for place in 0..parts.len() {
        let range = between(start, enclosure_at(parts, kept, place, sets).interval);
        if !has_room_on(parts, kept, range, sets) {
            return false;
        }
    }
    true
}

// The range, if there is one, holds the intervals of no more parts than it has numbers.
#[cycle(walk)]
fn has_room_on<B: Intervals>(
    parts: &[Ground],
    kept: &[Enclosure; KEPT],
    range: Option<Iv>,
    sets: B,
) -> bool
    requires { KeepsParts (B.spans sets) parts.now kept.now }
    ensures { result ≡ not (test_interval (λ s. not (has_room s.lo s.hi (map (enclosure (B.spans sets)) parts.now))) range) }
{
    let Some(range) = range else {
        return true;
    };
    if has_many(range, parts.len()) {
        return true;
    }
    let mut held = 0usize;
    for place in 0..parts.len() {
        held += one_if(lies_in(enclosure_at(parts, kept, place, sets).interval, range));
    }
    has_many(range, held)
}

// A part may be undefined, or the intervals of two parts meet.
#[cycle(walk)]
fn some_meet_on<B: Intervals>(parts: &[Ground], kept: &[Enclosure; KEPT], sets: B) -> bool
    requires { KeepsParts (B.spans sets) parts.now kept.now }
    ensures { result ≡ (any_may_be_undefined (map (enclosure (B.spans sets)) parts.now) || some_meet (map (enclosure (B.spans sets)) parts.now)) }
{
    for place in 0..parts.len() {
        if first_meets_on(parts, kept, place, sets) {
            return true;
        }
    }
    false
}

#[cycle(walk)]
fn first_meets_on<B: Intervals>(
    parts: &[Ground],
    kept: &[Enclosure; KEPT],
    place: usize,
    sets: B,
) -> bool
    requires place { place < length parts.now }
    requires kept { KeepsParts (B.spans sets) parts.now kept.now }
    ensures { result ≡ first_meets (map (enclosure (B.spans sets)) (drop place parts.now)) }
{
    let x = enclosure_at(parts, kept, place, sets);
    if x.may_be_undefined {
        return true;
    }
    for later in place + 1..parts.len() {
        if meets(x.interval, enclosure_at(parts, kept, later, sets).interval) {
            return true;
        }
    }
    false
}

#[cycle(walk)]
fn rowed_on<B: Intervals>(parts: &[Ground], rows: &[Row], sets: B) -> Option<Enclosure>
    ensures { result ≡ node_of_numbers (B.spans sets) parts.now (rowed rows.now (map (enclosure (B.spans sets)) parts.now)) }
{
    let kept = first_enclosures(parts, sets)?;
    let fits = some_row_on(parts, &kept, rows, sets);
    Some(tabled(fits, some_unsure_on(parts, &kept, sets)))
}

#[cycle(walk)]
fn some_row_on<B: Intervals>(
    parts: &[Ground],
    kept: &[Enclosure; KEPT],
    rows: &[Row],
    sets: B,
) -> bool
    requires { KeepsParts (B.spans sets) parts.now kept.now }
    ensures { result ≡ list_any (may_be_row (map (enclosure (B.spans sets)) parts.now)) rows.now }
{
    for row in rows {
        if admit_row(parts, kept, row.as_slice(), sets) {
            return true;
        }
    }
    false
}

// The intervals of the parts have the numbers, one by one.
#[cycle(walk)]
fn admit_row<B: Intervals>(parts: &[Ground], kept: &[Enclosure; KEPT], row: &[i64], sets: B) -> bool
    requires { KeepsParts (B.spans sets) parts.now kept.now }
    ensures { result ≡ may_be_row (map (enclosure (B.spans sets)) parts.now) row.now }
{
    if parts.len() != row.len() {
        return false;
    }
    for place in 0..parts.len() {
        if !admits(enclosure_at(parts, kept, place, sets).interval, row, place) {
            return false;
        }
    }
    true
}

// A part may be undefined, or has two numbers or more.
#[cycle(walk)]
fn some_unsure_on<B: Intervals>(parts: &[Ground], kept: &[Enclosure; KEPT], sets: B) -> bool
    requires { KeepsParts (B.spans sets) parts.now kept.now }
    ensures { result ≡ (any_may_be_undefined (map (enclosure (B.spans sets)) parts.now) || some_several (map (enclosure (B.spans sets)) parts.now)) }
{
    for place in 0..parts.len() {
        if is_unsure(enclosure_at(parts, kept, place, sets)) {
            return true;
        }
    }
    false
}
