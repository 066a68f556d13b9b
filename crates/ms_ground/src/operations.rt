//! What one operation may mean, from what its parts may mean.
//!
//! Those on numbers answer `None` exactly where their interval leaves -2^50..2^50.

ghost use Rattle.std.specs.Prelude.{◌≡◌, IsTrue, Some, ◌||◌, false, pos, not};
ghost use Rattle.ms_num.specs.Span.{add_span, sub_span, mul_span, div_span, mod_span, neg_span, abs_span, join_some, has};
ghost use Rattle.ms_trees.specs.Value.{iff, imp, xor};
ghost use Rattle.ms_trees.specs.Enclosure.{numeric_enclosure, boolean_enclosure, both_partial, operation, division, image_enclosure, test_interval, compare_intervals, comparison, combined, meets as meets_of, same_single, may_differ as differ_of, may_be_less as less_of, may_be_at_most as at_most_of, may_be_at_least as at_least_of, may_be_greater as greater_of, bits as bits_of, either_number, either_truth, admitted as admitted_of, may_be_in, is_inside};
ghost use Rattle.ms_ground.specs.Known.{within_limits};

use ms_num::{Iv, LIMIT, Ranges};
use ms_trees::Enclosure;

/// What an integer part may mean: an interval of its numbers, if any, and whether it may be undefined.
pub fn numeric(interval: Option<Iv>, may_be_undefined: bool) -> Enclosure
    ensures { result ≡ numeric_enclosure interval may_be_undefined }
{
    Enclosure {
        interval,
        may_be_undefined,
        may_be_true: false,
        may_be_false: false,
    }
}

/// What a Boolean part may mean: whether it may be true, and whether false.
pub fn boolean(may_be_true: bool, may_be_false: bool) -> Enclosure
    ensures { result ≡ boolean_enclosure may_be_true may_be_false }
{
    Enclosure {
        interval: None,
        may_be_undefined: false,
        may_be_true,
        may_be_false,
    }
}

/// The enclosure, where its interval does not leave the limits.
pub fn within(x: Enclosure) -> Option<Enclosure>
    ensures { result ≡ within_limits x }
{
    match x.interval {
        Some(interval) => if -LIMIT <= interval.lo() && interval.hi() <= LIMIT {
            Some(x)
        } else {
            None
        },
        None => Some(x),
    }
}

/// What the sum may mean.
pub fn sum(x: Enclosure, y: Enclosure) -> Option<Enclosure>
    ensures { result ≡ within_limits (operation add_span x y) }
{
    let undefined = x.may_be_undefined || y.may_be_undefined;
    match (x.interval, y.interval) {
        (Some(x), Some(y)) => Some(numeric(Some(x.add(y)?), undefined)),
        _ => Some(numeric(None, undefined)),
    }
}

/// What the difference may mean.
pub fn difference(x: Enclosure, y: Enclosure) -> Option<Enclosure>
    ensures { result ≡ within_limits (operation sub_span x y) }
{
    let undefined = x.may_be_undefined || y.may_be_undefined;
    match (x.interval, y.interval) {
        (Some(x), Some(y)) => Some(numeric(Some(x.sub(y)?), undefined)),
        _ => Some(numeric(None, undefined)),
    }
}

/// What the product may mean.
pub fn product(x: Enclosure, y: Enclosure) -> Option<Enclosure>
    ensures { result ≡ within_limits (operation mul_span x y) }
{
    let undefined = x.may_be_undefined || y.may_be_undefined;
    match (x.interval, y.interval) {
        (Some(x), Some(y)) => Some(numeric(Some(x.mul(y)?), undefined)),
        _ => Some(numeric(None, undefined)),
    }
}

/// What the quotient, cut toward zero, may mean; undefined also where the divisor may be 0.
pub fn quotient(x: Enclosure, y: Enclosure) -> Option<Enclosure>
    ensures { result ≡ within_limits (division div_span x y) }
{
    let undefined = x.may_be_undefined || y.may_be_undefined || may_be_zero(y.interval);
    within(numeric(quotients(x.interval, y.interval), undefined))
}

fn quotients(x: Option<Iv>, y: Option<Iv>) -> Option<Iv>
    ensures { result ≡ both_partial div_span x y }
{
    match (x, y) {
        (Some(x), Some(y)) => x.div_hull(y),
        _ => None,
    }
}

/// What the remainder, with the sign of `x`, may mean; undefined also where the divisor may be 0.
pub fn remainder(x: Enclosure, y: Enclosure) -> Option<Enclosure>
    ensures { result ≡ within_limits (division mod_span x y) }
{
    let undefined = x.may_be_undefined || y.may_be_undefined || may_be_zero(y.interval);
    within(numeric(remainders(x.interval, y.interval), undefined))
}

fn remainders(x: Option<Iv>, y: Option<Iv>) -> Option<Iv>
    ensures { result ≡ both_partial mod_span x y }
{
    match (x, y) {
        (Some(x), Some(y)) => x.mod_hull(y),
        _ => None,
    }
}

fn may_be_zero(x: Option<Iv>) -> bool
    ensures { result ≡ test_interval (λ s. has s (pos 0)) x }
{
    match x {
        Some(x) => x.has(0),
        None => false,
    }
}

/// What the negation may mean.
pub fn negation(x: Enclosure) -> Option<Enclosure>
    ensures { result ≡ within_limits (image_enclosure neg_span x) }
{
    match x.interval {
        Some(interval) => within(numeric(Some(interval.neg()), x.may_be_undefined)),
        None => Some(numeric(None, x.may_be_undefined)),
    }
}

/// What the absolute value may mean.
pub fn magnitude(x: Enclosure) -> Option<Enclosure>
    ensures { result ≡ within_limits (image_enclosure abs_span x) }
{
    match x.interval {
        Some(interval) => within(numeric(Some(interval.abs()), x.may_be_undefined)),
        None => Some(numeric(None, x.may_be_undefined)),
    }
}

/// The number of a truth value: 1 for true and 0 for false.
pub fn bit(x: Enclosure) -> Enclosure
    requires { IsTrue (x.may_be_true || x.may_be_false) }
    ensures { result ≡ numeric_enclosure (Some (bits_of x.may_be_true x.may_be_false)) false }
{
    numeric(Some(bits(x.may_be_true, x.may_be_false)), false)
}

/// The interval of 1 for true and 0 for false.
pub fn bits(may_be_true: bool, may_be_false: bool) -> Iv
    requires { IsTrue (may_be_true || may_be_false) }
    ensures { result ≡ bits_of may_be_true may_be_false }
{
    Iv::new(
        if may_be_false { 0 } else { 1 },
        if may_be_true { 1 } else { 0 },
    )
}

/// One part more of those that are joined.
pub fn gather(so_far: Enclosure, x: Enclosure) -> Enclosure
    ensures { result ≡ numeric_enclosure (join_some so_far.interval x.interval) (so_far.may_be_undefined || x.may_be_undefined) }
{
    numeric(
        Iv::join_some(so_far.interval, x.interval),
        so_far.may_be_undefined || x.may_be_undefined,
    )
}

/// The branches that the condition admits, of two integer trees.
pub fn either(condition: Enclosure, x: Enclosure, y: Enclosure) -> Option<Enclosure>
    ensures { result ≡ within_limits (either_number condition x y) }
{
    let undefined = condition.may_be_true && x.may_be_undefined
        || condition.may_be_false && y.may_be_undefined;
    let first = admitted(condition.may_be_true, x.interval);
    let second = admitted(condition.may_be_false, y.interval);
    within(numeric(Iv::join_some(first, second), undefined))
}

fn admitted(condition: bool, x: Option<Iv>) -> Option<Iv>
    ensures { result ≡ admitted_of condition x }
{
    if condition { x } else { None }
}

/// The branches that the condition admits, of two Boolean trees.
pub fn either_of_truths(condition: Enclosure, x: Enclosure, y: Enclosure) -> Enclosure
    ensures { result ≡ either_truth condition x y }
{
    boolean(
        condition.may_be_true && x.may_be_true || condition.may_be_false && y.may_be_true,
        condition.may_be_true && x.may_be_false || condition.may_be_false && y.may_be_false,
    )
}

/// The truth values of `not x`.
pub fn denial(x: Enclosure) -> Enclosure
    ensures { result ≡ boolean_enclosure x.may_be_false x.may_be_true }
{
    boolean(x.may_be_false, x.may_be_true)
}

/// The truth values of `x <-> y`.
pub fn equivalence(x: Enclosure, y: Enclosure) -> Enclosure
    ensures { result ≡ combined iff x y }
{
    boolean(
        x.may_be_true && y.may_be_true || x.may_be_false && y.may_be_false,
        x.may_be_true && y.may_be_false || x.may_be_false && y.may_be_true,
    )
}

/// The truth values of `x -> y`.
pub fn implication(x: Enclosure, y: Enclosure) -> Enclosure
    ensures { result ≡ combined imp x y }
{
    boolean(
        x.may_be_true && y.may_be_true
            || x.may_be_false && y.may_be_true
            || x.may_be_false && y.may_be_false,
        x.may_be_true && y.may_be_false,
    )
}

/// The truth values of `x xor y`.
pub fn exclusive(x: Enclosure, y: Enclosure) -> Enclosure
    ensures { result ≡ combined xor x y }
{
    boolean(
        x.may_be_true && y.may_be_false || x.may_be_false && y.may_be_true,
        x.may_be_true && y.may_be_true || x.may_be_false && y.may_be_false,
    )
}

/// The truth values of `x = y`, which is false where a part is undefined, as each comparison.
pub fn equal(x: Enclosure, y: Enclosure) -> Enclosure
    ensures { result ≡ comparison meets_of differ_of x y }
{
    let may_be_false = x.may_be_undefined
        || y.may_be_undefined
        || may_differ(x.interval, y.interval);
    boolean(meets(x.interval, y.interval), may_be_false)
}

/// The truth values of `x != y`.
pub fn unequal(x: Enclosure, y: Enclosure) -> Enclosure
    ensures { result ≡ comparison differ_of meets_of x y }
{
    let may_be_false = x.may_be_undefined || y.may_be_undefined || meets(x.interval, y.interval);
    boolean(may_differ(x.interval, y.interval), may_be_false)
}

/// The truth values of `x < y`.
pub fn less(x: Enclosure, y: Enclosure) -> Enclosure
    ensures { result ≡ comparison less_of at_least_of x y }
{
    let may_be_false = x.may_be_undefined
        || y.may_be_undefined
        || may_be_at_least(x.interval, y.interval);
    boolean(may_be_less(x.interval, y.interval), may_be_false)
}

/// The truth values of `x <= y`.
pub fn at_most(x: Enclosure, y: Enclosure) -> Enclosure
    ensures { result ≡ comparison at_most_of greater_of x y }
{
    let may_be_false = x.may_be_undefined
        || y.may_be_undefined
        || may_be_greater(x.interval, y.interval);
    boolean(may_be_at_most(x.interval, y.interval), may_be_false)
}

/// Both have intervals, and these share a number.
pub fn meets(x: Option<Iv>, y: Option<Iv>) -> bool
    ensures { result ≡ compare_intervals meets_of x y }
{
    match (x, y) {
        (Some(x), Some(y)) => x.lo() <= y.hi() && y.lo() <= x.hi(),
        _ => false,
    }
}

fn may_differ(x: Option<Iv>, y: Option<Iv>) -> bool
    ensures { result ≡ compare_intervals differ_of x y }
{
    match (x, y) {
        (Some(x), Some(y)) => !are_same(x, y),
        _ => false,
    }
}

fn may_be_less(x: Option<Iv>, y: Option<Iv>) -> bool
    ensures { result ≡ compare_intervals less_of x y }
{
    match (x, y) {
        (Some(x), Some(y)) => x.lo() < y.hi(),
        _ => false,
    }
}

fn may_be_at_most(x: Option<Iv>, y: Option<Iv>) -> bool
    ensures { result ≡ compare_intervals at_most_of x y }
{
    match (x, y) {
        (Some(x), Some(y)) => x.lo() <= y.hi(),
        _ => false,
    }
}

fn may_be_at_least(x: Option<Iv>, y: Option<Iv>) -> bool
    ensures { result ≡ compare_intervals at_least_of x y }
{
    match (x, y) {
        (Some(x), Some(y)) => y.lo() <= x.hi(),
        _ => false,
    }
}

fn may_be_greater(x: Option<Iv>, y: Option<Iv>) -> bool
    ensures { result ≡ compare_intervals greater_of x y }
{
    match (x, y) {
        (Some(x), Some(y)) => y.lo() < x.hi(),
        _ => false,
    }
}

/// Both are the same single number.
pub fn are_one(x: Option<Iv>, y: Option<Iv>) -> bool
    ensures { result ≡ compare_intervals same_single x y }
{
    match (x, y) {
        (Some(x), Some(y)) => are_same(x, y),
        _ => false,
    }
}

// Both are the same single number.
fn are_same(x: Iv, y: Iv) -> bool
    ensures { result ≡ same_single x y }
{
    x.lo() == x.hi() && x.lo() == y.lo() && y.lo() == y.hi()
}

/// The truth values of membership.
pub fn membership(x: Enclosure, ranges: &Ranges) -> Enclosure
    ensures { result ≡ boolean_enclosure (test_interval (may_be_in ranges.now) x.interval) (x.may_be_undefined || test_interval (λ s. not (is_inside ranges.now s)) x.interval) }
{
    match x.interval {
        Some(numbers) => boolean(
            meets_some(numbers, ranges.ranges()),
            x.may_be_undefined || !lies_in_one(numbers, ranges.ranges()),
        ),
        None => boolean(false, x.may_be_undefined),
    }
}

/// The truth values of a table: whether a row fits, and whether the parts may be undefined or something else.
pub fn tabled(fits: bool, unsure: bool) -> Enclosure
    ensures { result ≡ boolean_enclosure fits (unsure || not fits) }
{
    boolean(fits, unsure || !fits)
}

fn meets_some(x: Iv, ranges: &[Iv]) -> bool
    ensures { result ≡ may_be_in ranges.now x }
{
    ranges
        .iter()
        .any(|range| range.lo() <= x.hi() && x.lo() <= range.hi())
}

fn lies_in_one(x: Iv, ranges: &[Iv]) -> bool
    ensures { result ≡ is_inside ranges.now x }
{
    ranges
        .iter()
        .any(|range| range.lo() <= x.lo() && x.hi() <= range.hi())
}
