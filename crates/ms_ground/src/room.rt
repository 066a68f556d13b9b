//! What lists of distinct numbers, tables and counts ask of intervals.

ghost use Rattle.std.specs.Prelude.{◌≡◌, ◌<◌, length, slice_index_or, ◌≤ℤ◌, ◌+ℤ◌, ◌-ℤ◌, pos, ◌||◌, int_lt, if◌then◌else◌, slice_set, ◌≤◌, Some, None};
ghost use Rattle.ms_num.specs.Span.{has};
ghost use Rattle.ms_trees.specs.Enclosure.{test_interval, numeric_enclosure};
ghost use Rattle.ms_ground.specs.Known.{within_limits};
ghost use Rattle.ms_ground.specs.Room.{between as between_of, has_many as has_many_of, lies_in as lies_in_of};

use crate::operations::numeric;
use ms_num::{Iv, LIMIT};
use ms_trees::{Enclosure, KEPT};

// The greatest number that a count may be.
const MOST: usize = LIMIT as usize;

/// The range from the lower end of one interval to the upper end of the other, where it is not empty.
pub fn between(start: Iv, end: Option<Iv>) -> Option<Iv>
    ensures { result ≡ between_of start end }
{
    match end {
        Some(end) => if start.lo() <= end.hi() {
            Some(Iv::new(start.lo(), end.hi()))
        } else {
            None
        },
        None => None,
    }
}

/// The range has so many numbers or more.
pub fn has_many(range: Iv, count: usize) -> bool
    ensures value { result ≡ has_many_of range count }
    ensures ordered { range.lo ≤ℤ range.hi }
{
    count as i128 <= width(range) as i128
}

fn width(range: Iv) -> i64
    ensures value { result ≡ range.hi -ℤ range.lo +ℤ pos 1 }
    ensures ordered { range.lo ≤ℤ range.hi }
{
    range.hi() - range.lo() + 1
}

/// The interval lies within the range.
pub fn lies_in(x: Option<Iv>, range: Iv) -> bool
    ensures { result ≡ test_interval (lies_in_of range) x }
{
    match x {
        Some(x) => range.lo() <= x.lo() && x.hi() <= range.hi(),
        None => false,
    }
}

/// The interval has the number of the row at the place.
pub fn admits(x: Option<Iv>, row: &[i64], place: usize) -> bool
    requires { place < length row.now }
    ensures { result ≡ test_interval (λ s. has s (slice_index_or row.now place (pos 0))) x }
{
    match x {
        Some(x) => x.has(row[place]),
        None => false,
    }
}

/// The part may be undefined, or it has two numbers or more.
pub fn is_unsure(x: Enclosure) -> bool
    ensures { result ≡ (x.may_be_undefined || test_interval (λ s. int_lt s.lo s.hi) x.interval) }
{
    x.may_be_undefined || has_several(x.interval)
}

/// The interval has two numbers or more.
pub fn has_several(x: Option<Iv>) -> bool
    ensures { result ≡ test_interval (λ s. int_lt s.lo s.hi) x }
{
    match x {
        Some(x) => x.lo() < x.hi(),
        None => false,
    }
}

/// 1 where the test holds, else 0.
pub fn one_if(b: bool) -> usize
    ensures { result ≡ (if b then 1 else 0) }
{
    if b { 1 } else { 0 }
}

/// How many parts are the number: at least the certain ones, at most the possible ones, where all are defined.
pub fn counted(
    defined: bool,
    certain: usize,
    possible: usize,
    may_be_undefined: bool,
) -> Option<Enclosure>
    requires { certain ≤ possible }
    ensures { result ≡ within_limits (numeric_enclosure (if defined then Some (record { lo = pos certain; hi = pos possible }) else None) may_be_undefined) }
{
    if !defined {
        return Some(numeric(None, may_be_undefined));
    }
    if possible > MOST {
        return None;
    }
    let count = Iv::new(certain as i64, possible as i64);
    Some(numeric(Some(count), may_be_undefined))
}

/// Keeps what the part at the place may mean, where it is one of the first.
pub fn keep(kept: &mut [Enclosure; KEPT], place: usize, x: Enclosure)
    ensures { kept.new ≡ slice_set kept.old place x }
{
    if place < KEPT {
        kept[place] = x;
    }
}
