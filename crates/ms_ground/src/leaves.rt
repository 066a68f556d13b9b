//! What leaves may mean: numbers and variables.

ghost use Rattle.std.specs.Prelude.{◌≡◌, ◌&&◌, Some, false, int_le, pos};
ghost use Rattle.ms_num.specs.Span.{is_narrow as is_narrow_of, point, has};
ghost use Rattle.ms_trees.specs.Enclosure.{numeric_enclosure, boolean_enclosure, span_at};
ghost use Rattle.ms_trees.specs.WellFormed.{fits, has_variable};
ghost use Rattle.ms_ground.specs.Known.{known};

use crate::operations::{boolean, numeric};
use ms_num::{Intervals, Iv, LIMIT};
use ms_trees::Enclosure;

/// A number, where it is within the limits.
pub fn constant(n: i64) -> Option<Enclosure>
    ensures { result ≡ known (is_narrow_of (point n)) (numeric_enclosure (Some (point n)) false) }
{
    Some(numeric(Some(Iv::narrow(n, n)?), false))
}

/// An integer variable, where it is one of the box.
pub fn variable<B: Intervals>(v: u32, sets: B) -> Option<Enclosure>
    ensures { result ≡ known (has_variable (B.spans sets) v && fits (Some (span_at (B.spans sets) v))) (numeric_enclosure (Some (span_at (B.spans sets) v)) false) }
{
    let set = sets.interval(v)?;
    if is_proper(set) {
        Some(numeric(Some(set), false))
    } else {
        None
    }
}

/// A Boolean variable, where it is one of the box and has no numbers but 0 and 1.
pub fn bit_variable<B: Intervals>(v: u32, sets: B) -> Option<Enclosure>
    ensures { result ≡ known (has_variable (B.spans sets) v && int_le (pos 0) (span_at (B.spans sets) v).lo && int_le (span_at (B.spans sets) v).hi (pos 1)) (boolean_enclosure (has (span_at (B.spans sets) v) (pos 1)) (has (span_at (B.spans sets) v) (pos 0))) }
{
    let set = sets.interval(v)?;
    if is_bit(set) {
        Some(boolean(set.has(1), set.has(0)))
    } else {
        None
    }
}

fn is_proper(set: Iv) -> bool
    ensures { result ≡ (int_le set.lo set.hi && fits (Some set)) }
{
    set.lo() <= set.hi() && -LIMIT <= set.lo() && set.hi() <= LIMIT
}

fn is_bit(set: Iv) -> bool
    ensures { result ≡ (int_le set.lo set.hi && int_le (pos 0) set.lo && int_le set.hi (pos 1)) }
{
    set.lo() <= set.hi() && 0 <= set.lo() && set.hi() <= 1
}
