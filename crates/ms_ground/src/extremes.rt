//! The least and the greatest of parts, one part after the other.

ghost use Rattle.std.specs.Prelude.{◌≡◌};
ghost use Rattle.ms_trees.specs.Enclosure.{both_intervals};
ghost use Rattle.ms_trees.specs.Extreme.{extreme_span, so_far_on};

use crate::operations::numeric;
use ms_num::Iv;
use ms_trees::{Enclosure, Extreme};

/// One part more, where there may be none yet.
pub fn take_more(which: Extreme, best: Option<Enclosure>, x: Enclosure) -> Enclosure
    ensures { result ≡ so_far_on (extreme_span which) best x }
{
    match best {
        None => numeric(x.interval, x.may_be_undefined),
        Some(best) => numeric(
            of_both(which, best.interval, x.interval),
            best.may_be_undefined || x.may_be_undefined,
        ),
    }
}

/// The interval of the one of two numbers, where both parts have one.
pub fn of_both(which: Extreme, x: Option<Iv>, y: Option<Iv>) -> Option<Iv>
    ensures { result ≡ both_intervals (extreme_span which) x y }
{
    match (x, y, which) {
        (Some(x), Some(y), Extreme::Least) => Some(x.min2(y)),
        (Some(x), Some(y), Extreme::Greatest) => Some(x.max2(y)),
        _ => None,
    }
}
