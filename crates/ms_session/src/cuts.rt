ghost use Rattle.std.specs.Prelude.{◌≡◌, ◌≢◌, ◌<ℤ◌, [], IfOk};
ghost use Rattle.ms_num.specs.Span.{IsInterval};
ghost use Rattle.ms_num.specs.Sets.{set_of, IsSet, IsCut, IsMiddle, span_of};
ghost use Rattle.ms_boxes.specs.Branchings.{is_tried, is_left};

use ms_ground::ValueChoice;
use ms_num::{Iv, Ranges};
use std::alloc::{AllocError, Global};

/// The values that are tried first, of a set with two or more.
pub fn values_tried(alloc: Global, set: &Ranges, choice: ValueChoice) -> Result<Ranges, AllocError>
    requires some { set.now ≢ [] }
    requires unfixed { (set_of set.now).lo <ℤ (set_of set.now).hi }
    ensures { IfOk result (λ part. IsCut (is_tried choice (set_of set.now)) (set_of set.now) (set_of part)) }
{
    let whole = set.ends();
    match choice {
        ValueChoice::Least => set.at_most(alloc, whole.lo()),
        ValueChoice::Greatest => set.at_least(alloc, whole.hi()),
        ValueChoice::LowerHalf => set.at_most(alloc, middle(whole)),
    }
}

/// The values that are left for later, of a set with two or more.
pub fn values_left(alloc: Global, set: &Ranges, choice: ValueChoice) -> Result<Ranges, AllocError>
    requires some { set.now ≢ [] }
    requires unfixed { (set_of set.now).lo <ℤ (set_of set.now).hi }
    ensures { IfOk result (λ part. IsCut (is_left choice (set_of set.now)) (set_of set.now) (set_of part)) }
{
    let whole = set.ends();
    match choice {
        ValueChoice::Least => set.without(alloc, whole.lo()),
        ValueChoice::Greatest => set.without(alloc, whole.hi()),
        ValueChoice::LowerHalf => set.at_least(alloc, middle(whole) + 1),
    }
}

// Half the sum of both ends, rounded down.
fn middle(iv: Iv) -> i64
    ensures value { IsMiddle iv.lo iv.hi result }
    ensures interval { IsInterval iv }
{
    let (lo, hi) = (iv.lo(), iv.hi());
    lo + (hi - lo) / 2
}
