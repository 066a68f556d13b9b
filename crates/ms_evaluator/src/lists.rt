//! What a node over a list may mean, from what its parts may mean.
//!
//! Those on numbers answer `None` exactly where their interval leaves -2^50..2^50. A list whose numbers have to be
//! distinct is for [`Evaluator::distinct`](crate::Evaluator::distinct), which takes memory.

ghost use Rattle.std.specs.Prelude.{◌≡◌, ◌&&◌, ◌||◌, if◌then◌else◌};
ghost use Rattle.std.specs.List.{list_any, list_all};
ghost use Rattle.ms_num.specs.Span.{join_some};
ghost use Rattle.ms_trees.specs.Value.{how_many};
ghost use Rattle.ms_trees.specs.Access.{reaches as reached_by};
ghost use Rattle.ms_trees.specs.Extreme.{extreme_span as operation_of};
ghost use Rattle.ms_trees.specs.Enclosure.{folded_intervals, selected_enclosure, numeric_enclosure, boolean_enclosure, all_may_be_true as all_true, any_may_be_false as any_false, any_may_be_true as any_true, all_may_be_false as all_false, compare_intervals, same_single, meets as meets_of, rowed as rowed_of, may_be_row, some_several as some_several_of};
ghost use Rattle.ms_trees.specs.declared.tree.Enclosure.{Enclosure};
ghost use Rattle.ms_evaluator.specs.Lists.{total, extreme as extreme_of, element as element_of, element_of_grid as element_in, count as count_of};

use crate::room::{all_intervals, some_undefined};
use ms_ground::extremes::of_both;
use ms_ground::misses::{misses, misses_grid};
use ms_ground::operations::{self, are_one, boolean, gather, meets, numeric, tabled, within};
use ms_ground::room::{admits, counted, has_several, one_if};
use ms_num::Iv;
use ms_trees::{Access, Enclosure, Extreme, Row, reaches};

/// The sum of the list, tested after each addition.
pub fn sum(parts: &[Enclosure]) -> Option<Enclosure>
    ensures { result ≡ total parts.now }
{
    let mut total = numeric(Some(Iv::single(0)), false);
    for part in parts {
        total = operations::sum(total, *part)?;
    }
    Some(total)
}

/// The least or the greatest of the list; an empty list has none.
pub fn extreme(which: Extreme, parts: &[Enclosure]) -> Option<Enclosure>
    ensures { result ≡ extreme_of (operation_of which) parts.now }
{
    match parts {
        [] => Some(numeric(None, true)),
        [first, rest @ ..] => within(numeric(
            extreme_after(which, first.interval, rest),
            first.may_be_undefined || some_undefined(rest),
        )),
    }
}

fn extreme_after(which: Extreme, first: Option<Iv>, parts: &[Enclosure]) -> Option<Iv>
    ensures { result ≡ folded_intervals (operation_of which) first parts.now }
{
    let mut best = first;
    for part in parts {
        best = of_both(which, best, part.interval);
    }
    best
}

/// The element of an index, where the first has the lowest.
pub fn element(parts: &[Enclosure], low: i64, index: Enclosure) -> Option<Enclosure>
    ensures { result ≡ element_of low parts.now index }
{
    let access = Access::along(low, index.interval);
    within(selected(parts, &access, misses(low, parts.len(), index)))
}

/// The element of a row and a column, in whole rows of the width.
pub fn element_of_grid(
    parts: &[Enclosure],
    low: i64,
    left: i64,
    width: usize,
    row: Enclosure,
    column: Enclosure,
) -> Option<Enclosure>
    ensures { result ≡ element_in low left width parts.now row column }
{
    let (i, j) = (row.interval, column.interval);
    let none = misses_grid(low, left, width, parts.len(), row, column);
    let access = Access::over(low, left, width, parts.len(), i, j);
    within(selected(parts, &access, none))
}

// The elements that the access takes, where `none` says that there may be none.
fn selected(parts: &[Enclosure], access: &Access, none: bool) -> Enclosure
    ensures { result ≡ selected_enclosure (reached_by access.now) none parts.now }
{
    let mut so_far = numeric(None, false);
    let mut place = parts.len();
    while place > 0 {
        place -= 1;
        so_far = gathered(so_far, parts[place], reaches(access, place));
    }
    numeric(so_far.interval, none || so_far.may_be_undefined)
}

// One part before those that are joined, where it is reached.
fn gathered(so_far: Enclosure, part: Enclosure, is_reached: bool) -> Enclosure
    ensures { result ≡ numeric_enclosure (if is_reached then join_some part.interval so_far.interval else so_far.interval) (is_reached && part.may_be_undefined || so_far.may_be_undefined) }
{
    if is_reached {
        gather(part, so_far)
    } else {
        numeric(so_far.interval, so_far.may_be_undefined)
    }
}

/// How many of the list are `y`.
pub fn count(parts: &[Enclosure], y: Enclosure) -> Option<Enclosure>
    ensures { result ≡ count_of parts.now y }
{
    let defined = all_intervals(parts) & y.interval.is_some();
    let undefined = y.may_be_undefined | some_undefined(parts);
    counted(defined, certain(parts, y), possible(parts, y), undefined)
}

fn certain(parts: &[Enclosure], y: Enclosure) -> usize
    ensures { result ≡ how_many (λ (r : Enclosure). compare_intervals same_single r.interval y.interval) parts.now }
{
    let mut count = 0usize;
    for part in parts {
        count += one_if(are_one(part.interval, y.interval));
    }
    count
}

fn possible(parts: &[Enclosure], y: Enclosure) -> usize
    ensures { result ≡ how_many (λ (r : Enclosure). compare_intervals meets_of r.interval y.interval) parts.now }
{
    let mut count = 0usize;
    for part in parts {
        count += one_if(meets(part.interval, y.interval));
    }
    count
}

/// The conjunction of the list.
pub fn all(parts: &[Enclosure]) -> Enclosure
    ensures { result ≡ boolean_enclosure (all_true parts.now) (any_false parts.now) }
{
    boolean(all_may_be_true(parts), some_may_be_false(parts))
}

/// The disjunction of the list.
pub fn some(parts: &[Enclosure]) -> Enclosure
    ensures { result ≡ boolean_enclosure (any_true parts.now) (all_false parts.now) }
{
    boolean(some_may_be_true(parts), all_may_be_false(parts))
}

fn all_may_be_true(parts: &[Enclosure]) -> bool
    ensures { result ≡ list_all (λ (q : Enclosure). q.may_be_true) parts.now }
{
    parts.iter().all(|part| part.may_be_true)
}

fn some_may_be_false(parts: &[Enclosure]) -> bool
    ensures { result ≡ list_any (λ (q : Enclosure). q.may_be_false) parts.now }
{
    parts.iter().any(|part| part.may_be_false)
}

fn some_may_be_true(parts: &[Enclosure]) -> bool
    ensures { result ≡ list_any (λ (q : Enclosure). q.may_be_true) parts.now }
{
    parts.iter().any(|part| part.may_be_true)
}

fn all_may_be_false(parts: &[Enclosure]) -> bool
    ensures { result ≡ list_all (λ (q : Enclosure). q.may_be_false) parts.now }
{
    parts.iter().all(|part| part.may_be_false)
}

/// Whether the parts may be the numbers of one of the rows.
pub fn rowed(parts: &[Enclosure], rows: &[Row]) -> Enclosure
    ensures { result ≡ rowed_of rows.now parts.now }
{
    tabled(
        some_row(parts, rows),
        some_undefined(parts) || some_several(parts),
    )
}

fn some_row(parts: &[Enclosure], rows: &[Row]) -> bool
    ensures { result ≡ list_any (may_be_row parts.now) rows.now }
{
    rows.iter().any(|row| admit_row(parts, row.as_slice()))
}

// The intervals of the parts have the numbers, one by one.
fn admit_row(parts: &[Enclosure], row: &[i64]) -> bool
    ensures { result ≡ may_be_row parts.now row.now }
{
    if parts.len() != row.len() {
        return false;
    }
    for place in 0..parts.len() {
        if !admits(parts[place].interval, row, place) {
            return false;
        }
    }
    true
}

fn some_several(parts: &[Enclosure]) -> bool
    ensures { result ≡ some_several_of parts.now }
{
    parts.iter().any(|part| has_several(part.interval))
}
