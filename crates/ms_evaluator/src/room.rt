ghost use Rattle.std.specs.Prelude.{◌≡◌, ◌<◌, ◌+◌, ◌&&◌, not, true, false, Some, length, drop};
ghost use Rattle.std.specs.List.{list_any};
ghost use Rattle.ms_trees.specs.Enclosure.{all_some, any_may_be_undefined, have_room as have_room_of, room_from, has_room, held as held_of, some_meet as some_meet_of, compare_intervals, meets as meets_of};
ghost use Rattle.ms_trees.specs.declared.tree.Enclosure.{Enclosure};
ghost use Rattle.ms_evaluator.specs.Claims.{part_at};

use ms_ground::operations::meets;
use ms_ground::room::{between, has_many, lies_in, one_if};
use ms_num::Iv;
use ms_trees::Enclosure;

/// A part may be undefined.
pub(crate) fn some_undefined(parts: &[Enclosure]) -> bool
    ensures { result ≡ any_may_be_undefined parts.now }
{
    some_marked(parts)
}

fn some_marked(parts: &[Enclosure]) -> bool
    ensures { result ≡ list_any (λ (q : Enclosure). q.may_be_undefined) parts.now }
{
    parts.iter().any(|part| part.may_be_undefined)
}

/// Each part has an interval.
pub(crate) fn all_intervals(parts: &[Enclosure]) -> bool
    ensures { result ≡ all_some parts.now }
{
    parts.iter().all(|part| part.interval.is_some())
}

/// The intervals of two parts meet.
pub(crate) fn some_meet(parts: &[Enclosure]) -> bool
    ensures { result ≡ some_meet_of parts.now }
{
    for place in 0..parts.len() {
        if meets_later(parts, place) {
            return true;
        }
    }
    false
}

// The interval of the part meets that of a later one.
fn meets_later(parts: &[Enclosure], place: usize) -> bool
    requires { place < length parts.now }
    ensures { result ≡ list_any (λ q. compare_intervals meets_of (part_at parts.now place).interval q.interval) (drop (place + 1) parts.now) }
{
    let (_, later) = parts.split_at(place + 1);
    meets_some(parts[place].interval, later)
}

fn meets_some(x: Option<Iv>, parts: &[Enclosure]) -> bool
    ensures { result ≡ list_any (λ q. compare_intervals meets_of x q.interval) parts.now }
{
    parts.iter().any(|part| meets(x, part.interval))
}

/// Two parts that are neighbours in the order meet.
pub(crate) fn meets_neighbour(parts: &[Enclosure], order: &[(i64, u32)]) -> bool
    ensures { result ≡ true → some_meet_of parts.now ≡ true }
{
    for i in 1..order.len() {
        if two_meet(parts, order[i - 1].1 as usize, order[i].1 as usize) {
            return true;
        }
    }
    false
}

fn two_meet(parts: &[Enclosure], j: usize, k: usize) -> bool
    ensures { result ≡ true → some_meet_of parts.now ≡ true }
{
    if j < k {
        first_meets(parts, j, k)
    } else {
        first_meets(parts, k, j)
    }
}

fn first_meets(parts: &[Enclosure], j: usize, k: usize) -> bool
    ensures { result ≡ true → some_meet_of parts.now ≡ true }
{
    if j >= k || k >= parts.len() {
        return false;
    }
    meets(parts[j].interval, parts[k].interval)
}

// How many of the parts lie within the range.
fn held(parts: &[Enclosure], range: Iv) -> usize
    ensures { result ≡ held_of range.lo range.hi parts.now }
{
    let mut held = 0usize;
    for part in parts {
        held += one_if(lies_in(part.interval, range));
    }
    held
}

// The range from the lower end of one interval to the upper end of another has room.
fn has_room_between(parts: &[Enclosure], start: Iv, end: Option<Iv>) -> bool
    ensures { result ≡ not (compare_intervals (λ s t. not (has_room s.lo t.hi parts.now)) (Some start) end) }
{
    match between(start, end) {
        Some(range) => has_many(range, held(parts, range)),
        None => true,
    }
}

fn has_room_from(parts: &[Enclosure], start: Iv) -> bool
    ensures { result ≡ room_from parts.now (Some start) }
{
    parts
        .iter()
        .all(|part| has_room_between(parts, start, part.interval))
}

/// Each part has an interval, and each range has room for the parts within it.
pub(crate) fn have_room(parts: &[Enclosure]) -> bool
    ensures { result ≡ (all_some parts.now && have_room_of parts.now) }
{
    all_intervals(parts) && ranges_have_room(parts)
}

fn has_room_after(parts: &[Enclosure], start: Option<Iv>) -> bool
    ensures { result ≡ room_from parts.now start }
{
    match start {
        Some(start) => has_room_from(parts, start),
        None => true,
    }
}

fn ranges_have_room(parts: &[Enclosure]) -> bool
    ensures { result ≡ have_room_of parts.now }
{
    parts
        .iter()
        .all(|part| has_room_after(parts, part.interval))
}

/// The range from the lower end of one part to the upper end of another holds too many parts.
pub(crate) fn is_crowded(parts: &[Enclosure], first: usize, last: usize) -> bool
    ensures { result ≡ true → have_room_of parts.now ≡ false }
{
    if first >= parts.len() || last >= parts.len() {
        return false;
    }
    match parts[first].interval {
        Some(start) => !has_room_between(parts, start, parts[last].interval),
        None => false,
    }
}
