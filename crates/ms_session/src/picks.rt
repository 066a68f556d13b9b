ghost use Rattle.std.specs.Prelude.{◌≡◌, length};
ghost use Rattle.ms_num.specs.Sets.{set_of, set_size};
ghost use Rattle.ms_boxes.specs.Boxes.{set_at, box_of};
ghost use Rattle.ms_boxes.specs.Branchings.{is_unfixed as unfixed_in, first_unfixed as first_of, smallest_unfixed as smallest_of, named_unfixed as named_in, places, pick as picked};
ghost use Rattle.ms_session.specs.Plain.{best_of};

use ms_ground::{Branching, ValueChoice};
use ms_num::Ranges;

/// The variable of the box that is split, and which of its values are tried first.
pub fn pick(sets: &[Ranges], branching: &Branching) -> Option<(usize, ValueChoice)>
    ensures { result ≡ picked branching.now (box_of sets.now) }
{
    match named_unfixed(sets, branching) {
        Some(variable) => Some((variable, branching.value)),
        None => match first_in_order(sets) {
            Some(variable) => Some((variable, ValueChoice::Least)),
            None => None,
        },
    }
}

// The variable that the branching names, where one of its own is unfixed.
fn named_unfixed(sets: &[Ranges], branching: &Branching) -> Option<usize>
    ensures { result ≡ named_in branching.now (box_of sets.now) }
{
    if branching.by_size {
        smallest_unfixed(sets, branching.order.as_slice())
    } else {
        first_unfixed(sets, branching.order.as_slice())
    }
}

fn first_unfixed(sets: &[Ranges], variables: &[u32]) -> Option<usize>
    ensures { result ≡ first_of (box_of sets.now) variables.now }
{
    for variable in variables {
        if is_unfixed(sets, *variable as usize) {
            return Some(*variable as usize);
        }
    }
    None
}

fn first_in_order(sets: &[Ranges]) -> Option<usize>
    ensures { result ≡ first_of (box_of sets.now) (places (length sets.now)) }
{
    for variable in 0..sets.len() {
        if is_unfixed(sets, variable) {
            return Some(variable);
        }
    }
    None
}

// The first of the unfixed variables with the fewest values.
fn smallest_unfixed(sets: &[Ranges], variables: &[u32]) -> Option<usize>
    ensures { result ≡ smallest_of (box_of sets.now) variables.now }
{
    let mut best = None;
    for variable in variables {
        if is_unfixed(sets, *variable as usize) {
            best = Some(smaller_of(sets, best, *variable as usize));
        }
    }
    best
}

// The best so far, unless the next variable has fewer values.
fn smaller_of(sets: &[Ranges], best: Option<usize>, variable: usize) -> usize
    ensures { result ≡ best_of (box_of sets.now) best variable }
{
    match best {
        Some(best) if size_at(sets, best) <= size_at(sets, variable) => best,
        _ => variable,
    }
}

fn is_unfixed(sets: &[Ranges], variable: usize) -> bool
    ensures { result ≡ unfixed_in (box_of sets.now) variable }
{
    size_at(sets, variable) >= 2
}

// How many values the variable has; a variable that the box has not has none.
fn size_at(sets: &[Ranges], variable: usize) -> u64
    ensures { result ≡ set_size (set_at (box_of sets.now) variable) }
{
    if variable < sets.len() {
        sets[variable].size()
    } else {
        0
    }
}
