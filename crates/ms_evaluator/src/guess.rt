ghost use Rattle.std.specs.Prelude.{◌≡◌, ◌<◌, ◌^◌, length, OnOk};

use crate::claims::Slot;
use ms_num::Iv;
use ms_trees::Enclosure;
use std::alloc::AllocError;

/// What a guess came to. It is not trusted: what comes out is tested.
#[derive(Clone, Copy)]
pub(crate) enum Guess {
    /// The slots may be claims of single numbers.
    Slots,
    /// The range from the lower end of one part to the upper end of another may hold too many.
    Range(usize, usize),
}

fn lower_end(part: Enclosure) -> i64 {
    part.interval.map_or(0, Iv::lo)
}

fn upper_end(part: Enclosure) -> i64 {
    part.interval.map_or(0, Iv::hi)
}

/// A slot for each part, and the lower ends in rising order.
pub(crate) fn start(
    parts: &[Enclosure],
    slots: &mut Vec<Slot>,
    keys: &mut Vec<(i64, u32)>,
) -> Result<(), AllocError>
    requires { length parts.now < 2 ^ 32 }
    ensures { OnOk result (length slots.new.items ≡ length parts.now) }
{
    slots.clear();
    keys.clear();
    for k in 0..parts.len() {
        slots.push(Slot {
            lo: 0,
            hi: 0,
            owner: 0,
            place: 0,
            first: 0,
        })?;
        keys.push((lower_end(parts[k]), k as u32))?;
    }
    keys.as_mut_slice().sort_unstable();
    Ok(())
}

/// Each part claims its whole interval.
pub(crate) fn claim_intervals(parts: &[Enclosure], slots: &mut [Slot], keys: &[(i64, u32)])
    requires { length slots.old < 2 ^ 32 }
{
    for i in 0..keys.len() {
        let (lo, owner) = keys[i];
        let k = owner as usize;
        if i < slots.len() && k < slots.len() && k < parts.len() {
            let slot = &mut slots[i];
            slot.lo = lo;
            slot.hi = upper_end(parts[k]);
            slot.owner = owner;
            let slot = &mut slots[k];
            slot.place = i as u32;
        }
    }
}

// The numbers to be taken, from the lower ends in rising order.
fn take_numbers(slots: &mut [Slot], keys: &[(i64, u32)])
    requires { length slots.old < 2 ^ 32 }
{
    let mut number = i64::MIN;
    for i in 0..keys.len() {
        let (lo, owner) = keys[i];
        number = number.saturating_add(1).max(lo);
        let back = number.abs_diff(lo) as usize;
        let k = owner as usize;
        if i < slots.len() && k < slots.len() && back <= i {
            let slot = &mut slots[i];
            slot.lo = number;
            slot.hi = number;
            let slot = &mut slots[k];
            slot.first = (i - back) as u32;
        }
    }
}

// The upper ends in rising order, and each place free.
fn order_by_upper_ends(
    parts: &[Enclosure],
    free: &mut Vec<u32>,
    keys: &mut [(i64, u32)],
) -> Result<(), AllocError>
    requires { length parts.now < 2 ^ 32 }
{
    free.clear();
    for k in 0..parts.len() {
        free.push(k as u32)?;
        if k < keys.len() {
            keys[k] = (upper_end(parts[k]), k as u32);
        }
    }
    keys.sort_unstable();
    Ok(())
}

// The first free place from here on; the paths to it are halved on the way.
fn free_from(free: &mut [u32], from: u32) -> usize {
    let mut at = from as usize;
    for _ in 0..free.len() {
        if at >= free.len() {
            return at;
        }
        let up = free[at] as usize;
        if up == at || up >= free.len() {
            return up;
        }
        free[at] = free[up];
        at = free[at] as usize;
    }
    at
}

// The part of the least lower end among those that hang together before a place.
fn crowd_before(slots: &[Slot], place: usize, last: usize) -> usize {
    let Some(slot) = slots.get(last) else {
        return last;
    };
    let mut first = last;
    let mut least = slot.first as usize;
    for at in (0..place.min(slots.len())).rev() {
        if at < least {
            return first;
        }
        let owner = slots[at].owner as usize;
        if owner < slots.len() && (slots[owner].first as usize) < least {
            first = owner;
            least = slots[owner].first as usize;
        }
    }
    first
}

// Each part takes the first free number of its interval, those of the least upper ends first.
fn assign(slots: &mut [Slot], free: &mut [u32], keys: &[(i64, u32)]) -> Guess
    requires { length slots.old < 2 ^ 32 }
{
    for i in 0..keys.len() {
        let (hi, owner) = keys[i];
        let k = owner as usize;
        if k < slots.len() {
            let place = free_from(free, slots[k].first);
            if place >= slots.len() || place >= free.len() || slots[place].lo > hi {
                return Guess::Range(crowd_before(slots, place, k), k);
            }
            slots[place].owner = owner;
            slots[k].place = place as u32;
            free[place] = (place as u32).wrapping_add(1);
        }
    }
    Guess::Slots
}

/// Each part claims one number, or a range has too few; from the lower ends in rising order.
pub(crate) fn claim_numbers(
    parts: &[Enclosure],
    slots: &mut [Slot],
    free: &mut Vec<u32>,
    keys: &mut [(i64, u32)],
) -> Result<Guess, AllocError>
    requires few { length parts.now < 2 ^ 32 }
    requires slots { length slots.old < 2 ^ 32 }
{
    take_numbers(slots, keys);
    order_by_upper_ends(parts, free, keys)?;
    Ok(assign(slots, free.as_mut_slice(), keys))
}
