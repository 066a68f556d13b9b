ghost use Rattle.std.specs.Prelude.{◌≡◌, ◌<◌, ◌+◌, true, false, ◌&&◌, length, pos, ◌+ℤ◌, ◌≤ℤ◌};
ghost use Rattle.ms_trees.specs.Enclosure.{all_some, have_room, some_meet};
ghost use Rattle.ms_evaluator.specs.Claims.{IsSlot, AreSlots, IsWhole, IsClaim, IsWholeClaim, slot_at};

use ms_num::Iv;
use ms_trees::Enclosure;

/// One place in the order of the claims, and what stands of the part of that index.
#[derive(Clone, Copy)]
pub(crate) struct Slot {
    /// The numbers that are claimed.
    pub lo: i64,
    pub hi: i64,
    /// The part that claims them.
    pub owner: u32,
    /// Of the part of this index: the place of its claim, and the first place that it may have.
    pub place: u32,
    pub first: u32,
}

// The next claim lies behind this one.
fn rises_at(slots: &[Slot], k: usize) -> bool
    requires { k < length slots.now }
    ensures { result ≡ true → k + 1 < length slots.now → ((slot_at slots.now k).hi +ℤ pos 1) ≤ℤ (slot_at slots.now (k + 1)).lo }
{
    if k + 1 >= slots.len() {
        return true;
    }
    slots[k].hi < slots[k + 1].lo
}

// The claim lies in the interval.
fn lies_in(part: Enclosure, claim: Slot) -> bool
    ensures { result ≡ true → IsClaim part.interval claim }
{
    match part.interval {
        Some(interval) => interval.lo() <= claim.lo && claim.hi <= interval.hi(),
        None => false,
    }
}

// The claim is the whole interval.
fn is_interval(part: Enclosure, claim: Slot) -> bool
    ensures { result ≡ true → IsWholeClaim part.interval claim }
{
    match part.interval {
        Some(interval) => interval.lo() == claim.lo && interval.hi() == claim.hi,
        None => false,
    }
}

fn is_slot(parts: &[Enclosure], slots: &[Slot], k: usize) -> bool
    requires count { length slots.now ≡ length parts.now }
    requires there { k < length parts.now }
    ensures { result ≡ true → IsSlot parts.now slots.now k }
{
    let place = slots[k].place as usize;
    if place >= slots.len() {
        return false;
    }
    if slots[place].owner as usize != k {
        return false;
    }
    if slots[k].hi < slots[k].lo {
        return false;
    }
    if !lies_in(parts[k], slots[place]) {
        return false;
    }
    rises_at(slots, k)
}

/// Each part claims numbers of its interval, and no two claim the same.
pub(crate) fn are_slots(parts: &[Enclosure], slots: &[Slot]) -> bool
    requires { length slots.now ≡ length parts.now }
    ensures slots { result ≡ true → AreSlots parts.now slots.now }
    ensures room { result ≡ true → (all_some parts.now && have_room parts.now) ≡ true }
{
    for k in 0..parts.len() {
        if !is_slot(parts, slots, k) {
            return false;
        }
    }
    true
}

fn is_whole(parts: &[Enclosure], slots: &[Slot], k: usize) -> bool
    requires count { length slots.now ≡ length parts.now }
    requires there { k < length parts.now }
    ensures { result ≡ true → IsWhole parts.now slots.now k }
{
    let place = slots[k].place as usize;
    if place >= slots.len() {
        return false;
    }
    is_interval(parts[k], slots[place])
}

/// Each part claims its whole interval.
pub(crate) fn are_whole(parts: &[Enclosure], slots: &[Slot]) -> bool
    requires count { length slots.now ≡ length parts.now }
    requires slots { AreSlots parts.now slots.now }
    ensures { result ≡ true → some_meet parts.now ≡ false }
{
    for k in 0..parts.len() {
        if !is_whole(parts, slots, k) {
            return false;
        }
    }
    true
}
