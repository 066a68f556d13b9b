ghost use Rattle.std.specs.Prelude.{◌≡◌, ◌<◌, ◌^◌, ◌&&◌, true, false, length, IfOk, OnOk};
ghost use Rattle.ms_trees.specs.Enclosure.{distinct as distinct_of, all_some, have_room as have_room_of, some_meet as some_meet_of};

use crate::claims::{Slot, are_slots, are_whole};
use crate::guess::{Guess, claim_intervals, claim_numbers, start};
use crate::room::{
    all_intervals, have_room, is_crowded, meets_neighbour, some_meet, some_undefined,
};
use ms_ground::operations::boolean;
use ms_trees::Enclosure;
use std::alloc::{AllocError, Global};

// Lists that are longer are not sorted.
const MOST: usize = 1_000_000_000;

/// What is kept to see whether numbers may be distinct.
#[derive(Drop)]
pub(crate) struct Matching {
    slots: Vec<Slot>,
    free: Vec<u32>,
    keys: Vec<(i64, u32)>,
}

impl Matching {
    pub(crate) fn new(alloc: Global) -> Matching {
        Matching {
            slots: Vec::new(alloc),
            free: Vec::new(alloc),
            keys: Vec::new(alloc),
        }
    }

    /// Whether the numbers of the parts may be distinct, and whether they may not.
    pub(crate) fn distinct(&mut self, parts: &[Enclosure]) -> Result<Enclosure, AllocError>
        ensures { IfOk result (λ r. r ≡ distinct_of parts.now) }
    {
        let undefined = some_undefined(parts);
        if parts.len() > MOST || !all_intervals(parts) {
            return Ok(boolean(have_room(parts), undefined || some_meet(parts)));
        }
        if self.are_apart(parts)? {
            return Ok(boolean(true, undefined));
        }
        let no = undefined || meets_neighbour(parts, self.keys.as_slice()) || some_meet(parts);
        Ok(boolean(self.has_room(parts)?, no))
    }

    // Whether no two parts meet, as far as the order of the lower ends shows.
    fn are_apart(&mut self, parts: &[Enclosure]) -> Result<bool, AllocError>
        requires { length parts.now < 2 ^ 32 }
        ensures apart { IfOk result (λ b. b ≡ true → some_meet_of parts.now ≡ false) }
        ensures room { IfOk result (λ b. b ≡ true → (all_some parts.now && have_room_of parts.now) ≡ true) }
        ensures slots { OnOk result (length self.new.slots.items ≡ length parts.now) }
    {
        start(parts, &mut self.slots, &mut self.keys)?;
        claim_intervals(parts, self.slots.as_mut_slice(), self.keys.as_slice());
        let slots = self.slots.as_slice();
        Ok(are_slots(parts, slots) && are_whole(parts, slots))
    }

    // Each part has an interval, and each range has room for the parts within it.
    fn has_room(&mut self, parts: &[Enclosure]) -> Result<bool, AllocError>
        requires few { length parts.now < 2 ^ 32 }
        requires slots { length self.old.slots.items ≡ length parts.now }
        ensures { IfOk result (λ b. b ≡ (all_some parts.now && have_room_of parts.now)) }
    {
        let slots = self.slots.as_mut_slice();
        let guess = claim_numbers(parts, slots, &mut self.free, self.keys.as_mut_slice())?;
        Ok(is_decided(parts, self.slots.as_slice(), guess))
    }
}

fn is_decided(parts: &[Enclosure], slots: &[Slot], guess: Guess) -> bool
    requires { length slots.now ≡ length parts.now }
    ensures { result ≡ (all_some parts.now && have_room_of parts.now) }
{
    match guess {
        Guess::Slots => are_slots(parts, slots) || have_room(parts),
        Guess::Range(first, last) => !is_crowded(parts, first, last) && have_room(parts),
    }
}
