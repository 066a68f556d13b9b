ghost use Rattle.std.specs.Prelude.{◌≡◌, ◌≤◌, ◌<◌, ◌+◌, ◌-◌, ◌^◌, [], ◌∷◌, ◌++◌, length, take, drop, OnOk, OnErr, Some, slice_get, slice_set, map, All, vec_len, vec_capacity};
ghost use Rattle.ms_cells.specs.Cells.{IsKnown, kept_place_of, forgotten, no_lists, grown, shrunk, undone, Continues};

use std::alloc::{AllocError, Global};
use std::marker::Model;

/// A list of cells, and the lists that were saved of it.
#[derive(Drop)]
pub struct Cells<T: Copy> {
    current: Vec<T>,
    // What writes took away, with its place; and of each mark how many of these there were.
    taken: Vec<(u32, T)>,
    marks: Vec<usize>,
    // The places of what was taken away are below it, and were below these when the marks were made.
    reach: usize,
    reaches: Vec<usize>,
}

impl<T: Copy> Model for Cells<T> {
    ghost use Rattle.ms_cells.specs.Cells.{Lists, saved_at, IsTrail, IsReach};

    ghost Value = { Lists T };

    ghost view = { λ c. record { current = c.current.items; saved = saved_at c.current.items c.taken.items c.marks.items } };

    ghost invariant = { λ c. IsTrail c.current.items c.taken.items c.marks.items × IsReach c.taken.items c.marks.items c.reaches.items c.reach };
}

impl<T: Copy> Cells<T> {
    /// No cells, and no marks.
    pub fn new(alloc: Global) -> Self
        ensures { result ≡ no_lists }
    {
        Cells {
            current: Vec::new(alloc),
            taken: Vec::new(alloc),
            marks: Vec::new(alloc),
            reach: 0,
            reaches: Vec::new(alloc),
        }
    }

    /// How many cells there are.
    pub fn len(&self) -> usize
        ensures count { result ≡ length self.now.current }
        ensures few { result < 2 ^ 32 }
        ensures saved { All (λ list. length list ≡ length self.now.current) self.now.saved }
    {
        self.current.len()
    }

    /// How many marks stand.
    pub fn marks(&self) -> usize
        ensures { result ≡ length self.now.saved }
    {
        self.marks.len()
    }

    #[inline(always)]
    pub fn get(&self, at: u32) -> T
        requires { at < length self.now.current }
        ensures { slice_get self.now.current at ≡ Some result }
    {
        self.current[at as usize]
    }

    /// Some of the values, one behind the other.
    #[inline(always)]
    pub fn slice(&self, start: usize, len: usize) -> &[T]
        requires { start + len ≤ length self.now.current }
        ensures value { result.now ≡ take len (drop start self.now.current) }
        ensures few { length result.now < 2 ^ 32 }
    {
        &self.current[start..start + len]
    }

    /// Writes the current list.
    #[inline(always)]
    pub fn set(&mut self, at: u32, value: T) -> Result<(), AllocError>
        requires { at < length self.old.current }
        ensures ok { OnOk result (self.new ≡ record self.old { current = slice_set self.old.current at value }) }
        ensures err { OnErr result (self.new ≡ self.old) }
    {
        self.taken.reserve(1)?;
        let before = self.current[at as usize];
        self.taken.push_reserved((at, before));
        self.reach = further(self.reach, at);
        self.current[at as usize] = value;
        Ok(())
    }

    /// Saves the current list.
    pub fn mark(&mut self) -> Result<(), AllocError>
        ensures ok { OnOk result (self.new ≡ record self.old { saved = self.old.saved ++ self.old.current ∷ [] }) }
        ensures err { OnErr result (self.new ≡ self.old) }
    {
        self.marks.reserve(1)?;
        self.reaches.reserve(1)?;
        self.marks.push_reserved(self.taken.len());
        self.reaches.push_reserved(self.reach);
        Ok(())
    }

    /// Goes back to the mark that so many marks stood before; it and the later ones end.
    pub fn undo(&mut self, number: usize)
        requires { number < length self.old.saved }
        ensures now { slice_get self.old.saved number ≡ Some self.new.current }
        ensures saved { self.new.saved ≡ take number self.old.saved }
    {
        let keep = self.marks[number];
        let reach = self.reaches[number];
        write_back(&mut self.current, &mut self.taken, keep);
        self.marks.truncate(number);
        self.reaches.truncate(number);
        self.reach = reach;
    }

    /// Writes the list of that mark again, and all marks stay.
    pub fn restore(&mut self, number: usize) -> Result<(), AllocError>
        requires { number < length self.old.saved }
        ensures now { OnOk result (slice_get self.old.saved number ≡ Some self.new.current) }
        ensures saved { OnOk result (self.new.saved ≡ self.old.saved) }
        ensures err { OnErr result (self.new ≡ self.old) }
    {
        let keep = self.marks[number];
        self.taken.reserve(self.taken.len() - keep)?;
        write_again(&mut self.current, &mut self.taken, keep);
        Ok(())
    }

    /// The last mark ends, and the current list stays.
    pub fn forget(&mut self)
        requires { 0 < length self.old.saved }
        ensures { self.new ≡ record self.old { saved = take (length self.old.saved - 1) self.old.saved } }
    {
        let count = self.marks.len() - 1;
        self.marks.truncate(count);
        self.reaches.truncate(count);
    }

    /// New cells with these values, now and in every saved list.
    pub fn grow(&mut self, values: &[T]) -> Result<(), AllocError>
        requires { length self.old.current + length values.now < 2 ^ 32 }
        ensures ok { OnOk result (self.new ≡ grown self.old values.now) }
        ensures err { OnErr result (self.new ≡ self.old) }
    {
        self.current.extend_from_slice(values)?;
        Ok(())
    }

    /// The cells from `count` on go, now and in every saved list.
    pub fn shrink(&mut self, count: usize)
        requires { count ≤ length self.old.current }
        ensures { self.new ≡ shrunk self.old count }
    {
        forget_from(&mut self.taken, &mut self.reach, count);
        self.current.truncate(count);
    }
}

// A bound above this place too.
#[inline(always)]
fn further(reach: usize, at: u32) -> usize
    ensures least { reach ≤ result }
    ensures above { at < result }
{
    if reach <= at as usize {
        at as usize + 1
    } else {
        reach
    }
}

// The same as `forget`, without a look at the old values where none has such a place.
fn forget_from<T: Copy>(taken: &mut Vec<(u32, T)>, reach: &mut usize, count: usize)
    requires known { All (IsKnown reach.old) taken.old.items }
    requires few { count < 2 ^ 32 }
    ensures taken { taken.new.items ≡ map (λ e. forgotten count e) taken.old.items }
    ensures reach { All (IsKnown reach.new) taken.new.items }
{
    if count < *reach {
        forget(taken, count);
        *reach = count;
    }
}

// Takes the place from each old value of the places from `count` on.
fn forget<T: Copy>(taken: &mut Vec<(u32, T)>, count: usize)
    ensures { taken.new.items ≡ map (λ e. forgotten count e) taken.old.items }
{
    for entry in taken.iter_mut() {
        entry.0 = kept_place(entry.0, count);
    }
}

fn kept_place(place: u32, count: usize) -> u32
    ensures { result ≡ kept_place_of count place }
{
    if count <= place as usize {
        u32::MAX
    } else {
        place
    }
}

// Writes the values back that were taken away since, the last first.
fn write_back<T: Copy>(items: &mut Vec<T>, taken: &mut Vec<(u32, T)>, keep: usize)
    requires { keep ≤ length taken.old.items }
    ensures items { items.new.items ≡ undone items.old.items (drop keep taken.old.items) }
    ensures taken { taken.new.items ≡ take keep taken.old.items }
{
    'back: while taken.len() > keep {
        if let Some(entry) = taken.pop() {
            let place = entry.0 as usize;
            if place < items.len() {
                items[place] = entry.1;
            }
        }
    }
}

// Does the same by writes that are noted as any other, so that nothing is forgotten.
fn write_again<T: Copy>(items: &mut Vec<T>, taken: &mut Vec<(u32, T)>, keep: usize)
    requires there { keep ≤ length taken.old.items }
    requires room { vec_len taken.old + (vec_len taken.old - keep) ≤ vec_capacity taken.old }
    requires few { length items.old.items < 2 ^ 32 }
    ensures items { items.new.items ≡ undone items.old.items (drop keep taken.old.items) }
    ensures taken { Continues items.old.items taken.old.items items.new.items taken.new.items }
{
    let mut left = taken.len();
    'again: while left > keep {
        left -= 1;
        let entry = taken[left];
        let place = index(entry.0);
        if place < items.len() {
            taken.push_reserved((entry.0, items[place]));
            items[place] = entry.1;
        }
    }
}

fn index(at: u32) -> usize
    ensures { result ≡ at }
{
    at as usize
}
