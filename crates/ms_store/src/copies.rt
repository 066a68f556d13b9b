ghost use Rattle.std.specs.Prelude.{◌≡◌, ◌≢◌, ◌≤◌, ◌<◌, [], ◌++◌, List, ℤ, Bool, ◌&&◌, length, take, map, IfOk, OnOk, slice_index_or, All};
ghost use Rattle.ms_num.specs.Span.{Span};
ghost use Rattle.ms_num.specs.Ranges.{is_member};
ghost use Rattle.ms_num.specs.Sets.{IsSet, set_of, set_size};
ghost use Rattle.ms_cells.specs.Cells.{Lists};
ghost use Rattle.ms_store.specs.Stored.{lists_of, IsFilled};
ghost use Rattle.ms_store.specs.CutGives.{CutGives};

use crate::store::{Cut, Mark, Store};
use ms_num::{Ranges, cut_law};
use std::alloc::{AllocError, Global};
use std::marker::Model;

/// A store that copies every list: slow, and plainly what its contract says.
#[derive(Drop)]
pub struct Copies {
    alloc: Global,
    current: Vec<Ranges>,
    saved: Vec<Vec<Ranges>>,
}

impl Model for Copies {
    ghost use Rattle.std.specs.Prelude.{List, map};
    ghost use Rattle.ms_num.specs.Span.{Span};
    ghost use Rattle.ms_cells.specs.Cells.{Lists};

    ghost Value = { Lists (List Span) };

    ghost use Rattle.ms_store.specs.Copied.{IsCopied};

    ghost view = { λ c. record { current = c.current.items; saved = map (λ l. l.items) c.saved.items } };

    ghost invariant = { λ c. IsCopied (record { current = c.current.items; saved = map (λ l. l.items) c.saved.items }) };
}

impl Copies {
    /// No variables, and no marks.
    pub fn new(alloc: Global) -> Copies
        ensures { lists_of set_of result ≡ record { current = []; saved = [] } }
    {
        Copies {
            alloc,
            current: Vec::new(alloc),
            saved: Vec::new(alloc),
        }
    }
}

impl Store for Copies {
    ghost lists = { λ c. lists_of set_of c };

    fn vars(&self) -> usize {
        self.current.len()
    }

    fn lo(&self, v: u32) -> i64 {
        self.current[v as usize].ends().lo()
    }

    fn hi(&self, v: u32) -> i64 {
        self.current[v as usize].ends().hi()
    }

    fn has(&self, v: u32, n: i64) -> bool {
        self.current[v as usize].has(n)
    }

    fn size(&self, v: u32) -> u64 {
        self.current[v as usize].size()
    }

    fn cut_at_most(&mut self, v: u32, n: i64) -> Result<Cut, AllocError> {
        let kept = self.current[v as usize].at_most(self.alloc, n)?;
        Ok(put(&mut self.current, v, kept))
    }

    fn cut_at_least(&mut self, v: u32, n: i64) -> Result<Cut, AllocError> {
        let kept = self.current[v as usize].at_least(self.alloc, n)?;
        Ok(put(&mut self.current, v, kept))
    }

    fn cut_value(&mut self, v: u32, n: i64) -> Result<Cut, AllocError> {
        let kept = self.current[v as usize].without(self.alloc, n)?;
        Ok(put(&mut self.current, v, kept))
    }

    fn write(&mut self, v: u32, set: &Ranges) -> Result<(), AllocError> {
        let copied = set.copy(self.alloc)?;
        self.current[v as usize] = copied;
        Ok(())
    }

    fn mark(&mut self) -> Result<Mark, AllocError> {
        let number = self.saved.len();
        let copied = joined(self.alloc, &self.current, &[])?;
        self.saved.push(copied)?;
        Ok(Mark { number })
    }

    fn undo(&mut self, mark: Mark) {
        self.saved.truncate(mark.number + 1);
        if let Some(sets) = self.saved.pop() {
            self.current = sets;
        }
    }

    fn marks(&self) -> usize {
        self.saved.len()
    }

    fn grow(&mut self, sets: &[Ranges]) -> Result<(), AllocError> {
        let current = joined(self.alloc, &self.current, sets)?;
        let saved = all_joined(self.alloc, &self.saved, sets)?;
        self.current = current;
        self.saved = saved;
        Ok(())
    }

    fn shrink(&mut self, vars: usize) {
        self.current.truncate(vars);
        shorten(&mut self.saved, vars);
    }
}

// How many numbers the set has.
fn count(set: &Ranges) -> u64
    ensures value { result ≡ set_size (set_of set.now) }
    ensures some { set.now ≢ [] → 1 ≤ result }
    ensures proper { set.now ≢ [] → IsSet (set_of set.now) }
{
    let _ranges = set.ranges();
    set.size()
}

// Puts what is left of a set in its place, unless that is nothing or all of it.
fn put(sets: &mut Vec<Ranges>, v: u32, kept: Ranges) -> Cut
    requires there { v < length sets.old.items }
    requires filled { All IsFilled sets.old.items }
    ensures filled { All IsFilled sets.new.items }
    ensures count { length sets.new.items ≡ length sets.old.items }
    ensures cut { (keep : ℤ → Bool) (saved : List (List (List Span))) → ((z : ℤ) → is_member kept z ≡ (is_member (slice_index_or sets.old.items v []) z && keep z)) → CutGives result keep v (lists_of set_of (record { current = sets.old.items; saved = saved })) (lists_of set_of (record { current = sets.new.items; saved = saved })) }
{
    cut_law();
    let before = count(&sets[v as usize]);
    let after = count(&kept);
    if after == 0 {
        return Cut::Emptied;
    }
    if after == before {
        return Cut::Kept;
    }
    sets[v as usize] = kept;
    Cut::Changed
}

// Adds copies of the sets.
fn add_copies(alloc: Global, all: &mut Vec<Ranges>, sets: &[Ranges]) -> Result<(), AllocError>
    ensures { OnOk result (all.new.items ≡ all.old.items ++ sets.now) }
{
    for set in sets {
        all.push(set.copy(alloc)?)?;
    }
    Ok(())
}

// Copies of both lists, one after the other.
fn joined(alloc: Global, sets: &[Ranges], more: &[Ranges]) -> Result<Vec<Ranges>, AllocError>
    ensures { IfOk result (λ all. all.items ≡ sets.now ++ more.now) }
{
    let mut all = Vec::new(alloc);
    add_copies(alloc, &mut all, sets)?;
    add_copies(alloc, &mut all, more)?;
    Ok(all)
}

// The same of each of some lists.
fn all_joined(
    alloc: Global,
    lists: &[Vec<Ranges>],
    more: &[Ranges],
) -> Result<Vec<Vec<Ranges>>, AllocError>
    ensures { IfOk result (λ all. map (λ l. l.items) all.items ≡ map (λ l. l.items ++ more.now) lists.now) }
{
    let mut all = Vec::with_capacity(alloc, lists.len())?;
    for list in lists {
        all.push(joined(alloc, list, more)?)?;
    }
    Ok(all)
}

fn shorten(lists: &mut Vec<Vec<Ranges>>, count: usize)
    ensures { map (λ l. l.items) lists.new.items ≡ map (λ l. take count l.items) lists.old.items }
{
    for list in lists.iter_mut() {
        list.truncate(count);
    }
}
