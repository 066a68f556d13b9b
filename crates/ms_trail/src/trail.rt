ghost use Rattle.std.specs.Prelude.{◌≡◌, ◌≤◌, ◌<◌, ◌+◌, ◌^◌, [], ◌∷◌, ◌++◌, List, ℕ, length, take, map, max, IfOk, OnOk, OnErr, Some, slice_get, slice_index_or, slice_set, All};
ghost use Rattle.ms_num.specs.Span.{Span};
ghost use Rattle.ms_num.specs.Sets.{set_of};
ghost use Rattle.ms_cells.specs.Cells.{Lists, grown, shrunk};
ghost use Rattle.ms_cells.specs.Rows.{pairs, full_rows};
ghost use Rattle.ms_domains.specs.Domains.{IsDomain, StandsFor};
ghost use Rattle.ms_store.specs.Stored.{set_at, IsFilled};
ghost use Rattle.ms_trail.specs.Trailed.{Trailed, sets_of, slot_at, written, IsAt, IsSlot, Extends};

use ms_cells::RowCells;
use ms_domains::{Domain, Holes};
use ms_num::Ranges;
use ms_store::{Cut, Mark, Store};
use std::alloc::{AllocError, Global};
use std::marker::Model;

/// A store that keeps one list of old values, and of each mark how long it was.
#[derive(Drop)]
pub struct Trail {
    alloc: Global,
    cells: RowCells<Domain>,
    ranges: Vec<Ranges>,
    // Of each mark how many lists of ranges there were, and how many stay whatever ends.
    kept: Vec<usize>,
    fixed: usize,
}

impl Model for Trail {
    ghost use Rattle.ms_trail.specs.Trailed.{Trailed, IsTrailed};

    ghost Value = { Trailed };

    ghost view = { λ t. record { cells = t.cells; ranges = t.ranges.items; kept = t.kept.items; fixed = t.fixed } };

    ghost invariant = { λ t. IsTrailed (record { cells = t.cells; ranges = t.ranges.items; kept = t.kept.items; fixed = t.fixed }) };
}

impl Trail {
    /// No variables, and no marks.
    pub fn new(alloc: Global) -> Trail
        ensures { sets_of result ≡ record { current = []; saved = [] } }
    {
        Trail {
            alloc,
            cells: RowCells::new(alloc),
            ranges: Vec::new(alloc),
            kept: Vec::new(alloc),
            fixed: 0,
        }
    }

    /// Makes the list that was saved at the mark the current one. All marks stay. It takes as many steps as there were
    /// writes since the mark, twice.
    pub fn restore(&mut self, mark: Mark) -> Result<(), AllocError>
        requires { mark.number < length (sets_of self.old).saved }
        ensures current { OnOk result (slice_get (sets_of self.old).saved mark.number ≡ Some (sets_of self.new).current) }
        ensures saved { OnOk result ((sets_of self.new).saved ≡ (sets_of self.old).saved) }
        ensures err { OnErr result (sets_of self.new ≡ sets_of self.old) }
    {
        self.cells.restore(mark.number)?;
        Ok(())
    }

    pub(crate) fn alloc(&self) -> Global {
        self.alloc
    }

    #[inline(always)]
    pub(crate) fn lists(&self) -> &[Ranges]
        ensures { result.now ≡ self.now.ranges }
    {
        self.ranges.as_slice()
    }

    // The variable's domain.
    #[inline(always)]
    pub(crate) fn domain(&self, v: u32) -> Domain
        requires { v < length (sets_of self.now).current }
        ensures { IsAt self.now v result (slot_at self.now v).1 }
    {
        self.cells.get(v)
    }

    // The variable's row.
    #[inline(always)]
    pub(crate) fn row(&self, v: u32) -> &[u64]
        requires { v < length (sets_of self.now).current }
        ensures value { result.now ≡ (slot_at self.now v).1 }
        ensures few { length result.now < 2 ^ 32 }
    {
        self.cells.row(v)
    }

    // The variable gets another domain.
    #[inline(always)]
    pub(crate) fn set_domain(&mut self, v: u32, domain: Domain) -> Result<(), AllocError>
        requires there { v < length (sets_of self.old).current }
        requires proper { IsDomain self.old.ranges (slot_at self.old v).1 domain }
        ensures ok { OnOk result (self.new ≡ written self.old v (domain, (slot_at self.old v).1)) }
        ensures err { OnErr result (self.new ≡ self.old) }
    {
        self.cells.set(v, domain)?;
        Ok(())
    }

    // A word of the variable's row becomes another.
    #[inline(always)]
    pub(crate) fn set_word(&mut self, v: u32, i: usize, word: u64) -> Result<(), AllocError>
        requires there { v < length (sets_of self.old).current }
        requires inside { i < length (slot_at self.old v).1 }
        requires proper { IsDomain self.old.ranges (slice_set (slot_at self.old v).1 i word) (slot_at self.old v).0 }
        ensures ok { OnOk result (self.new ≡ written self.old v ((slot_at self.old v).0, slice_set (slot_at self.old v).1 i word)) }
        ensures err { OnErr result (self.new ≡ self.old) }
    {
        self.cells.set_word(v, i, word)?;
        Ok(())
    }

    // The domain of a set, as one of the lists of ranges.
    pub(crate) fn add_list(&mut self, set: Ranges) -> Result<Domain, AllocError>
        requires { IsFilled set }
        ensures ok { IfOk result (λ domain. self.new ≡ record self.old { ranges = self.old.ranges ++ set ∷ [] }) }
        ensures same { sets_of self.new ≡ sets_of self.old }
        ensures domain { IfOk result (λ domain. (row : List ℕ) → StandsFor self.new.ranges row (set_of set) domain) }
        ensures err { OnErr result (self.new ≡ self.old) }
    {
        let domain = Domain::listed(&set, self.ranges.len());
        self.ranges.push(set)?;
        Ok(domain)
    }

    // All lists of ranges stay, whatever ends.
    pub(crate) fn pin(&mut self)
        ensures fixed { self.new ≡ record self.old { fixed = length self.old.ranges } }
        ensures more { self.old.fixed ≤ self.new.fixed }
    {
        self.fixed = self.ranges.len();
    }

    // New variables with these domains, and rows of so many words in which every number is.
    pub(crate) fn add(&mut self, domains: &[Domain], lengths: &[u32]) -> Result<(), AllocError>
        requires same { length domains.now ≡ length lengths.now }
        requires few { length (sets_of self.old).current + length domains.now < 2 ^ 32 }
        requires proper { All (IsSlot (take self.old.fixed self.old.ranges)) (pairs domains.now (full_rows lengths.now)) }
        ensures ok { OnOk result (self.new ≡ record self.old { cells = grown self.old.cells (pairs domains.now (full_rows lengths.now)) }) }
        ensures err { OnErr result (self.new ≡ self.old) }
    {
        self.cells.grow(domains, lengths)?;
        Ok(())
    }
}

impl Store for Trail {
    ghost lists = { λ t. sets_of t };

    fn vars(&self) -> usize {
        self.cells.len()
    }

    fn lo(&self, v: u32) -> i64 {
        self.domain(v).lo
    }

    fn hi(&self, v: u32) -> i64 {
        self.domain(v).hi
    }

    fn has(&self, v: u32, n: i64) -> bool {
        self.holds(v, self.domain(v), n)
    }

    fn size(&self, v: u32) -> u64 {
        self.domain(v).size
    }

    fn cut_at_most(&mut self, v: u32, n: i64) -> Result<Cut, AllocError> {
        let domain = self.domain(v);
        if let Holes::Whole = domain.holes {
            if domain.lo <= n && n < domain.hi {
                self.keep_at_most(v, domain, n)?;
                return Ok(Cut::Changed);
            }
        }
        self.at_most(v, n)
    }

    fn cut_at_least(&mut self, v: u32, n: i64) -> Result<Cut, AllocError> {
        let domain = self.domain(v);
        if let Holes::Whole = domain.holes {
            if domain.lo < n && n <= domain.hi {
                self.keep_at_least(v, domain, n)?;
                return Ok(Cut::Changed);
            }
        }
        self.at_least(v, n)
    }

    fn cut_value(&mut self, v: u32, n: i64) -> Result<Cut, AllocError> {
        let domain = self.domain(v);
        if let Holes::Row { .. } = domain.holes {
            if domain.lo < n && n < domain.hi {
                if !self.holds(v, domain, n) {
                    return Ok(Cut::Kept);
                }
                self.cut_inside(v, domain, n)?;
                return Ok(Cut::Changed);
            }
        }
        self.other_than(v, n)
    }

    fn write(&mut self, v: u32, set: &Ranges) -> Result<(), AllocError> {
        if let Some(domain) = Domain::small(set) {
            self.set_domain(v, domain)?;
            return Ok(());
        }
        let copied = set.copy(self.alloc())?;
        self.put_list(v, copied)?;
        Ok(())
    }

    fn mark(&mut self) -> Result<Mark, AllocError> {
        let number = self.cells.marks();
        self.kept.push(self.ranges.len())?;
        if let Err(error) = self.cells.mark() {
            self.kept.truncate(number);
            return Err(error);
        }
        Ok(Mark { number })
    }

    fn undo(&mut self, mark: Mark) {
        let named = self.kept[mark.number].max(self.fixed);
        self.cells.undo(mark.number);
        self.kept.truncate(mark.number);
        self.ranges.truncate(named);
    }

    fn marks(&self) -> usize {
        self.cells.marks()
    }

    fn grow(&mut self, sets: &[Ranges]) -> Result<(), AllocError> {
        let before = self.vars();
        self.add_sets(sets)?;
        // Where there is no memory for it, the sets stay in their lists.
        let _opened = self.open_rows(before);
        Ok(())
    }

    fn shrink(&mut self, vars: usize) {
        self.cells.shrink(vars);
    }
}
