ghost use Rattle.std.specs.Prelude.{◌≡◌, ◌≤◌, ◌<◌, ◌+◌, ◌^◌, ℕ, List, [], ◌∷◌, ◌++◌, length, take, OnOk, OnErr, IfOk, Some, slice_get, slice_set, slice_index_or, sum, replicate, All};
ghost use Rattle.ms_cells.specs.Cells.{no_lists, grown, shrunk};
ghost use Rattle.ms_cells.specs.Rows.{pairs, full_rows, places_from};

use crate::cells::Cells;
use std::alloc::{AllocError, Global};
use std::marker::Model;

/// Where a row stands.
#[derive(Clone, Copy)]
pub struct Place {
    pub start: usize,
    pub len: usize,
}

/// Cells that have a row of words each, and the lists that were saved of both.
#[derive(Drop)]
pub struct RowCells<T: Copy> {
    alloc: Global,
    values: Cells<T>,
    words: Cells<u64>,
    places: Vec<Place>,
}

impl<T: Copy> Model for RowCells<T> {
    ghost use Rattle.std.specs.Prelude.{ℕ, List};
    ghost use Rattle.ms_cells.specs.Cells.{Lists};

    ghost Value = { Lists (T × List ℕ) };

    ghost use Rattle.ms_cells.specs.Rows.{with_rows, IsRowed};

    ghost view = { λ c. with_rows c.places.items c.values c.words };

    ghost invariant = { λ c. IsRowed c.places.items c.values c.words };
}

impl<T: Copy> RowCells<T> {
    /// No cells, and no marks.
    pub fn new(alloc: Global) -> Self
        ensures { result ≡ no_lists }
    {
        RowCells {
            alloc,
            values: Cells::new(alloc),
            words: Cells::new(alloc),
            places: Vec::new(alloc),
        }
    }

    /// How many cells there are.
    pub fn len(&self) -> usize
        ensures count { result ≡ length self.now.current }
        ensures few { result < 2 ^ 32 }
        ensures saved { All (λ list. length list ≡ length self.now.current) self.now.saved }
    {
        self.values.len()
    }

    /// How many marks stand.
    pub fn marks(&self) -> usize
        ensures { result ≡ length self.now.saved }
    {
        self.values.marks()
    }

    /// The value of a cell.
    #[inline(always)]
    pub fn get(&self, at: u32) -> T
        requires { at < length self.now.current }
        ensures { (d : T × List ℕ) → (slice_index_or self.now.current at d).0 ≡ result }
    {
        self.values.get(at)
    }

    /// The row of a cell.
    #[inline(always)]
    pub fn row(&self, at: u32) -> &[u64]
        requires { at < length self.now.current }
        ensures value { (d : T × List ℕ) → (slice_index_or self.now.current at d).1 ≡ result.now }
        ensures few { length result.now < 2 ^ 32 }
    {
        let place = self.places[at as usize];
        self.words.slice(place.start, place.len)
    }

    /// Writes the value of a cell.
    #[inline(always)]
    pub fn set(&mut self, at: u32, value: T) -> Result<(), AllocError>
        requires { at < length self.old.current }
        ensures ok { (d : T × List ℕ) → OnOk result (self.new ≡ record self.old { current = slice_set self.old.current at (value, (slice_index_or self.old.current at d).1) }) }
        ensures err { OnErr result (self.new ≡ self.old) }
    {
        self.values.set(at, value)
    }

    /// Writes a word of a cell's row.
    #[inline(always)]
    pub fn set_word(&mut self, at: u32, i: usize, word: u64) -> Result<(), AllocError>
        requires there { at < length self.old.current }
        requires inside { (d : T × List ℕ) → i < length (slice_index_or self.old.current at d).1 }
        ensures ok { (d : T × List ℕ) → OnOk result (self.new ≡ record self.old { current = slice_set self.old.current at ((slice_index_or self.old.current at d).0, slice_set (slice_index_or self.old.current at d).1 i word) }) }
        ensures err { OnErr result (self.new ≡ self.old) }
    {
        let _few = self.words.len();
        let place = self.places[at as usize];
        self.words.set((place.start + i) as u32, word)
    }

    /// Saves the current list.
    pub fn mark(&mut self) -> Result<(), AllocError>
        ensures ok { OnOk result (self.new ≡ record self.old { saved = self.old.saved ++ self.old.current ∷ [] }) }
        ensures err { OnErr result (self.new ≡ self.old) }
    {
        let number = self.values.marks();
        self.values.mark()?;
        if let Err(error) = self.words.mark() {
            self.values.undo(number);
            return Err(error);
        }
        Ok(())
    }

    /// Goes back to the mark that so many marks stood before; it and the later ones end.
    pub fn undo(&mut self, number: usize)
        requires { number < length self.old.saved }
        ensures now { slice_get self.old.saved number ≡ Some self.new.current }
        ensures saved { self.new.saved ≡ take number self.old.saved }
    {
        self.values.undo(number);
        self.words.undo(number);
    }

    /// Writes the list of that mark again, and all marks stay.
    pub fn restore(&mut self, number: usize) -> Result<(), AllocError>
        requires { number < length self.old.saved }
        ensures now { OnOk result (slice_get self.old.saved number ≡ Some self.new.current) }
        ensures saved { OnOk result (self.new.saved ≡ self.old.saved) }
        ensures err { OnErr result (self.new ≡ self.old) }
    {
        let last = self.values.marks();
        self.values.mark()?;
        if let Err(error) = self.values.restore(number) {
            self.values.undo(last);
            return Err(error);
        }
        if let Err(error) = self.words.restore(number) {
            self.values.undo(last);
            return Err(error);
        }
        self.values.forget();
        Ok(())
    }

    /// New cells with these values and with rows of so many words, in which every number is, now and in every saved list.
    pub fn grow(&mut self, values: &[T], lengths: &[u32]) -> Result<(), AllocError>
        requires same { length values.now ≡ length lengths.now }
        requires few { length self.old.current + length values.now < 2 ^ 32 }
        ensures ok { OnOk result (self.new ≡ grown self.old (pairs values.now (full_rows lengths.now))) }
        ensures err { OnErr result (self.new ≡ self.old) }
    {
        let start = self.words.len();
        let (places, end) = places_behind(self.alloc, start, lengths)?;
        let full = full_words(self.alloc, end - start)?;
        let count = self.places.len();
        self.places.extend_from_slice(&places)?;
        if let Err(error) = self.words.grow(&full) {
            self.places.truncate(count);
            return Err(error);
        }
        if let Err(error) = self.values.grow(values) {
            self.places.truncate(count);
            return Err(error);
        }
        Ok(())
    }

    /// The cells from `count` on go, with their rows, now and in every saved list.
    pub fn shrink(&mut self, count: usize)
        requires { count ≤ length self.old.current }
        ensures { self.new ≡ shrunk self.old count }
    {
        if count < self.places.len() {
            let place = self.places[count];
            self.words.shrink(place.start);
            self.places.truncate(count);
            self.values.shrink(count);
        }
    }
}

// Places of these lengths from a word on, and the word behind them. So many words that their places could not be numbered
// are more than there is memory for.
fn places_behind(
    alloc: Global,
    start: usize,
    lengths: &[u32],
) -> Result<(Vec<Place>, usize), AllocError>
    requires { start < 2 ^ 32 }
    ensures places { IfOk result (λ made. made.0.items ≡ places_from start lengths.now) }
    ensures end { IfOk result (λ made. made.1 ≡ start + sum lengths.now) }
    ensures few { IfOk result (λ made. made.1 < 2 ^ 32) }
{
    let mut places = Vec::with_capacity(alloc, lengths.len())?;
    let mut end = start;
    for len in lengths {
        places.push(Place {
            start: end,
            len: *len as usize,
        })?;
        end += *len as usize;
        if end > u32::MAX as usize {
            return Err(AllocError);
        }
    }
    Ok((places, end))
}

// So many words in which every number is.
fn full_words(alloc: Global, count: usize) -> Result<Vec<u64>, AllocError>
    ensures { IfOk result (λ words. words.items ≡ replicate count 18446744073709551615) }
{
    let mut words = Vec::new(alloc);
    words.resize(count, u64::MAX)?;
    Ok(words)
}
