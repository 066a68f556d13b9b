ghost use Rattle.std.specs.Prelude.{◌≡◌, ◌-◌, ◌^◌, ◌<◌, ◌≤◌, ◌≤ℤ◌, ◌<ℤ◌, ◌+ℤ◌, ◌-ℤ◌, ℤ, pos, true, not, int_le, length, []};
ghost use Rattle.ms_num.specs.Numbers.{int_eq};
ghost use Rattle.ms_num.specs.Span.{IsInterval};
ghost use Rattle.ms_num.specs.Sets.{IsCut, set_size};
ghost use Rattle.ms_domains.specs.Bounded.{bounded};
ghost use Rattle.ms_domains.specs.Domains.{domain_set, row_from, IsDomain, IsRowSet, IsPart, IsHole, HasRoom};

use crate::words::{Replaced, Word, Words};
use ms_num::Ranges;

/// Which numbers between the ends of a set are missing.
#[derive(Clone, Copy)]
pub enum Holes {
    /// None.
    Whole,
    /// Those that are not in the word, which begins at `base`.
    Window { base: i64, bits: u64 },
    /// Those that are not in the row of words, which begins at `base`; `bits` stands for its word at `at`.
    Row { base: i64, at: usize, bits: u64 },
    /// Those that are not in the list of ranges of that place.
    Listed { place: usize },
}

/// A set of numbers in a place of fixed size, with what is missing between its ends.
#[derive(Clone, Copy)]
pub struct Domain {
    pub lo: i64,
    pub hi: i64,
    pub size: u64,
    pub holes: Holes,
}

// How far the second number is above the first.
#[inline(always)]
pub(crate) fn distance(from: i64, to: i64) -> u64
    requires { IsInterval (record { lo = from; hi = to }) }
    ensures { pos result ≡ to -ℤ from }
{
    (to - from) as u64
}

// The number that is so far above.
#[inline(always)]
fn above(from: i64, by: u64) -> i64
    requires { IsInterval (record { lo = from; hi = from +ℤ pos by }) }
    ensures { result ≡ from +ℤ pos by }
{
    from + by as i64
}

impl Domain {
    /// Every number from one to another.
    #[inline(always)]
    pub fn between(lo: i64, hi: i64) -> Domain
        requires { IsInterval (record { lo = lo; hi = hi }) }
        ensures lo { result.lo ≡ lo }
        ensures hi { result.hi ≡ hi }
        ensures whole { result.holes ≡ Holes.Whole }
        ensures size { result.size ≡ set_size (bounded lo hi (λ z. true)) }
    {
        Domain {
            lo,
            hi,
            size: distance(lo, hi) + 1,
            holes: Holes::Whole,
        }
    }

    /// Whether the number is in the set, with the lists of ranges and the variable's row.
    pub fn has(self, lists: &[Ranges], row: &[u64], n: i64) -> bool
        requires { IsDomain lists.now row.now self }
        ensures { result ≡ (domain_set lists.now row.now self).has n }
    {
        if n < self.lo || self.hi < n {
            return false;
        }
        match self.holes {
            Holes::Whole => true,
            Holes::Window { base, bits } => crate::word::has(bits, distance(base, n)),
            Holes::Row { base, at, bits } => crate::row::has(row, at, bits, distance(base, n)),
            Holes::Listed { place } => lists[place].has(n),
        }
    }

    /// The numbers up to `n`, of a set that is in no list of ranges.
    #[inline(always)]
    pub fn at_most(self, row: &[u64], n: i64) -> Domain
        requires proper { IsDomain [] row.now self }
        requires few { length row.now < 2 ^ 32 }
        requires low { self.lo ≤ℤ n }
        requires high { n <ℤ self.hi }
        ensures proper { IsDomain [] row.now result }
        ensures cut { IsCut (λ z. int_le z n) (domain_set [] row.now self) (domain_set [] row.now result) }
    {
        match self.holes {
            Holes::Window { base, bits } => up_to(self, base, Word { bits }, n),
            Holes::Row { base, at, bits } => up_to(self, base, Replaced { row, at, bits }, n),
            Holes::Whole => Domain::between(self.lo, n),
            Holes::Listed { .. } => self,
        }
    }

    /// The numbers from `n` on, of such a set.
    #[inline(always)]
    pub fn at_least(self, row: &[u64], n: i64) -> Domain
        requires proper { IsDomain [] row.now self }
        requires few { length row.now < 2 ^ 32 }
        requires low { self.lo <ℤ n }
        requires high { n ≤ℤ self.hi }
        ensures proper { IsDomain [] row.now result }
        ensures cut { IsCut (λ z. int_le n z) (domain_set [] row.now self) (domain_set [] row.now result) }
    {
        match self.holes {
            Holes::Window { base, bits } => from(self, base, Word { bits }, n),
            Holes::Row { base, at, bits } => from(self, base, Replaced { row, at, bits }, n),
            Holes::Whole => Domain::between(n, self.hi),
            Holes::Listed { .. } => self,
        }
    }

    /// Whether the domain itself has room for a hole at the number.
    #[inline(always)]
    pub fn has_room(self, row: &[u64], n: i64) -> bool
        requires proper { IsDomain [] row.now self }
        requires low { self.lo <ℤ n }
        requires high { n <ℤ self.hi }
        ensures { result ≡ true → HasRoom self.lo self.hi n self.holes }
    {
        match self.holes {
            Holes::Whole => distance(self.lo, self.hi) < 64,
            Holes::Window { .. } => true,
            Holes::Row { base, at, .. } => distance(base, n) / 64 == at as u64,
            Holes::Listed { .. } => false,
        }
    }

    /// The set without a number between its ends, where the domain has room for that hole.
    #[inline(always)]
    pub fn without(self, row: &[u64], n: i64) -> Domain
        requires proper { IsDomain [] row.now self }
        requires low { self.lo <ℤ n }
        requires high { n <ℤ self.hi }
        requires there { (domain_set [] row.now self).has n ≡ true }
        requires room { HasRoom self.lo self.hi n self.holes }
        ensures proper { IsDomain [] row.now result }
        ensures cut { IsCut (λ z. not (int_eq z n)) (domain_set [] row.now self) (domain_set [] row.now result) }
    {
        Domain {
            lo: self.lo,
            hi: self.hi,
            size: self.size - 1,
            holes: self.hole(row, n),
        }
    }

    // One more hole.
    #[inline(always)]
    fn hole(self, row: &[u64], n: i64) -> Holes
        requires proper { IsDomain [] row.now self }
        requires low { self.lo <ℤ n }
        requires high { n <ℤ self.hi }
        requires room { HasRoom self.lo self.hi n self.holes }
        ensures { IsHole row.now self n result }
    {
        match self.holes {
            Holes::Window { base, bits } => Holes::Window {
                base,
                bits: ms_bits::without(bits, distance(base, n)),
            },
            Holes::Row { base, at, bits } => Holes::Row {
                base,
                at,
                bits: ms_bits::without(bits, distance(base, n) % 64),
            },
            Holes::Whole => Holes::Window {
                base: self.lo,
                bits: ms_bits::without(u64::MAX, distance(self.lo, n)),
            },
            Holes::Listed { .. } => self.holes,
        }
    }
}

// The numbers up to `n` of a set whose numbers are in words that begin at `base`.
#[inline(never)]
fn up_to<W: Words>(set: Domain, base: i64, words: W, n: i64) -> Domain
    requires set { IsRowSet set (W.as_row words) base }
    requires low { set.lo ≤ℤ n }
    requires high { n <ℤ set.hi }
    ensures { IsPart (λ z. int_le z n) set result (row_from (W.as_row words) base) }
{
    match words.last(distance(base, n)) {
        Some(k) => Domain {
            lo: set.lo,
            hi: above(base, k),
            size: set.size - words.count(k + 1, distance(base, set.hi)),
            holes: set.holes,
        },
        None => set,
    }
}

// The numbers from `n` on of such a set.
#[inline(never)]
fn from<W: Words>(set: Domain, base: i64, words: W, n: i64) -> Domain
    requires set { IsRowSet set (W.as_row words) base }
    requires low { set.lo <ℤ n }
    requires high { n ≤ℤ set.hi }
    ensures { IsPart (λ z. int_le n z) set result (row_from (W.as_row words) base) }
{
    match words.first(distance(base, n)) {
        Some(k) => Domain {
            lo: above(base, k),
            hi: set.hi,
            size: set.size - words.count(distance(base, set.lo), k - 1),
            holes: set.holes,
        },
        None => set,
    }
}
