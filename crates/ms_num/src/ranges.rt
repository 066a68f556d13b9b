ghost use Rattle.std.specs.Prelude.{◌≡◌, ◌≢◌, ◌↔◌, ◌&&◌, ◌||◌, not, ℤ, int_le, ◌∷◌, [], IfOk, OnOk, IfSome, IsNone, IsTrue};
ghost use Rattle.std.specs.List.{list_all, list_any};
ghost use Rattle.ms_num.specs.Numbers.{int_eq};
ghost use Rattle.ms_num.specs.Span.{is_within};
ghost use Rattle.ms_num.specs.Ranges.{IsRanges, IsLowest, IsHighest, is_member, size_of, EndAtMost};
ghost use Rattle.ms_num.specs.Sets.{set_of, set_size, IsSet, span_of, declared_span};

use crate::iv::Iv;
use std::alloc::{AllocError, Global};
use std::marker::Model;

/// A set of numbers. Contracts see its ranges: sorted, and no two meet or touch, so that there is one list for
/// one set.
#[derive(Debug, Drop)]
pub struct Ranges {
    ranges: Vec<Iv>,
}

impl Model for Ranges {
    ghost use Rattle.std.specs.Prelude.{List};
    ghost use Rattle.ms_num.specs.Span.{Span};

    ghost Value = { List Span };

    ghost use Rattle.ms_num.specs.Ranges.{IsRanges};

    ghost view = { λ r. r.ranges.items };

    ghost invariant = { λ r. IsRanges r.ranges.items };
}

impl Ranges {
    /// The set without numbers.
    pub fn empty(alloc: Global) -> Ranges
        ensures { result ≡ [] }
    {
        Ranges {
            ranges: Vec::new(alloc),
        }
    }

    /// The numbers of the interval.
    pub fn from_iv(alloc: Global, iv: Iv) -> Result<Ranges, AllocError>
        ensures { IfOk result (λ ranges. ranges ≡ iv ∷ []) }
    {
        let mut ranges = Vec::with_capacity(alloc, 1)?;
        ranges.push(iv)?;
        Ok(Ranges { ranges })
    }

    /// The numbers of a list, in any order; a number may stand there more than once.
    pub fn from_list(alloc: Global, list: &[i64]) -> Result<Ranges, AllocError>
        requires { IsTrue (list_all is_within list.now) }
        ensures members { IfOk result (λ ranges. (z : ℤ) → is_member ranges z ≡ list_any (int_eq z) list.now) }
        ensures proper { IfOk result IsRanges }
    {
        let mut sorted = Vec::from_slice(alloc, list)?;
        sorted.sort()?;
        let mut ranges = Vec::new(alloc);
        for number in &sorted {
            add_last(&mut ranges, *number)?;
        }
        Ok(Ranges { ranges })
    }

    /// The ranges, in ascending order.
    pub fn ranges(&self) -> &[Iv]
        ensures value { result.now ≡ self.now }
        ensures proper { IsRanges self.now }
    {
        self.ranges.as_slice()
    }

    /// Whether the number is in the set, by binary search.
    pub fn has(&self, n: i64) -> bool
        ensures { result ≡ is_member self.now n }
    {
        let at = self.ranges.partition_point(|range| range.hi() < n);
        at < self.ranges.len() && self.ranges[at].lo() <= n
    }

    /// How many numbers there are.
    pub fn size(&self) -> u64
        ensures value { result ≡ size_of self.now }
        ensures set { result ≡ set_size (set_of self.now) }
    {
        self.ranges.iter().map(|range| range.size()).sum()
    }

    /// The least number.
    pub fn lo(&self) -> Option<i64>
        ensures none { IsNone result ↔ (self.now ≡ []) }
        ensures lowest { IfSome result (IsLowest self.now) }
    {
        self.ranges.first().map(|range| range.lo())
    }

    /// The greatest number.
    pub fn hi(&self) -> Option<i64>
        ensures none { IsNone result ↔ (self.now ≡ []) }
        ensures highest { IfSome result (IsHighest self.now) }
    {
        self.ranges.last().map(|range| range.hi())
    }

    /// The interval from the least number to the greatest.
    pub fn ends(&self) -> Iv
        requires { self.now ≢ [] }
        ensures value { result ≡ span_of (set_of self.now) }
        ensures proper { IsSet (set_of self.now) }
    {
        let ranges = self.ranges();
        Iv::new(ranges[0].lo(), ranges[ranges.len() - 1].hi())
    }

    /// The interval of a declared set: from the least number to the greatest, or 0..0 where there is none.
    pub fn declared_interval(&self) -> Iv
        ensures { result ≡ declared_span (set_of self.now) }
    {
        if self.ranges.is_empty() {
            Iv::single(0)
        } else {
            self.ends()
        }
    }

    /// The numbers up to `n`.
    pub fn at_most(&self, alloc: Global, n: i64) -> Result<Ranges, AllocError>
        ensures members { IfOk result (λ kept. (z : ℤ) → is_member kept z ≡ (is_member self.now z && int_le z n)) }
        ensures proper { IfOk result IsRanges }
    {
        let kept = self.ranges.iter().filter_map(|range| range.at_most(n));
        Ok(Ranges {
            ranges: kept.collect(alloc)?,
        })
    }

    /// The numbers from `n` on.
    pub fn at_least(&self, alloc: Global, n: i64) -> Result<Ranges, AllocError>
        ensures members { IfOk result (λ kept. (z : ℤ) → is_member kept z ≡ (is_member self.now z && int_le n z)) }
        ensures proper { IfOk result IsRanges }
    {
        let kept = self.ranges.iter().filter_map(|range| range.at_least(n));
        Ok(Ranges {
            ranges: kept.collect(alloc)?,
        })
    }

    /// The numbers other than `n`.
    pub fn without(&self, alloc: Global, n: i64) -> Result<Ranges, AllocError>
        ensures members { IfOk result (λ kept. (z : ℤ) → is_member kept z ≡ (is_member self.now z && not (int_eq z n))) }
        ensures proper { IfOk result IsRanges }
    {
        let ranges = self.ranges.as_slice();
        if !self.has(n) {
            return self.copy(alloc);
        }
        let (before, after) = (n - 1, n + 1);
        let below = ranges.iter().filter_map(|range| range.at_most(before));
        let above = ranges.iter().filter_map(|range| range.at_least(after));
        Ok(Ranges {
            ranges: below.chain(above).collect(alloc)?,
        })
    }

    pub fn copy(&self, alloc: Global) -> Result<Ranges, AllocError>
        ensures { IfOk result (λ copied. copied ≡ self.now) }
    {
        Ok(Ranges {
            ranges: Vec::from_slice(alloc, &self.ranges)?,
        })
    }
}

// Adds a number that no range passes.
fn add_last(ranges: &mut Vec<Iv>, n: i64) -> Result<(), AllocError>
    requires proper { IsRanges ranges.old.items }
    requires within { IsTrue (is_within n) }
    requires last { EndAtMost n ranges.old.items }
    ensures proper { OnOk result (IsRanges ranges.new.items) }
    ensures members { OnOk result ((z : ℤ) → is_member ranges.new.items z ≡ (is_member ranges.old.items z || int_eq z n)) }
    ensures last { OnOk result (EndAtMost n ranges.new.items) }
{
    match ranges.pop() {
        Some(last) if n <= last.hi() + 1 => ranges.push(Iv::new(last.lo(), n))?,
        Some(last) => {
            ranges.push(last)?;
            ranges.push(Iv::single(n))?;
        }
        None => ranges.push(Iv::single(n))?,
    }
    Ok(())
}
