ghost use Rattle.std.specs.Prelude.{◌≡◌, ◌≢◌, ◌*◌, ◌<◌, ◌≤ℤ◌, ◌<ℤ◌, ◌+ℤ◌, ℕ, ℤ, List, pos, negsuc, true, length, slice_index_or, [], IfSome};
ghost use Rattle.ms_num.specs.Span.{Span, IsInterval};
ghost use Rattle.ms_num.specs.Ranges.{is_member};
ghost use Rattle.ms_num.specs.Sets.{set_of};
ghost use Rattle.ms_domains.specs.Domains.{domain_set, IsDomain, IsWordOf, StandsFor, IsFilled, IsWritten, HasRoom};

use crate::domain::{Domain, Holes, distance};
use ms_num::Ranges;

/// How many words a row has for the numbers of the set: none where it fits into one word or spans more than 4,096
/// numbers.
pub fn words_for(set: &Ranges) -> u32
    requires { set.now ≢ [] }
    ensures { result < 65 }
{
    let ends = set.ends();
    let far = distance(ends.lo(), ends.hi());
    if far < 64 || far >= 4096 {
        0
    } else {
        (far / 64) as u32 + 1
    }
}

// The numbers of the set from `base` on, in a word.
fn word_of(set: &Ranges, base: i64) -> u64
    requires low { negsuc 1125899906842623 ≤ℤ base }
    requires high { base ≤ℤ pos 1125899906842624 }
    ensures { IsWordOf (is_member set.now) base result }
{
    let mut bits = 0;
    for k in 0..64u64 {
        if set.has(base + k as i64) {
            bits = ms_bits::with(bits, k);
        }
    }
    bits
}

impl Domain {
    /// The domain of a set that has no holes, or that fits into one word.
    pub fn small(set: &Ranges) -> Option<Domain>
        requires { set.now ≢ [] }
        ensures { IfSome result (λ d. (lists : List (List Span)) (row : List ℕ) → StandsFor lists row (set_of set.now) d) }
    {
        let ends = set.ends();
        let (lo, hi) = (ends.lo(), ends.hi());
        if set.ranges().len() == 1 {
            return Some(Domain::between(lo, hi));
        }
        if distance(lo, hi) >= 64 {
            return None;
        }
        Some(Domain {
            lo,
            hi,
            size: set.size(),
            holes: Holes::Window {
                base: lo,
                bits: word_of(set, lo),
            },
        })
    }

    /// The domain of any set that is the list of ranges of that place.
    pub fn listed(set: &Ranges, place: usize) -> Domain
        requires { set.now ≢ [] }
        ensures { (lists : List (List Span)) (row : List ℕ) → place < length lists → slice_index_or lists place [] ≡ set.now → StandsFor lists row (set_of set.now) result }
    {
        let ends = set.ends();
        Domain {
            lo: ends.lo(),
            hi: ends.hi(),
            size: set.size(),
            holes: Holes::Listed { place },
        }
    }

    /// Whether a row of so many words that begins with the lowest number has room for the numbers of the set.
    pub fn fits(self, words: usize) -> bool
        requires { IsInterval (record { lo = self.lo; hi = self.hi }) }
        ensures { result ≡ true → self.hi <ℤ (self.lo +ℤ pos (64 * words)) }
    {
        ((distance(self.lo, self.hi) / 64) as usize) < words
    }

    /// The same set in a row that has its numbers, with the word of the number in front.
    pub fn opened(self, row: &[u64], n: i64) -> Domain
        requires within { IsInterval (record { lo = self.lo; hi = self.hi }) }
        requires covers { self.hi <ℤ (self.lo +ℤ pos (64 * length row.now)) }
        requires low { self.lo ≤ℤ n }
        requires high { n ≤ℤ self.hi }
        ensures same { (lists : List (List Span)) → IsDomain lists row.now self → IsFilled lists row.now self → StandsFor [] row.now (domain_set lists row.now self) result }
        ensures room { HasRoom result.lo result.hi n result.holes }
    {
        let at = (distance(self.lo, n) / 64) as usize;
        Domain {
            lo: self.lo,
            hi: self.hi,
            size: self.size,
            holes: Holes::Row {
                base: self.lo,
                at,
                bits: row[at],
            },
        }
    }

    /// The same set with another word of its row in front, that of the number.
    #[inline(always)]
    pub fn moved(self, row: &[u64], n: i64) -> Domain
        requires proper { IsDomain [] row.now self }
        requires written { IsWritten row.now self.holes }
        requires low { self.lo ≤ℤ n }
        requires high { n ≤ℤ self.hi }
        ensures same { StandsFor [] row.now (domain_set [] row.now self) result }
        ensures room { (base : ℤ) (at bits : ℕ) → self.holes ≡ Holes.Row base at bits → HasRoom result.lo result.hi n result.holes }
    {
        match self.holes {
            Holes::Row { base, .. } => {
                let at = (distance(base, n) / 64) as usize;
                Domain {
                    lo: self.lo,
                    hi: self.hi,
                    size: self.size,
                    holes: Holes::Row {
                        base,
                        at,
                        bits: row[at],
                    },
                }
            }
            _ => self,
        }
    }
}
