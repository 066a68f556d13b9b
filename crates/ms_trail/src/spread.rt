ghost use Rattle.std.specs.Prelude.{◌≡◌, ◌≢◌, ℕ, ◌*◌, ◌<◌, ◌≤ℤ◌, ◌<ℤ◌, ◌+ℤ◌, ◌-ℤ◌, pos, negsuc, false};
ghost use Rattle.ms_num.specs.Span.{IsInterval};
ghost use Rattle.ms_bits.specs.Word.{has_bit};
ghost use Rattle.ms_domains.specs.Domains.{domain_set, IsDomain, IsFree};
ghost use Rattle.ms_trail.specs.Spread.{IsPlaceOf, IsRowWord};

use ms_domains::{Domain, Holes};
use ms_num::Ranges;

/// The place of the list of ranges that has the holes, if they are in one.
#[inline(always)]
pub(crate) fn place_of(holes: Holes) -> Option<usize>
    ensures { IsPlaceOf holes result }
{
    match holes {
        Holes::Listed { place } => Some(place),
        Holes::Whole | Holes::Window { .. } | Holes::Row { .. } => None,
    }
}

pub(crate) fn after(n: i64) -> i64
    requires { n ≤ℤ pos 1125899906842624 }
    ensures { result ≡ n +ℤ pos 1 }
{
    n + 1
}

pub(crate) fn before(n: i64) -> i64
    requires { negsuc 1125899906842623 ≤ℤ n }
    ensures { result ≡ n -ℤ pos 1 }
{
    n - 1
}

/// How many words a row that begins with the lowest number needs to reach the greatest.
pub(crate) fn words_needed(lo: i64, hi: i64) -> usize
    requires { IsInterval (record { lo = lo; hi = hi }) }
    ensures reach { hi <ℤ (lo +ℤ pos (64 * result)) }
    ensures needed { (i : ℕ) → i < result → (lo +ℤ pos (64 * i)) ≤ℤ hi }
{
    ((hi - lo) as u64 / 64) as usize + 1
}

/// The word that stands at `i` in such a row, of a set whose holes stand in no word yet.
pub(crate) fn row_word(domain: Domain, lists: &[Ranges], row: &[u64], i: usize) -> u64
    requires proper { IsDomain lists.now row.now domain }
    requires free { IsFree domain.holes }
    requires needed { (domain.lo +ℤ pos (64 * i)) ≤ℤ domain.hi }
    ensures { IsRowWord lists.now row.now domain i result }
{
    match place_of(domain.holes) {
        Some(_) => word_from(domain, lists, row, row_base(domain.lo, i)),
        None => u64::MAX,
    }
}

// The first number of the word at `i`.
fn row_base(lo: i64, i: usize) -> i64
    requires low { negsuc 1125899906842623 ≤ℤ lo }
    requires high { (lo +ℤ pos (64 * i)) ≤ℤ pos 1125899906842624 }
    ensures { result ≡ lo +ℤ pos (64 * i) }
{
    lo + 64 * i as i64
}

// The numbers of the set from `base` on, in a word.
fn word_from(domain: Domain, lists: &[Ranges], row: &[u64], base: i64) -> u64
    requires proper { IsDomain lists.now row.now domain }
    requires low { negsuc 1125899906842623 ≤ℤ base }
    requires high { base ≤ℤ pos 1125899906842624 }
    ensures { (k : ℕ) → k < 64 → has_bit result k ≡ (domain_set lists.now row.now domain).has (base +ℤ pos k) }
{
    let mut bits = 0;
    for k in 0..64u64 {
        bits = with_if(bits, k, has_above(domain, lists, row, base, k));
    }
    bits
}

fn above(base: i64, k: u64) -> i64
    requires low { negsuc 1125899906842623 ≤ℤ base }
    requires high { base ≤ℤ pos 1125899906842624 }
    requires few { k < 64 }
    ensures { result ≡ base +ℤ pos k }
{
    base + k as i64
}

fn has_above(domain: Domain, lists: &[Ranges], row: &[u64], base: i64, k: u64) -> bool
    requires proper { IsDomain lists.now row.now domain }
    requires low { negsuc 1125899906842623 ≤ℤ base }
    requires high { base ≤ℤ pos 1125899906842624 }
    requires few { k < 64 }
    ensures { result ≡ (domain_set lists.now row.now domain).has (base +ℤ pos k) }
{
    domain.has(lists, row, above(base, k))
}

// The word with the number, where that is so.
fn with_if(bits: u64, k: u64, there: bool) -> u64
    requires few { k < 64 }
    requires before { has_bit bits k ≡ false }
    ensures at { has_bit result k ≡ there }
    ensures others { (j : ℕ) → j ≢ k → has_bit result j ≡ has_bit bits j }
{
    if there { ms_bits::with(bits, k) } else { bits }
}
