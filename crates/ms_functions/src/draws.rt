//! Numbers that random words give.

ghost use Rattle.std.specs.Prelude.{◌≡◌, ◌≤◌, ◌+◌, ◌-◌, ◌%◌, ◌^◌, ◌+ℤ◌, pos, IsTrue, Some, is_some};
ghost use Rattle.ms_num.specs.Span.{is_within};
ghost use Rattle.ms_rules.specs.Calls as c;

use ms_values::{Narrow, Operand};

// The number that the word gives from the lowest on, among those that are at most so far from it.
fn numbered(word: u32, low: i64, width: u64) -> Option<Narrow>
    requires narrow { width ≤ 2 ^ 32 - 1 }
    requires first { IsTrue (is_within low) }
    requires last { IsTrue (is_within (low +ℤ pos width)) }
    ensures { result ≡ Some (low +ℤ pos (word % (width + 1))) }
{
    Narrow::new(low + (word as u64 % (width + 1)) as i64)
}

// The number from the lowest to the highest that the word gives, where there are no more than words.
fn drawn_between(word: u32, low: Narrow, high: Narrow) -> Option<Narrow>
    ensures { result ≡ c.drawn_between word low high }
{
    let (low, high) = (low.get(), high.get());
    let width = (high - low).unsigned_abs();
    if low <= high && width <= u32::MAX as u64 {
        numbered(word, low, width)
    } else {
        None
    }
}

fn drawn(word: u32, low: Option<Narrow>, high: Option<Narrow>) -> Option<Narrow>
    ensures { result ≡ c.drawn word low high }
{
    match low {
        Some(low) => match high {
            Some(high) => drawn_between(word, low, high),
            None => None,
        },
        None => None,
    }
}

/// Whether there is a number that a word gives.
pub fn takes_word(low: Option<Narrow>, high: Option<Narrow>) -> bool
    ensures { result ≡ is_some (c.drawn 0 low high) }
{
    drawn(0, low, high).is_some()
}

/// The number from the lowest to the highest that the word gives; undefined where there is none, or more than words.
pub fn uniform(word: u32, low: Option<Narrow>, high: Option<Narrow>) -> Operand
    ensures { result ≡ Operand.Number (c.drawn word low high) }
{
    Operand::Number(drawn(word, low, high))
}
