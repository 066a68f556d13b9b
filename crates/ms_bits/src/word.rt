ghost use Rattle.std.specs.Prelude.{◌≡◌, ◌≢◌, ℕ, ◌+◌, ◌-◌, ◌<◌, ◌≤◌, true, false};
ghost use Rattle.ms_bits.specs.Word.{has_bit, bits_from, IsFirst, IsLast};

/// Whether the number is in the word.
pub fn has(word: u64, k: u64) -> bool
    requires { k < 64 }
    ensures { result ≡ has_bit word k }
{
    (word >> k) & 1 == 1
}

/// The word without the number.
pub fn without(word: u64, k: u64) -> u64
    requires { k < 64 }
    ensures gone { has_bit result k ≡ false }
    ensures others { (j : ℕ) → j < 64 → j ≢ k → has_bit result j ≡ has_bit word j }
{
    word & !(1u64 << k)
}

/// The word with the number.
pub fn with(word: u64, k: u64) -> u64
    requires { k < 64 }
    ensures there { has_bit result k ≡ true }
    ensures others { (j : ℕ) → j ≢ k → has_bit result j ≡ has_bit word j }
{
    word | (1u64 << k)
}

/// The least number of the word from `from` on.
pub fn first(word: u64, from: u64) -> Option<u64>
    requires { from < 64 }
    ensures { IsFirst word from result }
{
    let rest = word >> from;
    if rest == 0 {
        None
    } else {
        Some(from + u64::from(rest.trailing_zeros()))
    }
}

/// The greatest number of the word up to `to`.
pub fn last(word: u64, to: u64) -> Option<u64>
    requires { to < 64 }
    ensures { IsLast word to result }
{
    let low = word & (u64::MAX >> (63 - to));
    if low == 0 {
        None
    } else {
        Some(63 - u64::from(low.leading_zeros()))
    }
}

/// How many numbers of the word there are from `from` to `to`.
pub fn count(word: u64, from: u64, to: u64) -> u64
    requires ordered { from ≤ to }
    requires within { to < 64 }
    ensures { result ≡ bits_from word from (to - from + 1) }
{
    let low = (word >> from) & (u64::MAX >> (63 - (to - from)));
    u64::from(low.count_ones())
}
