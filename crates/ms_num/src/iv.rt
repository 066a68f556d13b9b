ghost use Rattle.std.specs.Prelude.{◌≡◌, ◌↔◌, ◌^◌, ◌-◌, ℤ, pos, negsuc, ◌≤ℤ◌, IfSome, IsTrue, int_le, ◌&&◌, ◌*ℤ◌, option_map};
ghost use Rattle.std.specs.Int.{int_min, int_max};
ghost use Rattle.ms_num.specs.Numbers.{neg_at, abs_at, add_at, sub_at, mul_at, min_at, max_at, div_at, mod_at};
ghost use Rattle.ms_num.specs.Span.{Span, IsInterval, IsResult, IsImage, IsLeast, if_narrow, neg_span, abs_span, add_span, sub_span, mul_span, min_span, max_span, span_of_four, is_within, if_within, has, Has, point, join, join_some, negative_part, positive_part, IsOneSign, quotients, cut_around_zero, div_span, mod_span};
ghost use Rattle.ms_num.specs.Ranges.{span_size, span_at_most, span_at_least};

use std::marker::Model;

/// The greatest number of an interval; the least is `-LIMIT`.
pub const LIMIT: i64 = 1 << 50;

/// The numbers from `lo` to `hi`, both within -2^50..2^50.
#[derive(Clone, Copy, Debug, PartialEq, Eq)]
pub struct Iv {
    lo: i64,
    hi: i64,
}

impl Model for Iv {
    ghost use Rattle.ms_num.specs.Span.{Span};

    ghost Value = { Span };

    ghost use Rattle.ms_num.specs.Span.{IsInterval};

    ghost view = { λ v. record { lo = v.lo; hi = v.hi } };

    ghost invariant = { λ v. IsInterval (record { lo = v.lo; hi = v.hi }) };

    ghost inverse = { λ s. record { lo = s.lo; hi = s.hi } };
}

impl Iv {
    /// The numbers from `lo` to `hi`.
    pub fn new(lo: i64, hi: i64) -> Iv
        requires { IsInterval (record { lo = lo; hi = hi }) }
        ensures { result ≡ record { lo = lo; hi = hi } }
    {
        Iv { lo, hi }
    }

    /// The interval, where both ends are within the limits.
    pub fn narrow(lo: i64, hi: i64) -> Option<Iv>
        requires { lo ≤ℤ hi }
        ensures { result ≡ if_narrow (record { lo = lo; hi = hi }) }
    {
        if -LIMIT <= lo && hi <= LIMIT {
            Some(Iv { lo, hi })
        } else {
            None
        }
    }

    /// The one number.
    pub fn single(n: i64) -> Iv
        requires { IsTrue (is_within n) }
        ensures { result ≡ record { lo = n; hi = n } }
    {
        Iv { lo: n, hi: n }
    }

    /// The least number.
    pub fn lo(self) -> i64
        ensures value { result ≡ self.lo }
        ensures within { IsInterval self }
    {
        self.lo
    }

    /// The greatest number.
    pub fn hi(self) -> i64
        ensures value { result ≡ self.hi }
        ensures within { IsInterval self }
    {
        self.hi
    }

    /// Whether the number lies in the interval.
    pub fn has(self, n: i64) -> bool
        ensures { result ≡ has self n }
    {
        self.lo <= n && n <= self.hi
    }

    /// The least interval of the sums; none where an end leaves the limits.
    pub fn add(self, other: Iv) -> Option<Iv>
        ensures value { result ≡ if_narrow (add_span self other) }
        ensures least { IfSome result (IsLeast (IsResult add_at self other)) }
    {
        Iv::narrow(self.lo + other.lo, self.hi + other.hi)
    }

    /// The least interval of the differences; none where an end leaves the limits.
    pub fn sub(self, other: Iv) -> Option<Iv>
        ensures value { result ≡ if_narrow (sub_span self other) }
        ensures least { IfSome result (IsLeast (IsResult sub_at self other)) }
    {
        Iv::narrow(self.lo - other.hi, self.hi - other.lo)
    }

    /// The least interval of the products; none where an end leaves the limits.
    pub fn mul(self, other: Iv) -> Option<Iv>
        ensures value { result ≡ if_narrow (mul_span self other) }
        ensures least { IfSome result (IsLeast (IsResult mul_at self other)) }
    {
        let p = product(self.lo, other.lo)?;
        let q = product(self.lo, other.hi)?;
        let r = product(self.hi, other.lo)?;
        let s = product(self.hi, other.hi)?;
        Some(around(p, q, r, s))
    }
}

impl Iv {
    /// The negated numbers.
    pub fn neg(self) -> Iv
        ensures value { result ≡ neg_span self }
        ensures least { IsLeast (IsImage neg_at self) result }
    {
        Iv {
            lo: -self.hi,
            hi: -self.lo,
        }
    }

    /// The least interval of the absolute values.
    pub fn abs(self) -> Iv
        ensures value { result ≡ abs_span self }
        ensures least { IsLeast (IsImage abs_at self) result }
    {
        Iv {
            lo: self.lo.max(-self.hi).max(0),
            hi: (-self.lo).max(self.hi),
        }
    }

    /// The least interval of the lesser of two numbers.
    pub fn min2(self, other: Iv) -> Iv
        ensures value { result ≡ min_span self other }
        ensures least { IsLeast (IsResult min_at self other) result }
    {
        Iv {
            lo: self.lo.min(other.lo),
            hi: self.hi.min(other.hi),
        }
    }

    /// The least interval of the greater of two numbers.
    pub fn max2(self, other: Iv) -> Iv
        ensures value { result ≡ max_span self other }
        ensures least { IsLeast (IsResult max_at self other) result }
    {
        Iv {
            lo: self.lo.max(other.lo),
            hi: self.hi.max(other.hi),
        }
    }
}

impl Iv {
    /// The least interval of the quotients, cut toward zero; none where 0 is the only divisor.
    pub fn div_hull(self, other: Iv) -> Option<Iv>
        ensures none { (result ≡ None) ↔ (other ≡ point (pos 0)) }
        ensures value { result ≡ div_span self other }
        ensures least { IfSome result (IsLeast (IsResult div_at self other)) }
    {
        let below = self.quotients(other.negative_part());
        let above = self.quotients(other.positive_part());
        Iv::join_some(below, above)
    }

    /// An interval that has each defined remainder; none where 0 is the only divisor. It is cut by the dividends,
    /// whose sign a remainder has, and by the greatest divisor. For two numbers it is their remainder.
    pub fn mod_hull(self, other: Iv) -> Option<Iv>
        ensures none { (result ≡ None) ↔ (other ≡ point (pos 0)) }
        ensures value { result ≡ mod_span self other }
        ensures all { IfSome result (λ hull. (z : ℤ) → IsResult mod_at self other z → Has hull z) }
        ensures single { self.lo ≡ self.hi → other.lo ≡ other.hi → IfSome result (IsLeast (IsResult mod_at self other)) }
    {
        if other.lo == 0 && other.hi == 0 {
            return None;
        }
        if self.lo == self.hi && other.lo == other.hi {
            return Some(Iv::single(self.lo % other.lo));
        }
        let most = other.lo.abs().max(other.hi.abs()) - 1;
        Some(self.remainders(-most, most))
    }

    /// The least interval that has both.
    pub fn join(self, other: Iv) -> Iv
        ensures { result ≡ join self other }
    {
        Iv {
            lo: self.lo.min(other.lo),
            hi: self.hi.max(other.hi),
        }
    }

    /// The least interval that has both, where each may be missing.
    pub fn join_some(first: Option<Iv>, second: Option<Iv>) -> Option<Iv>
        ensures { result ≡ join_some first second }
    {
        match (first, second) {
            (Some(first), Some(second)) => Some(first.join(second)),
            (None, second) => second,
            (first, None) => first,
        }
    }

    // The numbers below 0.
    fn negative_part(self) -> Option<Iv>
        ensures value { result ≡ negative_part self }
        ensures sign { IfSome result IsOneSign }
        ensures ordered { self.lo ≤ℤ self.hi }
    {
        if self.lo < 0 {
            Some(Iv {
                lo: self.lo,
                hi: self.hi.min(-1),
            })
        } else {
            None
        }
    }

    // The numbers above 0.
    fn positive_part(self) -> Option<Iv>
        ensures value { result ≡ positive_part self }
        ensures sign { IfSome result IsOneSign }
    {
        if self.hi > 0 {
            Some(Iv {
                lo: self.lo.max(1),
                hi: self.hi,
            })
        } else {
            None
        }
    }

    // The quotients by divisors of one sign, where there are any.
    fn quotients(self, divisors: Option<Iv>) -> Option<Iv>
        requires { IfSome divisors IsOneSign }
        ensures value { result ≡ option_map (quotients self) divisors }
        ensures ordered { self.lo ≤ℤ self.hi }
    {
        let (lo, hi) = (self.lo, self.hi);
        let by = divisors?;
        Some(around(lo / by.lo, lo / by.hi, hi / by.lo, hi / by.hi))
    }

    // The interval with 0 joined to it, cut at both ends.
    fn remainders(self, least: i64, most: i64) -> Iv
        requires negative { least ≤ℤ pos 0 }
        requires positive { pos 0 ≤ℤ most }
        ensures { result ≡ cut_around_zero self least most }
    {
        Iv {
            lo: self.lo.min(0).max(least),
            hi: self.hi.max(0).min(most),
        }
    }
}

impl Iv {
    /// How many numbers there are.
    pub fn size(self) -> u64
        ensures { result ≡ span_size self }
    {
        (self.hi - self.lo) as u64 + 1
    }

    // What is left of the interval up to `n`.
    pub(crate) fn at_most(self, n: i64) -> Option<Iv>
        ensures { result ≡ span_at_most n self }
    {
        if self.lo <= n {
            Some(Iv {
                lo: self.lo,
                hi: self.hi.min(n),
            })
        } else {
            None
        }
    }

    // What is left of the interval from `n` on.
    pub(crate) fn at_least(self, n: i64) -> Option<Iv>
        ensures { result ≡ span_at_least n self }
    {
        if n <= self.hi {
            Some(Iv {
                lo: self.lo.max(n),
                hi: self.hi,
            })
        } else {
            None
        }
    }
}

// The product, where it is within the limits.
fn product(x: i64, y: i64) -> Option<i64>
    ensures { result ≡ if_within (x *ℤ y) }
{
    match x.checked_mul(y) {
        Some(p) if -LIMIT <= p && p <= LIMIT => Some(p),
        _ => None,
    }
}

// The least interval that has the four numbers.
fn around(p: i64, q: i64, r: i64, s: i64) -> Iv
    requires p_in { IsTrue (is_within p) }
    requires q_in { IsTrue (is_within q) }
    requires r_in { IsTrue (is_within r) }
    requires s_in { IsTrue (is_within s) }
    ensures { result ≡ span_of_four p q r s }
{
    Iv {
        lo: p.min(q).min(r.min(s)),
        hi: p.max(q).max(r.max(s)),
    }
}
