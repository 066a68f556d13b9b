ghost use Rattle.std.specs.Prelude.{◌≡◌, IsTrue};
ghost use Rattle.ms_num.specs.Span.{is_within, if_within};

use ms_num::{Iv, LIMIT};
use std::marker::Model;

/// A number within -2^50..2^50.
#[derive(Clone, Copy)]
pub struct Narrow {
    number: i64,
}

impl Model for Narrow {
    ghost use Rattle.std.specs.Prelude.{ℤ, IsTrue};
    ghost use Rattle.ms_num.specs.Span.{is_within};

    ghost Value = { ℤ };

    ghost view = { λ n. n.number };

    ghost invariant = { λ n. IsTrue (is_within n.number) };

    ghost inverse = { λ z. record { number = z } };
}

impl Narrow {
    /// The number, where it is within the limits.
    pub fn new(number: i64) -> Option<Narrow>
        ensures { result ≡ if_within number }
    {
        if -LIMIT <= number && number <= LIMIT {
            Some(Narrow { number })
        } else {
            None
        }
    }

    /// The least number of an interval.
    pub fn least(interval: Iv) -> Narrow
        ensures { result ≡ interval.lo }
    {
        Narrow {
            number: interval.lo(),
        }
    }

    pub fn get(self) -> i64
        ensures value { result ≡ self }
        ensures within { IsTrue (is_within self) }
    {
        self.number
    }
}
