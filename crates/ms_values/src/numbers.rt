ghost use Rattle.std.specs.Prelude.{◌≡◌, [], ◌∷◌, MatchOption, pos, ◌+ℤ◌, ◌-ℤ◌, unsigned_abs};
ghost use Rattle.ms_values.specs.Numbers.{from, numbers_of};

use crate::narrow::Narrow;
use crate::shared::Shared;
use ms_num::{Iv, Ranges};
use std::marker::Model;

// Numbers one after the other, which contracts see as their list.
#[derive(Drop)]
struct Run {
    next: i64,
    count: u64,
}

impl Model for Run {
    ghost use Rattle.std.specs.Prelude.{List, ℤ};
    ghost use Rattle.std.specs.Coded.{coded_list, coded_ℤ};
    ghost use Rattle.ms_values.specs.Numbers.{from, HasRoom};

    ghost Value = { List ℤ };

    ghost coded = { coded_list coded_ℤ };

    ghost view = { λ r. from r.next r.count };

    ghost invariant = { λ r. HasRoom r.next r.count };
}

impl Run {
    fn none() -> Run
        ensures { result ≡ [] }
    {
        Run { next: 0, count: 0 }
    }

    // The numbers of the interval but the least.
    fn behind_least(interval: Iv) -> Run
        ensures { result ≡ from (interval.lo +ℤ pos 1) (unsigned_abs (interval.hi -ℤ interval.lo)) }
    {
        let (low, high) = (interval.lo(), interval.hi());
        Run {
            next: low + 1,
            count: (high - low) as u64,
        }
    }

    fn take(&mut self) -> Option<Narrow>
        ensures { MatchOption result ((self.old ≡ []) × (self.new ≡ [])) (λ n. self.old ≡ n ∷ self.new) }
    {
        if self.count == 0 {
            return None;
        }
        let first = Narrow::new(self.next);
        self.next += 1;
        self.count -= 1;
        first
    }
}

/// The numbers of a set that are still to come, in ascending order. Contracts see their list.
#[derive(Drop)]
pub struct Numbers {
    set: Shared<Ranges>,
    // The ranges from this place on are still to come, whole, after the numbers of the run.
    at: usize,
    run: Run,
}

impl Model for Numbers {
    ghost use Rattle.std.specs.Prelude.{List, ℤ, ◌++◌, drop};
    ghost use Rattle.std.specs.Coded.{coded_list, coded_ℤ};
    ghost use Rattle.ms_values.specs.Numbers.{numbers_of};

    ghost Value = { List ℤ };

    ghost coded = { coded_list coded_ℤ };

    ghost view = { λ n. n.run ++ numbers_of (drop n.at n.set) };
}

impl Numbers {
    /// All numbers of the set.
    pub fn of(set: Shared<Ranges>) -> Numbers
        ensures { result ≡ numbers_of set }
    {
        Numbers {
            set,
            at: 0,
            run: Run::none(),
        }
    }

    /// Takes the first number away, if there is one.
    pub fn take(&mut self) -> Option<Narrow>
        ensures { MatchOption result ((self.old ≡ []) × (self.new ≡ [])) (λ n. self.old ≡ n ∷ self.new) }
    {
        match self.run.take() {
            Some(n) => Some(n),
            None => match self.set.get().ranges().get(self.at) {
                Some(range) => {
                    let range = *range;
                    self.at += 1;
                    self.run = Run::behind_least(range);
                    Some(Narrow::least(range))
                }
                None => None,
            },
        }
    }
}
