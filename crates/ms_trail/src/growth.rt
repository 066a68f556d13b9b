ghost use Rattle.std.specs.Prelude.{◌≡◌, ◌+◌, ◌<◌, ◌^◌, List, ℕ, length, take, map, IfOk, OnOk, OnErr, All};
ghost use Rattle.ms_num.specs.Sets.{set_of};
ghost use Rattle.ms_cells.specs.Cells.{grown};
ghost use Rattle.ms_domains.specs.Domains.{StandsFor};
ghost use Rattle.ms_store.specs.Stored.{IsFilled};
ghost use Rattle.ms_trail.specs.Trailed.{sets_of, Extends, AreMade};

use crate::trail::Trail;
use ms_domains::{Domain, words_for};
use ms_num::Ranges;
use std::alloc::AllocError;

// New variables.
impl Trail {
    pub(crate) fn add_sets(&mut self, sets: &[Ranges]) -> Result<(), AllocError>
        requires few { length (sets_of self.old).current + length sets.now < 2 ^ 32 }
        requires filled { All IsFilled sets.now }
        ensures ok { OnOk result (sets_of self.new ≡ grown (sets_of self.old) (map set_of sets.now)) }
        ensures err { OnErr result (sets_of self.new ≡ sets_of self.old) }
    {
        let (domains, lengths) = self.domains_of(sets)?;
        self.add(&domains, &lengths)?;
        Ok(())
    }

    // The domains of the sets, and how many words the row of each has.
    fn domains_of(&mut self, sets: &[Ranges]) -> Result<(Vec<Domain>, Vec<u32>), AllocError>
        requires { All IsFilled sets.now }
        ensures same { sets_of self.new ≡ sets_of self.old }
        ensures made { IfOk result (λ made. AreMade self.new sets.now made.0.items made.1.items) }
    {
        let mut domains = Vec::with_capacity(self.alloc(), sets.len())?;
        let mut lengths = Vec::with_capacity(self.alloc(), sets.len())?;
        for set in sets {
            let domain = self.fixed_domain(set)?;
            domains.push(domain)?;
            lengths.push(words_for(set))?;
        }
        Ok((domains, lengths))
    }

    // The domain of a set, in lists of ranges that stay whatever ends.
    fn fixed_domain(&mut self, set: &Ranges) -> Result<Domain, AllocError>
        requires { IsFilled set.now }
        ensures same { sets_of self.new ≡ sets_of self.old }
        ensures more { Extends self.old self.new }
        ensures made { IfOk result (λ domain. (row : List ℕ) → StandsFor (take self.new.fixed self.new.ranges) row (set_of set.now) domain) }
    {
        if let Some(domain) = Domain::small(set) {
            return Ok(domain);
        }
        let copied = set.copy(self.alloc())?;
        let domain = self.add_list(copied)?;
        self.pin();
        Ok(domain)
    }
}
