ghost use Rattle.std.specs.Prelude.{◌≡◌, ◌≤ℤ◌, ◌<ℤ◌, ◌<◌, ◌&&◌, ℤ, true, not, length, slice_set, IfOk, OnOk, OnErr};
ghost use Rattle.ms_num.specs.Numbers.{int_eq};
ghost use Rattle.ms_num.specs.Ranges.{IsRanges, is_member};
ghost use Rattle.ms_num.specs.Sets.{set_of};
ghost use Rattle.ms_store.specs.Stored.{set_at, at_most, at_least, other_than, Cuts, IsFilled};
ghost use Rattle.ms_store.specs.CutGives.{CutGives};
ghost use Rattle.ms_domains.specs.Domains.{IsFree};
ghost use Rattle.ms_trail.specs.Trailed.{sets_of, slot_at, IsAt};

use crate::spread::{after, before, place_of};
use crate::trail::Trail;
use ms_domains::Domain;
use ms_num::{Iv, Ranges, cut_law};
use ms_store::Cut;
use std::alloc::AllocError;

// Cuts of a variable whose domain has been read, where some numbers go and some stay.
impl Trail {
    // The numbers above `n` go, of any set.
    #[inline(never)]
    pub(crate) fn at_most(&mut self, v: u32, n: i64) -> Result<Cut, AllocError>
        requires { v < length (sets_of self.old).current }
        ensures ok { IfOk result (λ cut. CutGives cut (at_most n) v (sets_of self.old) (sets_of self.new)) }
        ensures err { OnErr result (sets_of self.new ≡ sets_of self.old) }
    {
        let domain = self.domain(v);
        if domain.hi <= n {
            return Ok(Cut::Kept);
        }
        if n < domain.lo {
            return Ok(Cut::Emptied);
        }
        self.keep_at_most(v, domain, n)?;
        Ok(Cut::Changed)
    }

    // The numbers below `n` go, of any set.
    #[inline(never)]
    pub(crate) fn at_least(&mut self, v: u32, n: i64) -> Result<Cut, AllocError>
        requires { v < length (sets_of self.old).current }
        ensures ok { IfOk result (λ cut. CutGives cut (at_least n) v (sets_of self.old) (sets_of self.new)) }
        ensures err { OnErr result (sets_of self.new ≡ sets_of self.old) }
    {
        let domain = self.domain(v);
        if n <= domain.lo {
            return Ok(Cut::Kept);
        }
        if domain.hi < n {
            return Ok(Cut::Emptied);
        }
        self.keep_at_least(v, domain, n)?;
        Ok(Cut::Changed)
    }

    // The number goes, of any set.
    #[inline(never)]
    pub(crate) fn other_than(&mut self, v: u32, n: i64) -> Result<Cut, AllocError>
        requires { v < length (sets_of self.old).current }
        ensures ok { IfOk result (λ cut. CutGives cut (other_than n) v (sets_of self.old) (sets_of self.new)) }
        ensures err { OnErr result (sets_of self.new ≡ sets_of self.old) }
    {
        let domain = self.domain(v);
        if !self.holds(v, domain, n) {
            return Ok(Cut::Kept);
        }
        if domain.lo == domain.hi {
            return Ok(Cut::Emptied);
        }
        self.keep_others(v, domain, n)?;
        Ok(Cut::Changed)
    }

    #[inline(always)]
    pub(crate) fn holds(&self, v: u32, domain: Domain, n: i64) -> bool
        requires there { v < length (sets_of self.now).current }
        requires read { IsAt self.now v domain (slot_at self.now v).1 }
        ensures { result ≡ (set_at (sets_of self.now) v).has n }
    {
        domain.has(self.lists(), self.row(v), n)
    }

    // The variable gets this set, as a list of ranges.
    #[inline(never)]
    pub(crate) fn put_list(&mut self, v: u32, set: Ranges) -> Result<(), AllocError>
        requires there { v < length (sets_of self.old).current }
        requires filled { IsFilled set }
        ensures ok { OnOk result (sets_of self.new ≡ record (sets_of self.old) { current = slice_set (sets_of self.old).current v (set_of set) }) }
        ensures err { OnErr result (sets_of self.new ≡ sets_of self.old) }
    {
        let domain = self.add_list(set)?;
        self.set_domain(v, domain)?;
        Ok(())
    }

    // The variable gets this set.
    #[inline(never)]
    pub(crate) fn put(&mut self, v: u32, set: Ranges) -> Result<(), AllocError>
        requires there { v < length (sets_of self.old).current }
        requires filled { IsFilled set }
        ensures ok { OnOk result (sets_of self.new ≡ record (sets_of self.old) { current = slice_set (sets_of self.old).current v (set_of set) }) }
        ensures err { OnErr result (sets_of self.new ≡ sets_of self.old) }
    {
        if let Some(domain) = Domain::small(&set) {
            self.set_domain(v, domain)?;
            return Ok(());
        }
        self.put_list(v, set)?;
        Ok(())
    }

    #[inline(always)]
    pub(crate) fn keep_at_most(&mut self, v: u32, domain: Domain, n: i64) -> Result<(), AllocError>
        requires there { v < length (sets_of self.old).current }
        requires read { IsAt self.old v domain (slot_at self.old v).1 }
        requires low { domain.lo ≤ℤ n }
        requires high { n <ℤ domain.hi }
        ensures ok { OnOk result (Cuts (at_most n) v (sets_of self.old) (sets_of self.new)) }
        ensures err { OnErr result (sets_of self.new ≡ sets_of self.old) }
    {
        cut_law();
        match place_of(domain.holes) {
            Some(place) => {
                let kept = self.lists()[place].at_most(self.alloc(), n)?;
                self.put(v, kept)?;
                Ok(())
            }
            None => {
                let kept = domain.at_most(self.row(v), n);
                self.set_domain(v, kept)?;
                Ok(())
            }
        }
    }

    #[inline(always)]
    pub(crate) fn keep_at_least(&mut self, v: u32, domain: Domain, n: i64) -> Result<(), AllocError>
        requires there { v < length (sets_of self.old).current }
        requires read { IsAt self.old v domain (slot_at self.old v).1 }
        requires low { domain.lo <ℤ n }
        requires high { n ≤ℤ domain.hi }
        ensures ok { OnOk result (Cuts (at_least n) v (sets_of self.old) (sets_of self.new)) }
        ensures err { OnErr result (sets_of self.new ≡ sets_of self.old) }
    {
        cut_law();
        match place_of(domain.holes) {
            Some(place) => {
                let kept = self.lists()[place].at_least(self.alloc(), n)?;
                self.put(v, kept)?;
                Ok(())
            }
            None => {
                let kept = domain.at_least(self.row(v), n);
                self.set_domain(v, kept)?;
                Ok(())
            }
        }
    }

    // The number goes, one of several.
    pub(crate) fn keep_others(&mut self, v: u32, domain: Domain, n: i64) -> Result<(), AllocError>
        requires there { v < length (sets_of self.old).current }
        requires read { IsAt self.old v domain (slot_at self.old v).1 }
        requires held { (set_at (sets_of self.old) v).has n ≡ true }
        requires several { domain.lo ≡ domain.hi → ⊥ }
        ensures ok { OnOk result (Cuts (other_than n) v (sets_of self.old) (sets_of self.new)) }
        ensures err { OnErr result (sets_of self.new ≡ sets_of self.old) }
    {
        if n == domain.lo {
            self.keep_at_least(v, domain, after(n))?;
            return Ok(());
        }
        if n == domain.hi {
            self.keep_at_most(v, domain, before(n))?;
            return Ok(());
        }
        self.cut_inside(v, domain, n)?;
        Ok(())
    }

    // The same of a number between the ends.
    #[inline(always)]
    pub(crate) fn cut_inside(&mut self, v: u32, domain: Domain, n: i64) -> Result<(), AllocError>
        requires there { v < length (sets_of self.old).current }
        requires read { IsAt self.old v domain (slot_at self.old v).1 }
        requires held { (set_at (sets_of self.old) v).has n ≡ true }
        requires low { domain.lo <ℤ n }
        requires high { n <ℤ domain.hi }
        ensures ok { OnOk result (Cuts (other_than n) v (sets_of self.old) (sets_of self.new)) }
        ensures err { OnErr result (sets_of self.new ≡ sets_of self.old) }
    {
        cut_law();
        match self.roomy(v, domain, n)? {
            Some(roomy) => {
                let kept = roomy.without(self.row(v), n);
                self.set_domain(v, kept)?;
                Ok(())
            }
            None => {
                let kept = self.ranges_without(v, domain, n)?;
                self.put(v, kept)?;
                Ok(())
            }
        }
    }

    // The variable's set, whose holes stand in no word, without a number.
    #[inline(never)]
    fn ranges_without(&self, v: u32, domain: Domain, n: i64) -> Result<Ranges, AllocError>
        requires there { v < length (sets_of self.now).current }
        requires read { IsAt self.now v domain (slot_at self.now v).1 }
        requires free { IsFree domain.holes }
        ensures members { IfOk result (λ kept. (z : ℤ) → is_member kept z ≡ ((set_at (sets_of self.now) v).has z && other_than n z)) }
        ensures proper { IfOk result IsRanges }
    {
        match place_of(domain.holes) {
            Some(place) => self.lists()[place].without(self.alloc(), n),
            None => {
                let whole = Ranges::from_iv(self.alloc(), Iv::new(domain.lo, domain.hi))?;
                whole.without(self.alloc(), n)
            }
        }
    }
}
