ghost use Rattle.std.specs.Prelude.{◌≡◌, ◌≤ℤ◌, ◌<ℤ◌, ◌<◌, ◌+◌, ◌*◌, ◌+ℤ◌, ℤ, pos, None, length, IfOk, IfSome, OnOk, OnErr};
ghost use Rattle.ms_domains.specs.Domains.{IsFree, IsFilled};
ghost use Rattle.ms_trail.specs.Trailed.{sets_of, slot_at, IsAt, IsRoomy, FillsWord};

use crate::spread::{row_word, words_needed};
use crate::trail::Trail;
use ms_domains::{Domain, Holes};
use ms_store::Store;
use std::alloc::AllocError;

// Room for holes. No set changes here, only what it is kept in.
impl Trail {
    // A domain of the variable's set that has room for a hole at the number, where its row has.
    #[inline(always)]
    pub(crate) fn roomy(
        &mut self,
        v: u32,
        domain: Domain,
        n: i64,
    ) -> Result<Option<Domain>, AllocError>
        requires there { v < length (sets_of self.old).current }
        requires read { IsAt self.old v domain (slot_at self.old v).1 }
        requires low { domain.lo <ℤ n }
        requires high { n <ℤ domain.hi }
        ensures same { sets_of self.new ≡ sets_of self.old }
        ensures some { IfOk result (λ found. IfSome found (IsRoomy self.new v n)) }
        ensures none { IfOk result (λ found. found ≡ None → IsFree domain.holes × (self.new ≡ self.old)) }
    {
        match domain.holes {
            Holes::Window { .. } => Ok(Some(domain)),
            Holes::Row { at, bits, .. } => {
                if domain.has_room(self.row(v), n) {
                    return Ok(Some(domain));
                }
                self.set_word(v, at, bits)?;
                Ok(Some(domain.moved(self.row(v), n)))
            }
            Holes::Whole => {
                if domain.has_room(self.row(v), n) {
                    return Ok(Some(domain));
                }
                self.opened(v, domain, n)
            }
            Holes::Listed { .. } => self.opened(v, domain, n),
        }
    }

    // The same of a set whose holes stand in no word yet.
    #[inline(never)]
    pub(crate) fn opened(
        &mut self,
        v: u32,
        domain: Domain,
        n: i64,
    ) -> Result<Option<Domain>, AllocError>
        requires there { v < length (sets_of self.old).current }
        requires read { IsAt self.old v domain (slot_at self.old v).1 }
        requires free { IsFree domain.holes }
        requires low { domain.lo ≤ℤ n }
        requires high { n ≤ℤ domain.hi }
        ensures same { sets_of self.new ≡ sets_of self.old }
        ensures some { IfOk result (λ found. IfSome found (IsRoomy self.new v n)) }
        ensures none { IfOk result (λ found. found ≡ None → self.new ≡ self.old) }
    {
        if self.row(v).len() < words_needed(domain.lo, domain.hi) {
            return Ok(None);
        }
        self.fill(v, domain)?;
        Ok(Some(domain.opened(self.row(v), n)))
    }

    // The numbers of the set come into the variable's row.
    fn fill(&mut self, v: u32, domain: Domain) -> Result<(), AllocError>
        requires there { v < length (sets_of self.old).current }
        requires read { IsAt self.old v domain (slot_at self.old v).1 }
        requires free { IsFree domain.holes }
        requires reach { domain.hi <ℤ (domain.lo +ℤ pos (64 * length (slot_at self.old v).1)) }
        ensures same { sets_of self.new ≡ sets_of self.old }
        ensures read { OnOk result (IsAt self.new v domain (slot_at self.new v).1) }
        ensures filled { OnOk result (IsFilled self.new.ranges (slot_at self.new v).1 domain) }
    {
        for i in 0..words_needed(domain.lo, domain.hi) {
            self.fill_word(v, domain, i)?;
        }
        Ok(())
    }

    // One word of them.
    fn fill_word(&mut self, v: u32, domain: Domain, i: usize) -> Result<(), AllocError>
        requires there { v < length (sets_of self.old).current }
        requires read { IsAt self.old v domain (slot_at self.old v).1 }
        requires free { IsFree domain.holes }
        requires needed { (domain.lo +ℤ pos (64 * i)) ≤ℤ domain.hi }
        requires inside { i < length (slot_at self.old v).1 }
        ensures ok { OnOk result (FillsWord self.old self.new v domain i) }
        ensures err { OnErr result (self.new ≡ self.old) }
    {
        let word = row_word(domain, self.lists(), self.row(v), i);
        if self.row(v)[i] == word {
            return Ok(());
        }
        self.set_word(v, i, word)?;
        Ok(())
    }

    // The sets of the variables from this one on that stand in lists come into their rows, where these have room.
    pub(crate) fn open_rows(&mut self, from: usize) -> Result<(), AllocError>
        ensures { sets_of self.new ≡ sets_of self.old }
    {
        for v in from..self.vars() {
            self.open_row(v as u32)?;
        }
        Ok(())
    }

    fn open_row(&mut self, v: u32) -> Result<(), AllocError>
        requires { v < length (sets_of self.old).current }
        ensures { sets_of self.new ≡ sets_of self.old }
    {
        let domain = self.domain(v);
        if let Holes::Listed { .. } = domain.holes {
            if let Some(opened) = self.opened(v, domain, domain.lo)? {
                self.set_domain(v, opened)?;
                return Ok(());
            }
            return Ok(());
        }
        Ok(())
    }
}
