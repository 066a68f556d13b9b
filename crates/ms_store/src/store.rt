ghost use Rattle.std.specs.Prelude.{◌≡◌, ◌≤◌, ◌<◌, ◌+◌, ◌^◌, [], ◌∷◌, ◌++◌, length, take, map, IfOk, OnOk, OnErr, Some, slice_get, slice_set, All};
ghost use Rattle.ms_num.specs.Span.{IsInterval};
ghost use Rattle.ms_num.specs.Sets.{Set, IsSet, set_of, set_size, span_of};
ghost use Rattle.ms_cells.specs.Cells.{Lists, grown, shrunk};
ghost use Rattle.ms_store.specs.Stored.{set_at, at_most, at_least, other_than, IsFilled};
ghost use Rattle.ms_store.specs.CutGives.{CutGives};

use ms_num::Ranges;
use std::alloc::AllocError;

/// What a cut came to.
#[derive(Clone, Copy, Debug, PartialEq, Eq)]
pub enum Cut {
    /// No number goes.
    Kept,
    /// Some numbers went, and some stayed.
    Changed,
    /// No number would stay; the set stands as before.
    Emptied,
}

/// A mark, by how many marks stood before it.
#[derive(Clone, Copy, Debug, PartialEq, Eq)]
pub struct Mark {
    pub number: usize,
}

/// A set of numbers for each variable, of which earlier states can be had back.
///
/// Contracts see the current list of sets and the saved lists, one a mark (`lists`). Variables are numbered from 0. No
/// set is empty. A call that answers want of memory leaves the store as it was; the readers, [`Store::undo`],
/// [`Store::marks`] and [`Store::shrink`] take no memory.
pub trait Store {
    ghost lists: { Self → Lists Set };

    /// How many variables there are: in each saved list as many, and fewer than 2^32.
    fn vars(&self) -> usize
        ensures count { result ≡ length (lists self.now).current }
        ensures few { result < 2 ^ 32 }
        ensures saved { All (λ sets. length sets ≡ length (lists self.now).current) (lists self.now).saved };

    /// The least number of the variable's set.
    fn lo(&self, v: u32) -> i64
        requires { v < length (lists self.now).current }
        ensures value { result ≡ (set_at (lists self.now) v).lo }
        ensures proper { IsSet (set_at (lists self.now) v) }
        ensures within { IsInterval (span_of (set_at (lists self.now) v)) };

    /// The greatest number of the variable's set.
    fn hi(&self, v: u32) -> i64
        requires { v < length (lists self.now).current }
        ensures value { result ≡ (set_at (lists self.now) v).hi }
        ensures proper { IsSet (set_at (lists self.now) v) }
        ensures within { IsInterval (span_of (set_at (lists self.now) v)) };

    /// Whether the number is in the variable's set.
    fn has(&self, v: u32, n: i64) -> bool
        requires { v < length (lists self.now).current }
        ensures { result ≡ (set_at (lists self.now) v).has n };

    /// How many numbers the variable's set has.
    fn size(&self, v: u32) -> u64
        requires { v < length (lists self.now).current }
        ensures { result ≡ set_size (set_at (lists self.now) v) };

    /// The numbers above `n` go.
    fn cut_at_most(&mut self, v: u32, n: i64) -> Result<Cut, AllocError>
        requires { v < length (lists self.old).current }
        ensures ok { IfOk result (λ cut. CutGives cut (at_most n) v (lists self.old) (lists self.new)) }
        ensures err { OnErr result (lists self.new ≡ lists self.old) };

    /// The numbers below `n` go.
    fn cut_at_least(&mut self, v: u32, n: i64) -> Result<Cut, AllocError>
        requires { v < length (lists self.old).current }
        ensures ok { IfOk result (λ cut. CutGives cut (at_least n) v (lists self.old) (lists self.new)) }
        ensures err { OnErr result (lists self.new ≡ lists self.old) };

    /// The number `n` goes.
    fn cut_value(&mut self, v: u32, n: i64) -> Result<Cut, AllocError>
        requires { v < length (lists self.old).current }
        ensures ok { IfOk result (λ cut. CutGives cut (other_than n) v (lists self.old) (lists self.new)) }
        ensures err { OnErr result (lists self.new ≡ lists self.old) };

    /// The variable gets this set in place of its own.
    fn write(&mut self, v: u32, set: &Ranges) -> Result<(), AllocError>
        requires there { v < length (lists self.old).current }
        requires filled { IsFilled set.now }
        ensures ok { OnOk result (lists self.new ≡ record (lists self.old) { current = slice_set (lists self.old).current v (set_of set.now) }) }
        ensures err { OnErr result (lists self.new ≡ lists self.old) };

    /// Saves the current list.
    fn mark(&mut self) -> Result<Mark, AllocError>
        ensures number { IfOk result (λ mark. mark.number ≡ length (lists self.old).saved) }
        ensures ok { OnOk result (lists self.new ≡ record (lists self.old) { saved = (lists self.old).saved ++ (lists self.old).current ∷ [] }) }
        ensures err { OnErr result (lists self.new ≡ lists self.old) };

    /// The current sets are the saved ones of the mark; it and later marks end.
    fn undo(&mut self, mark: Mark)
        requires { mark.number < length (lists self.old).saved }
        ensures current { slice_get (lists self.old).saved mark.number ≡ Some (lists self.new).current }
        ensures saved { (lists self.new).saved ≡ take mark.number (lists self.old).saved };

    /// How many marks stand.
    fn marks(&self) -> usize
        ensures { result ≡ length (lists self.now).saved };

    /// New variables with these sets, now and in every saved list.
    fn grow(&mut self, sets: &[Ranges]) -> Result<(), AllocError>
        requires few { length (lists self.old).current + length sets.now < 2 ^ 32 }
        requires filled { All IsFilled sets.now }
        ensures ok { OnOk result (lists self.new ≡ grown (lists self.old) (map set_of sets.now)) }
        ensures err { OnErr result (lists self.new ≡ lists self.old) };

    /// The variables from `vars` on go, now and in every saved list.
    fn shrink(&mut self, vars: usize)
        requires { vars ≤ length (lists self.old).current }
        ensures { lists self.new ≡ shrunk (lists self.old) vars };
}
