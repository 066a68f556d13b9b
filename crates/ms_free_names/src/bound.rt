//! The names that are bound around a place.

ghost use Rattle.std.specs.Prelude.{◌≡◌, ℕ, List, IsSome, IfOk, OnErr, Some, cond, unwrap_or};
ghost use Rattle.std.specs.HashMap.{get};
ghost use Rattle.std.specs.Str.{bytes_eq};

use ms_syntax::Word;
use std::alloc::{AllocError, Global};
use std::collections::HashMap;
use std::marker::Model;

/// The names that are bound around a place, the innermost last. Contracts see their list.
#[derive(Drop)]
pub(crate) struct Bound {
    names: Vec<Word>,
    /// How many of them are this one.
    counts: HashMap<Word, usize>,
}

impl Model for Bound {
    ghost use Rattle.std.specs.Prelude.{◌≡◌, List, ℕ, unwrap_or};
    ghost use Rattle.std.specs.HashMap.{get};
    ghost use Rattle.std.specs.Str.{bytes_eq};
    ghost use Rattle.ms_free_names.specs.Bound.{times_of};

    ghost Value = { List (List ℕ) };

    ghost view = { λ b. b.names.items };

    ghost invariant = { λ b. (w : List ℕ) → unwrap_or (get bytes_eq b.counts w) 0 ≡ times_of b.names.items w };
}

/// How often a name is counted.
fn count(counts: &HashMap<Word, usize>, name: &Word) -> usize
    ensures { result ≡ unwrap_or (get bytes_eq counts.now name.now) 0 }
{
    match counts.get(name) {
        Some(count) => *count,
        None => 0,
    }
}

/// Counts a name so often.
fn set_count(counts: &mut HashMap<Word, usize>, name: Word, count: usize) -> Result<(), AllocError>
    ensures ok { IfOk result (λ _. (w : List ℕ) → get bytes_eq counts.new w
        ≡ cond (bytes_eq name w) (Some count) (get bytes_eq counts.old w)) }
    ensures err { OnErr result ((w : List ℕ) → get bytes_eq counts.new w
        ≡ get bytes_eq counts.old w) }
{
    match counts.insert(name, count) {
        Ok(_) => Ok(()),
        Err(_) => Err(AllocError),
    }
}

/// Counts a name so often that is counted already.
fn reset_count(counts: &mut HashMap<Word, usize>, name: Word, count: usize)
    requires { IsSome (get bytes_eq counts.old name) }
    ensures { (w : List ℕ) → get bytes_eq counts.new w
        ≡ cond (bytes_eq name w) (Some count) (get bytes_eq counts.old w) }
{
    match counts.insert(name, count) {
        Ok(_) => {}
        Err(_) => unreachable!(),
    }
}

impl Bound {
    ghost use Rattle.std.specs.Prelude.{◌≡◌, ◌++◌, ◌∷◌, [], ◌-◌, IfOk, length, take};
    ghost use Rattle.ms_free_names.specs.Uses.{is_bound};

    /// No names.
    pub(crate) fn new(alloc: Global) -> Bound
        ensures { result ≡ [] }
    {
        Bound {
            names: Vec::new(alloc),
            counts: HashMap::new(alloc),
        }
    }

    pub(crate) fn len(&self) -> usize
        ensures { result ≡ length self.now }
    {
        self.names.len()
    }

    pub(crate) fn contains(&self, name: &Word) -> bool
        ensures { result ≡ is_bound self.now name.now }
    {
        count(&self.counts, name) > 0
    }

    /// Adds a name behind the others.
    pub(crate) fn push(&mut self, alloc: Global, name: &Word) -> Result<(), AllocError>
        ensures { IfOk result (λ _. self.new ≡ self.old ++ name.now ∷ []) }
    {
        let held = name.copy(alloc)?;
        let key = name.copy(alloc)?;
        self.names.reserve(1)?;
        let times = count(&self.counts, name);
        set_count(&mut self.counts, key, times + 1)?;
        self.names.push_reserved(held);
        Ok(())
    }

    /// Takes the last name away.
    fn pop(&mut self)
        ensures { self.new ≡ take (length self.old - 1) self.old }
    {
        if let Some(name) = self.names.pop() {
            let times = count(&self.counts, &name);
            reset_count(&mut self.counts, name, times - 1);
        }
    }

    /// Leaves so many names.
    pub(crate) fn truncate(&mut self, depth: usize)
        ensures { self.new ≡ take depth self.old }
    {
        for _turn in 0..self.len().saturating_sub(depth) {
            self.pop();
        }
    }
}
