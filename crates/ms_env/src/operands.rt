//! The operands of an env's names.

ghost use Rattle.std.specs.Prelude.{◌≡◌, map, reverse, IfOk, IsTrue};
ghost use Rattle.std.specs.List.{list_all};
ghost use Rattle.ms_instance.specs.Instances.{intervals_of};
ghost use Rattle.ms_env.specs.Entries as e;

use crate::env::{Entry, Env};
use ms_exchange::entered;
use ms_num::Ranges;
use ms_values::{Operand, Pile};
use std::alloc::{AllocError, Global};

fn operand_of(alloc: Global, sets: &[Ranges], entry: &Entry) -> Result<Operand, AllocError>
    requires { IsTrue (e.is_entry (intervals_of sets.now) entry.now) }
    ensures { IfOk result (λ x. x ≡ e.operand_of (intervals_of sets.now) entry.now) }
{
    entered(alloc, sets, entry.kind, &entry.value)
}

// Of entries with the latest at the end.
fn operands_of(
    alloc: Global,
    sets: &[Ranges],
    entries: &[Entry],
) -> Result<Pile<Operand>, AllocError>
    requires { IsTrue (list_all (e.is_entry (intervals_of sets.now)) entries.now) }
    ensures { IfOk result (λ xs. xs ≡ map (e.operand_of (intervals_of sets.now)) (reverse entries.now)) }
{
    let mut operands = Pile::new(alloc);
    for entry in entries {
        operands.push(operand_of(alloc, sets, entry)?)?;
    }
    Ok(operands)
}

impl Env {
    /// The operands of the names over these declared sets, the latest first.
    pub fn operands(&self, alloc: Global, sets: &[Ranges]) -> Result<Pile<Operand>, AllocError>
        requires { IsTrue (e.are_entries (intervals_of sets.now) (e.entries_of self.now)) }
        ensures { IfOk result (λ xs. xs ≡ e.operands_in (intervals_of sets.now) (e.entries_of self.now)) }
    {
        operands_of(alloc, sets, self.entries.as_slice())
    }
}
