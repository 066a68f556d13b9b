//! Names with their values and types, as expressions of a search stand among them.
//!
//! An [`Env`] is a list of entries, the latest first (`entries_of`, `specs/Entries`): the parameters and locals of a search.
//! [`Env::operands`] gives their operands over the declared sets of an instance, for values that may be handed in
//! (`are_entries`). [`type_of`] is the type of an expression among them, and [`elaborated`] its typed tree (`specs/Envs`).
//!
//! Want of memory is the only error.
#![tactic(auto)]

mod env;
mod names;
mod operands;
mod types;

pub use env::{Entry, Env};
pub use types::{elaborated, type_of};
