//! The built-in names of the language: their spelling, how many arguments each takes, and where it
//! may stand.
//!
//! `specs/BuiltIns.antt` has the table, which [`built_in`] reads. What a name takes and gives is a
//! matter of types, and stands with those.
#![tactic(auto)]

mod names;

pub use names::{BuiltIn, built_in};
