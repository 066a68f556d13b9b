//! The texts of values, as a solution shows them.
//!
//! Each call's contract is its exact text, by a definition in `specs/` over whole lists. Only want of memory
//! is an error.
#![tactic(auto)]

mod parts;
mod scalars;
mod sets;

pub use parts::{list_text, rows_text};
pub use scalars::{number_text, truth_text};
pub use sets::set_text;
