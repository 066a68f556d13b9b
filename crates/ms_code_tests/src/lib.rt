//! Worked examples of the definition of typed trees: what it gives for trees that are written out, proved and not run.
#![tactic(auto)]

mod expressions;
mod items;
mod searches;

pub use expressions::{choices, conversions, gathered_arrays, names};
pub use items::typed_trees_of_items;
pub use searches::{searches_in_chains, searches_with_arguments};
