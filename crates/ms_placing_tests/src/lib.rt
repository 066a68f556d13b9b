//! Worked examples of placing: what typed trees come to, with the steps and the words that are left, written out and proved.
#![tactic(auto)]

mod draws;
mod forms;
mod steps;
mod values;

pub use draws::words;
pub use forms::{calls, chains, locals, nestings, undefined_parts, wide_products};
pub use steps::{generated_arrays, sums, texts};
pub use values::{entered_values, given_values};
