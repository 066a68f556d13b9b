//! Which values are given to the names of a model, by its declarations, by its assignment items and by data.
//!
//! [`sources`] answers, for each name that the items of a model declare, in their order, where its value stands, if it has one;
//! or the first fault ([`GivenFault`]): an assignment to what no declaration declares, else a name with two values, else a known
//! name without one. That is `sources_in` (`specs/Sources`), over the list of all values that are given (`specs/Givings`), in
//! both directions. Want of memory is the only other answer.
#![tactic(auto)]

mod decide;
mod giving;
mod map;
mod names;
mod source;

pub use decide::sources;
pub use source::{GivenFault, Source};
