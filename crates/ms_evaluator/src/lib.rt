//! Ground trees evaluated again and again, with memory that is kept between calls.
#![tactic(auto)]

mod claims;
mod distinct;
mod evaluator;
mod guess;
pub mod lists;
mod nodes;
mod room;

pub use evaluator::Evaluator;
