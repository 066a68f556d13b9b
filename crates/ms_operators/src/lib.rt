//! Operators and signs on operands, choices, known sets of numbers, and chains.
//!
//! [`join`] is what an operator makes of two operands, [`signed`] what a sign makes of one, [`choose`] what an `if` with a
//! variable condition makes of three, exactly by the rules of `ms_rules` (`specs/Operators`, `specs/Sets`). `None` comes exactly
//! where a number leaves -2^50..2^50.
//!
//! [`ranges_of`] is the set of the numbers of a list, in any order.
//!
//! A [`Junction`] gathers the operands of a chain of `/\` or of `\/` alone (`specs/Connectives`). Contracts see whether all are
//! known, the truth value where they are, and their trees. How deep the node over them is it tells without making it.
//!
//! Want of memory is the only error, and nothing is said of when it comes.
#![tactic(auto)]

mod choice;
mod comparisons;
mod concatenation;
mod connectives;
mod equality;
mod junction;
mod numbers;
mod operators;
mod sets;
mod trees;

pub use choice::choose;
pub use junction::{Connective, Junction};
pub use operators::{join, signed};
pub use sets::ranges_of;
