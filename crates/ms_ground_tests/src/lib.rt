//! Trees written in postfix notation, and the tests of `ms_ground` and `ms_evaluator` over them.
//!
//! A [`Postfix`] is a leaf, or an operation on the trees that the symbols before it have left; [`tree`] reads a list
//! of symbols so. Tables of such lists keep the tests short. The tests stand in a crate of their own, so that what they
//! test is proved once.
#![tactic(auto)]

#[cfg(test)]
mod evaluated;
#[cfg(test)]
mod family;
#[cfg(test)]
mod postfix;
#[cfg(test)]
mod tests;

#[cfg(test)]
pub use postfix::{Both, List, One, Postfix, tree};
