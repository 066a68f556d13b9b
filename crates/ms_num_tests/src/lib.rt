//! Tests of intervals and sets, in a crate of their own since a crate with tests is proved twice.
//!
//! Quotients and remainders are those of the MiniZinc Handbook at each sign; the ends of products, quotients and
//! remainders are those that trying all pairs of numbers gives.
#![tactic(auto)]

#[cfg(test)]
mod intervals;
#[cfg(test)]
mod ranges;
#[cfg(test)]
mod sets;
