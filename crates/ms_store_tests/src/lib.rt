//! Tests of stores, in a crate of their own since a crate with tests is proved twice.
//!
//! Each test is written once for whatever is a store: rows of calls with what they leave, and ten thousand calls made
//! from a seed, after each of which every reader is held beside lists of numbers that are copied. Then both stores get the
//! same ten thousand calls, on sets within one word, of some words and wider, and every reader of one is held beside that
//! of the other.
#![tactic(auto)]

#[cfg(test)]
mod both;
#[cfg(test)]
mod calls;
#[cfg(test)]
mod drawn;
#[cfg(test)]
mod draws;
#[cfg(test)]
mod lists;
#[cfg(test)]
mod rows;
