//! Sets of the numbers from 0 to 63, each in one word.
//!
//! Contracts see which numbers are in a word (`has_bit` of `specs/Word`). No call takes memory or a step that depends on
//! how many numbers there are.
#![tactic(auto)]

mod word;

pub use word::{count, first, has, last, with, without};
