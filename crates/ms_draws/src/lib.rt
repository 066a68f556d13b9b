//! Random words that repeat from a seed.
//!
//! Contracts see a source of words by its state, a list of numbers. Two definitions of the source say which
//! word a state gives and which state comes after it, so a contract can run the words without a generator.
//! [`PcgWords`] is PCG32 by the crate `rand_pcg`, and [`ListWords`] gives a list. How evenly the words fall
//! is not claimed.
#![tactic(auto)]

mod list_words;
mod pcg_words;
mod words;

pub use list_words::ListWords;
pub use pcg_words::{PcgWords, pcg};
pub use words::Words;
