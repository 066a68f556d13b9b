//! Values that are given: the tests of `ms_given`, over texts that lexer and parser read.
//!
//! They stand in a crate of their own, so that `ms_given` is proved once.
#![tactic(auto)]

#[cfg(test)]
mod tests;
