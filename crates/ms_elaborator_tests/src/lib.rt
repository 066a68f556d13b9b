//! The walk of the type checker: the tests of `ms_elaborator`, over texts that lexer and parser read.
//!
//! They stand in a crate of their own, so that `ms_elaborator` is proved once.
#![tactic(auto)]

#[cfg(test)]
mod elaborated;
#[cfg(test)]
mod tests;
#[cfg(test)]
mod trees;
