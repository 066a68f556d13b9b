//! Names in code: the tests of `ms_names`, over texts that lexer and parser read.
//!
//! They stand in a crate of their own, so that `ms_names` is proved once.
#![tactic(auto)]

#[cfg(test)]
mod tests;
