//! Texts and their tokens, and the small types below them, as the tests of `ms_base`, `ms_syntax`,
//! `ms_forms` and `ms_lexer`.
//!
//! The tests stand in a crate of their own, so that those are proved once. [`rows`] has worked
//! examples of the definitions themselves: what they give for tokens and trees that are written
//! out, proved and not run.
#![tactic(auto)]

pub mod rows;
#[cfg(test)]
mod tests;
