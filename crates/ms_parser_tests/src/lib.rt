//! Real texts of the whole grammar, right and wrong, as the tests of `ms_parser`, and where the
//! nodes of trees stand.
//!
//! The tests stand in a crate of their own, above the lexer, so that `ms_parser` is proved once.
#![tactic(auto)]

#[cfg(test)]
mod tests;
