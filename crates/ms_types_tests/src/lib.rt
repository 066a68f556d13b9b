//! The tests of `ms_types`: the tables of texts of `ms_type_tables`, read by lexer and parser and held against what the
//! checker answers.
//!
//! The tests stand in a crate of their own, above lexer and parser, so that `ms_types` is proved once.
#![tactic(auto)]

#[cfg(test)]
mod answers;
#[cfg(test)]
mod tables;
#[cfg(test)]
mod tests;
