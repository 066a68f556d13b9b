//! The typed trees of items: tests of `ms_items` and of what `ms_types` keeps of it, over texts that lexer and parser read.
//!
//! They stand in a crate of their own, so that the layers are proved once.
#![tactic(auto)]

#[cfg(test)]
mod shown;
#[cfg(test)]
mod tests;
