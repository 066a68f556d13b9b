//! Tokens from the bytes of a text.
//!
//! [`tokens`] cuts the bytes from the left into white space, comments and tokens, each time at the
//! longest form. What the longest form is, which tokens bytes have and which fault is their first
//! stand as definitions in the crate of the tokens, and the contract cites them.
//!
//! Promised: the answer is the one token list that the bytes have, or the first thing that cannot
//! be taken, with its kind and byte; only want of memory may take its place. [`place_of`] turns
//! the byte of a fault into the line and the column that a user reads, and [`token_place`] the
//! number of a token. Not promised by a contract: that the time is linear in the bytes, and that
//! each text is copied once.
#![tactic(auto)]

mod bytes;
mod fault;
mod form;
mod lexer;
mod number;
mod place;
mod symbol;
mod text;
mod word;

pub use fault::LexFault;
pub use lexer::tokens;
pub use place::{place_of, token_place};
