//! Values that callers hand in and are given, and the operands that they stand for.
//!
//! A value that may be handed in is brought to an operand that is fit on the declared sets (`ms_rules_laws`). What a caller is
//! given of a fit operand that was brought to a type may be handed in again at that type, and is that operand. The functions do
//! nothing: their contracts are the laws.
#![tactic(auto)]

mod laws;

pub use laws::{given_comes_back, handed_in_is_fit};
