//! Rules keep operands fit: what they make of operands whose trees may be asked has trees that may be asked.
//!
//! An operand is fit on the declared sets (`specs/Fit`) where each tree in it is well formed there and of the sort of its kind,
//! what stands beside the tree is its own, and each known number is within the limits. The laws say that each rule of `ms_rules`
//! makes fit operands of fit ones, or none where it leaves the limits. The functions do nothing: their contracts are the laws.
#![tactic(auto)]

mod laws;

pub use laws::{fit_operands, fit_rows, nodes_keep, rules_keep, trees_are_fit};
