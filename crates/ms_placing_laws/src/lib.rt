//! What holds of placing, as laws: the functions here do nothing, and their contracts are the laws.
//!
//! The definition of placing (`ms_placing`) takes what is done with an operand as an argument. [`placing_in_steps`] says that it
//! may be read without: placing goes in steps, and what stands behind an expression is done with what the expression comes to.
//! `specs/Direct` is the same definition in steps, the parts of each form one after the other and then its node, and the law says
//! that both are one.
//!
//! [`values_for_names`] says that a value may be put in for a name (`specs/Renaming`), and [`calls_as_lets`] that a call is its
//! body with the arguments put in for the parameters: a `let`. So placing is rewriting, in the order of the text.
#![tactic(auto)]

mod laws;

pub use laws::{calls_as_lets, placing_in_steps, renamed_rows, values_for_names};
