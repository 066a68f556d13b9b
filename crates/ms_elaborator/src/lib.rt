//! The walk of the type checker over an expression.
//!
//! [`elaborate`] answers the least type of an expression among the names around it with its typed tree, or its first
//! fault with its place, as the definitions `typing` of `ms_typing` and `code_of` of `ms_code` have them; [`least_type`]
//! answers the type alone, and [`kind_types`] those of the sets that a kind names. The walk goes over the expression once,
//! in the order of the text; it recurses into brackets alone, and chains of operators, subscripts and `elseif` are loops.
#![tactic(auto)]

mod asked;
mod chain;
mod ends;
mod named;
mod typed;
mod walk;

pub use ms_nodes::Elaborated;
pub use typed::{elaborate, kind_types, least_type};
