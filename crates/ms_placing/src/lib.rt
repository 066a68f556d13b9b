//! The meaning of expressions: what a typed tree is placed to.
//!
//! Placing turns a typed tree into an operand: a value, or a tree over the variables of an instance. It goes left to right,
//! children before parents, and takes one evaluation step for each node of the text, after those of its children, and one
//! for each value of a generator. `Places` (`specs/Placing`) says what it comes to, with the steps and the random words that
//! are left, or the first fault with its place. It is a function of what stands outside the expression
//! (`specs/Outside`), the names around it, and the typed tree.
//!
//! Its definition takes what is done with a value as an argument, so that each form reads from left to right: a part, what is
//! done with its value, and then the node.
#![tactic(auto)]

mod fault;
mod grouping;

pub use fault::PlaceFault;
pub use grouping::Grouping;
