//! The table of types in code: which type a node has over the types of its parts, and why it has none.
//!
//! [`row`] answers what the definition `row` of `ms_typing` answers, [`why`] gives the cause of a node without a type,
//! and [`settle`] joins both with the node's place. A [`Form`] is what decides the row, by reference: it owns nothing,
//! and contracts see the form of the definitions for which it stands (`form_of`).
#![tactic(auto)]

mod arguments;
mod arrays;
mod calls;
mod choice;
mod conversion;
mod fault;
mod form;
mod joins;
mod operands;
mod operators;
mod rows;

pub use conversion::{as_known, converts, is_search, known_of, numbers, shape_of, shaped, truths};
pub use fault::{TypeFault, settle, why};
pub use form::{Form, Meaning, Told};
pub use operands::operand;
pub use rows::row;
