//! What built-in names make of their arguments.
//!
//! [`call`] takes a name and the operands of its arguments, with the incumbent and the next random word, and answers what
//! `call` of `specs/Calls` of `ms_rules` says, exactly: none where a number leaves -2^50..2^50, and for a search an operand
//! without a value. [`draws`] tells whether a name takes the next word. Want of memory is the only error.
//!
//! Arguments lie on a [`Pile`](ms_values::Pile), the last on top, as they are placed.
#![tactic(auto)]

mod calls;

pub use calls::{call, draws};
