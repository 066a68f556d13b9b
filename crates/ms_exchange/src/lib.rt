//! Values that callers outside are given, and those that they hand in.
//!
//! An operand ([`ms_values::Operand`]) is what an expression comes to while it is evaluated; a value
//! ([`ms_values::Value`]) is what callers outside see of it. [`given`] answers the value of an operand, and none where it has
//! none (`given` of `ms_placing`). [`entered`] answers the operand of a value that is handed in, brought to a type
//! (`entered` of `ms_placing`); its trees are kept with what they may mean on the declared sets, so these have to allow it
//! (`specs/Fit`).
//!
//! Want of memory is the only error. An array of 2^32 elements or more is answered as such: evaluation makes none.
#![tactic(auto)]

mod incoming;
mod leaves;
mod outgoing;
mod trees;

pub use incoming::entered;
pub use outgoing::given;
