//! The names that expressions use and do not bind: their free names.
//!
//! [`Uses`] walks over expressions, kinds and parameters and gathers them. `specs/Uses` has what is
//! found: of each part, the names that stand in it and are bound neither by it nor around it, in
//! their order, as often as they stand there. A name is looked up in a map of those that are bound,
//! so that a walk takes as long as the text and the names that it binds, whatever stands around.
//! Not promised: time, and that memory suffices.
#![tactic(auto)]

mod bound;
mod uses;

pub use uses::Uses;
