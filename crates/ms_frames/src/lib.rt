//! Frames: what waits for an operand while an expression is placed.
//!
//! A [`Frame`] is the rest of a clause of the definition of placing (`ms_placing`), as data, and a [`Task`] says what is done
//! next. `specs/Frames` says what they stand for: `back` and `resume`, what frames do with an operand, and `goes`, what is still
//! to be done for a task and a stack of frames. Contracts are of one form (`Goes`): what is to be done after a call is what was
//! to be done before, or the fault that is answered is what that comes to. Want of memory is left open.
//!
//! [`back`] gives an operand to a frame. The other calls are the moves of single forms, on which the walk (`ms_walk`) stands.
//! None of them calls itself.
#![tactic(auto)]

mod accesses;
mod chains;
mod choices;
mod elements;
mod frame;
mod held;
mod locals;
mod makings;
mod nodes;
mod resuming;

pub use choices::choose_arm;
pub use elements::{begin, begin_rows, fill, gather};
pub use frame::{
    AccessFrame, Before, ChainFrame, ChoiceFrame, End, Frame, Here, Making, MakingFrame, Plan,
    Task, Turn,
};
pub use held::Held;
pub use locals::bind;
pub use makings::{generate, made, turn};
pub use nodes::{settle, tick, visit};
pub use resuming::back;
