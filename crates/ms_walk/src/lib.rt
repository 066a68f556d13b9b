//! Placing, on a stack of its own.
//!
//! [`place`] gives what a typed tree comes to under names: an operand with the place of its node, or the first fault with
//! its place. That is `Places` of `ms_placing`, exactly, with the evaluation steps and the random words that are left. The
//! names are a pile, the latest on top; what stands outside is a [`Surroundings`]; want of memory is the only other answer.
//! [`placed`] is the same from all the steps of one placing.
//!
//! The walk has no recursion: what waits for an operand is a frame, which is the rest of a clause of the definition as data
//! (`ms_frames`), and the frames lie on a pile of the walk's own. So calls may nest as deep as the limits allow.
//!
//! Names give one more owner of what they stand for, and no copy of an array. It is not claimed how much memory is taken.
#![tactic(auto)]

mod enter;
mod names;
mod opened;
mod surroundings;
mod walk;

pub use surroundings::Surroundings;
pub use walk::{place, placed};
