//! Boxes, branchings, and what one node of a search makes of a box.
//!
//! An assignment is a number for each variable, and a box is a set for each (`specs/Boxes`). `specs/Branchings` has
//! the variable that is split, the values that are tried first, and the order of answers that comes of it.
//! `specs/Nodes` says what a node does: it drops a box, answers it, or narrows it and splits it. It speaks of any
//! language of constraints, of which it knows whether a constraint holds on an assignment and whether it may hold on a
//! box; `specs/Trees` is that of ground trees.
//!
//! There is no code but for the laws: searches above have their own ways to keep boxes.
#![tactic(auto)]

mod laws;

pub use laws::{split_laws, tree_laws};
