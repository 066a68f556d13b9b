//! Copies of trees.
//!
//! Contracts see a tree through its view, all that is written of it with the places, and a copy has
//! the same view. No error but want of memory. It stands apart from the trees, since its walk over
//! every form of expression is dear to prove and the reading of texts needs none.
#![tactic(auto)]

mod copies;

pub use copies::CopyTree;
