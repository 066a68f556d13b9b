//! What stands beside a tree is its own.
//!
//! A [`Placed`](ms_values::Placed) has its tree and, beside it, what the tree may mean on the declared sets, its size and its
//! nesting; nodes of such trees are made of what stands beside the parts (`ms_tree_nodes`). The laws say that this is what
//! the definitions of `ms_trees` say of the whole tree: `IsKept` holds of each leaf, and of each node where it holds of its
//! parts. They do nothing: their contracts are the laws.
//!
//! [`kept`] makes a [`Placed`](ms_values::Placed) of a tree that is well formed on the declared sets, by walking it once for
//! each of the three. Want of memory is its only error.
#![tactic(auto)]

mod laws;
mod trees;

pub use laws::{leaf_laws, list_laws, number_laws, truth_laws};
pub use trees::kept;
