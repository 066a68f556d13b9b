//! The order of a depth-first search, in which a node comes behind those that its edges lead to.
//!
//! Contracts see a graph as `ms_graph` does: for each node, by its number, the nodes that its edges
//! lead to. `specs/Postorder` says in which order nodes come (`ComeAll`, [`IsPostorder`]): in the
//! order of their numbers, and before a node those that it leads to and that have not come yet, in
//! the order of its edges. A node that is met while it is under way itself, which is so on a cycle
//! alone, is passed over. [`postorder`] answers the order, by one search that sees each node and
//! each edge once and keeps its stack on the heap.
//!
//! Laws: there is one such order ([`one_postorder`]), each node stands in it once
//! ([`each_node_once`]), and where no node is on a cycle, each stands behind those that it leads to
//! ([`targets_first`]).
//!
//! Not promised: time, and that memory suffices.
#![tactic(auto)]

mod laws;
mod search;

pub use laws::{each_node_once, one_postorder, targets_first};
pub use search::postorder;
