//! Directed graphs, and which of their nodes are on a cycle.
//!
//! Contracts see a [`Graph`] as a list of lists: for each node, by its number, the nodes that its
//! edges lead to. `specs/Graph` says what a path is (`Leads`: one edge or more), and that a node is
//! on a cycle where it leads to itself. [`Graph::on_cycles`] tells exactly that of every node, by
//! one depth-first search that sees each node and each edge once and keeps its stacks on the heap.
//!
//! `specs/Search` has what the search keeps from step to step; no contract of a public call names
//! it. Not promised: time, and that memory suffices.
#![tactic(auto)]

mod graph;

pub use graph::Graph;
