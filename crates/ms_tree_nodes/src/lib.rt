//! Nodes over trees that are kept with what they may mean, their size and their nesting.
//!
//! A [`Placed`](ms_values::Placed) has its tree and, beside it, what the tree may mean on the declared sets, its size and its
//! nesting. Each function makes a node of its parts, which it takes, and says of the node all four, from what stands beside
//! the parts: no tree is walked. [`numbers`] answers none exactly where what the node may mean leaves -2^50..2^50.
//!
//! What each makes stands in `specs/Nodes`. Want of memory is the only error.
#![tactic(auto)]

mod counts;
pub mod leaves;
pub mod lists;
pub mod numbers;
mod parts;
pub mod truths;
