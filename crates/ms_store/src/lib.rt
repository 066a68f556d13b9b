//! Stores: a set of numbers for each variable, of which earlier states can be had back.
//!
//! Contracts see the current list of sets and the saved lists, one a mark (`Lists` of `ms_cells`, the sets by ends and
//! membership as `ms_num` has them), and nothing of how old values are kept. A cut says what it came to, in three
//! answers, each of which determines what the store is afterwards. [`Copies`] is the plain store: it copies whole lists.
#![tactic(auto)]

mod copies;
mod store;

pub use copies::Copies;
pub use store::{Cut, Mark, Store};
