//! What is placed may be asked.
//!
//! Where all names around and outside are fit on the declared sets (`ms_rules_laws`), what an expression is placed to is fit:
//! each tree in it is well formed there, of the sort of its kind, and what stands beside it is its own. A single tree nests no
//! deeper than the limit. So each such tree may be asked of the tree search. The function does nothing: its contract is the law.
#![tactic(auto)]

mod laws;

pub use laws::what_is_placed_may_be_asked;
