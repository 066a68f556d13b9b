//! Sets of numbers in places of fixed size, as a store on a trail keeps them.
//!
//! A [`Domain`] has both ends, how many numbers the set has, and a word on what is missing between: nothing; what a
//! window of 64 numbers in one word leaves out; what a row of words leaves out, one of which the domain holds itself; or
//! what a set of ranges does, which stands in a list under a number. Row and lists are lent to the calls that need them.
//! Contracts see a domain by the set it stands for (`domain_set` of `specs/Domains`): ends and membership, the same kind
//! of set as `ms_num` has. No call takes memory.
#![tactic(auto)]

mod domain;
mod made;
mod row;
mod word;
mod words;

pub use domain::{Domain, Holes};
pub use made::words_for;
