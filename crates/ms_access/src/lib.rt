//! Elements of arrays by their indices.
//!
//! [`access`] takes an array, one index or two, and answers the element. An index that is outside, or undefined, gives what
//! is undefined of the kind of the elements: an undefined integer or string, or a false Boolean. Where an index is variable,
//! the answer is a tree over the elements that it may take; it is none exactly where what that tree may mean leaves
//! -2^50..2^50.
//!
//! Contracts see operands as plain data, and what is answered is `access` of `specs/Access` of ms_rules, exactly. Want of
//! memory is the only error.
//!
//! By known indices one element is copied, and the array is only read, whoever else owns it. By one variable index of two
//! the row or the column of the known one is copied, and by variable indices alone all elements, once, into the tree. This
//! is how the code goes, and no contract says so.
#![tactic(auto)]

mod arrays;
mod elements;
mod lines;
mod nodes;
mod places;

pub use arrays::access;
