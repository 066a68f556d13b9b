//! What functions over arrays make of one: of its elements as Booleans ([`all`], [`some`], [`distinct`], [`table`]) or as
//! integers ([`sum`], [`extreme_of_array`], [`count`]), and of the array as such ([`length_of_array`], the index sets,
//! [`array_line`], [`array_grid`]).
//!
//! The definitions stand in `ms_rules` (`specs/Arrays`, `specs/Tables`), and each public call has one clause, the equation
//! with its definition. What has known elements is computed, and what has trees is a node over all of them. An array that is
//! undefined as a whole makes a Boolean false and an integer undefined. An answer of `None` comes exactly where a number
//! leaves -2^50..2^50. Want of memory is the only error.
//!
//! Contracts see an array as its value, so they do not say what is copied. An array is read where it stands; its elements are
//! moved where it has no other owner.
#![tactic(auto)]

mod arguments;
mod integers;
mod repeats;
mod shapes;
mod tables;
mod truths;

pub use integers::{count, extreme_of_array, sum};
pub use shapes::{
    array_grid, array_line, column_index_set, index_range, index_set, length_of_array,
    row_index_set,
};
pub use tables::table;
pub use truths::{all, distinct, some};
