//! What expressions come to: known values, and trees over the variables of an instance.
//!
//! An [`Operand`] is what a part of an expression comes to while it is evaluated: a number, a truth value, a set, a
//! string, an array, or a tree over the variables with what it may mean, its size and its nesting. What is known and has
//! no value is one too. Sets, strings and arrays are shared by count ([`Shared`]), so that a name gives one more owner and
//! copies no element. A [`Value`] is what callers outside are given of an expression that has a value.
//!
//! Contracts see all of these as plain data: a [`Narrow`] as its number, which is within -2^50..2^50; [`Numbers`] as the
//! numbers of a set that are still to come; [`Elements`] and [`Texts`] as a list; a [`Pile`] as a list, the latest item first; a [`Shared`] as what it
//! shares. A copy equals its source, and want of memory is the only error.
#![tactic(auto)]

mod elements;
mod narrow;
mod numbers;
mod operand;
mod pile;
mod shared;
mod texts;
mod value;

pub use elements::Elements;
pub use narrow::Narrow;
pub use numbers::Numbers;
pub use operand::{Array, Cells, IndexRange, Indices, Kind, Operand, Placed};
pub use pile::Pile;
pub use shared::Shared;
pub use texts::Texts;
pub use value::{Iv1, Value};
