//! A declaration: its index sets, its declared set, its value, and the variables that it declares.
//!
//! [`place_declaration`] places what a declaration of a model says, among the values of the names that it may name: each index set, the
//! declared set, and the value that is given, from the declaration itself, from an assignment or from data. It answers what
//! they come to, or the first fault ([`ValueFault`]), exactly by `declared` (`specs/Variables`). An array whose indices all
//! begin at 1 takes the declared index sets where the lengths agree; a value of another shape, or a known one outside its
//! declared set, is `Shape`; a known value, an array, an index set or a declared set that is undefined is `NoValue`.
//! [`variables_of`] gives the variables that a declaration stands for, from a number on, and [`set_of_kind`] the set of each.
//!
//! Want of memory is the only other answer.
#![tactic(auto)]

mod declaration;
mod fault;
mod fits;
mod given;
mod known;
mod place;
mod sides;
mod variables;

pub use declaration::{Declared, place_declaration};
pub use fault::ValueFault;
pub use given::{Given, value_of};
pub use place::placed_in;
pub use variables::{set_of_kind, variables_in, variables_of};
