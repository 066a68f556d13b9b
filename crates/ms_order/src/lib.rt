//! The order in which the declarations of a model are processed.
//!
//! `specs/Order` says what it is (`IsOrder`): the declarations in item order, where before a
//! declaration come those that it reads and that have not come yet, in item order, each by the same
//! rule. A declaration reads the variables and parameters that its range, its index sets and the
//! values that items give to it name, also through the bodies of predicates and functions (`Reads`).
//! [`order_of`] answers the order, as numbers of the declared names.
//!
//! Laws: there is one such order ([`one_order`]), each declared name stands in it once
//! ([`each_comes_once`]), and in a model without cycles each stands behind those that it reads
//! ([`read_come_first`]).
//!
//! Not promised: time, and that memory suffices.
#![tactic(auto)]

mod drawing;
mod finder;
mod laws;
mod names;
mod order;

pub use laws::{each_comes_once, one_order, read_come_first};
pub use order::order_of;
