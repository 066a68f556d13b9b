//! What ground trees may mean on a box, by interval reasoning.
//!
//! Contracts see a [`Ground`] as plain data, and a list of parts as a list. What a tree may mean on a box is its
//! [`Enclosure`]: an interval of numbers and whether it may be undefined, or the truth values that may come.
//!
//! [`enclose`] answers it, exactly, where the tree is well formed on the box: well sorted, over its variables alone,
//! and with each interval within -2^50..2^50, so that no sum or product can wrap. It is the test of that too, and walks
//! a tree once. [`number`] and [`truth`] are the same for a tree that has to be of one sort. [`is_well_formed`] is the test
//! alone; [`hull`] takes trees that are known to be well formed, and answers in the public form.
//!
//! [`operations`], [`leaves`], [`extremes`], [`misses`] and [`room`] have what one node may mean, from what its parts may mean,
//! for code above that keeps enclosures beside its trees. An operation on numbers answers `None` exactly where its
//! interval leaves the limits.
//!
//! No call takes memory. Nothing is promised of their time, and the walks recurse, so the caller bounds the nesting. Of a
//! list of distinct numbers or a table, the first 64 parts are evaluated once, and a later part each time that it is
//! looked at.
//!
//! The trees, their definitions and laws, and their values on assignments stand in `ms_trees`, which is passed on
//! here, so that code above names this crate alone.
#![tactic(auto)]

pub mod extremes;
mod hulls;
pub mod leaves;
pub mod misses;
pub mod operations;
pub mod room;
mod walk;

pub use hulls::{as_hull, enclose, hull, is_well_formed};
pub use ms_trees::{
    Branching, Enclosure, Ground, Hull, Order, Row, Rows, Trees, ValueChoice, copy_trees, holds,
    hull_laws, membership_law, nesting, room_law, size, value_at,
};
pub use walk::{number, truth};
