//! Ground trees, what they mean, and their value on an assignment: what a constraint is once its names, calls and
//! comprehensions are gone.
//!
//! Contracts see a [`Ground`] as plain data, a list of parts as a list, a [`Row`] as its numbers, [`Rows`] as the
//! list of its rows and an [`Order`] as its variables. [`Branching`] says how a search splits a box.
//!
//! The definitions stand here for every crate above. `specs/Value` says what a tree means on an assignment: a
//! number or undefined, or a truth value, by relational semantics. `specs/Enclosure` says what it may mean on a box, by
//! interval reasoning, `specs/WellFormed` on which boxes a tree may be asked, and `specs/Size` how large a tree is and how
//! deep its nodes stand one in another.
//!
//! [`holds`] and [`value_at`] answer the value of a tree on an assignment on which it may be asked, exactly, and take
//! no memory. What a tree may mean on a box is answered by `ms_ground`.
//!
//! [`hull_laws`], [`membership_law`] and [`room_law`] do nothing: their contracts are laws over the definitions. The
//! first ties the two meanings together: on a smaller box a tree may mean less; on one assignment it may mean just what
//! it means; a tree that may be asked on a box may be asked on each smaller one; and a Boolean tree that is refuted on
//! a box is false on each assignment of the box. The second says by numbers when an interval may be in a set of ranges,
//! and when outside. The third says of a list whose numbers have to be distinct that no range of integers is too
//! narrow for the parts that lie within it exactly where no range between ends of parts is. The converses of the
//! first laws are not promised: an interval may have numbers that never come. [`node_laws`] has the same of one node, from
//! what its parts may mean, and of trees that are well sorted, whatever their limits; [`selection_law`] says which element
//! an index takes.
//!
//! A copy equals its source, and want of memory is its only error. [`size`] and [`nesting`] are exact up to
//! 2^64 - 1, and take no memory. Nothing is promised of a tree's sorts or variables: that is for `specs/WellFormed` to ask.
//! Copies, counts, walks and the drop of a tree recurse, so the caller bounds the nesting.
#![tactic(auto)]

mod access;
mod branching;
mod copies;
mod extreme;
mod kept;
mod laws;
mod meaning;
mod nodes;
mod numbers;
mod table;
mod tree;

pub use access::{Access, grid_place, line_place, reaches};
pub use branching::{Branching, Order, ValueChoice};
pub use copies::copy_trees;
pub use extreme::Extreme;
pub use kept::KEPT;
pub use laws::{hull_laws, membership_law, node_laws, room_law, selection_law};
pub use meaning::{holds, value_at};
pub use nodes::{nesting, size};
pub use table::{Row, Rows};
pub use tree::{Enclosure, Ground, Hull, Trees};
