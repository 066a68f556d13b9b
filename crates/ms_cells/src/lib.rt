//! A list of which earlier states can be had back, as a trail keeps them.
//!
//! Contracts see a [`Cells`] as its current list and the lists that were saved of it (`Lists` of `specs/Cells`), whatever
//! the values are. A mark saves the current list; `undo` makes a saved list the current one and ends its mark and all
//! later ones; `restore` makes it the current one and leaves all marks as they are. New cells come into every list, and
//! the last ones go out of every list.
//!
//! No list is copied: one list keeps the values that writes took away, and each mark how many of these there were. So
//! neither a mark nor growth takes time that depends on the number of cells or marks, and going back takes as many steps
//! as there were writes.
#![tactic(auto)]

mod cells;
mod rows;

pub use cells::Cells;
pub use rows::{Place, RowCells};
