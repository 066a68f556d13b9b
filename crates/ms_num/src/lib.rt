//! Intervals and sets of integers within -2^50..2^50.
//!
//! Contracts see an [`Iv`] as its two ends, a `Span` of `specs/Span`. Each operation on intervals gives the
//! least interval of its results: it has every result, and each of its ends is one. Only `mod_hull` may be
//! wider, and it has every defined remainder too. The operations on numbers stand in `specs/Numbers`.
//!
//! Contracts see a [`Ranges`] as its list of ranges, which are sorted and neither meet nor touch, and a
//! [`Sets`] as a list of these. `specs/Ranges` says which numbers a list of ranges has, and by [`set_law`]
//! there is one list for one set. So a call that makes a set says which numbers it has.
//!
//! `specs/Sets` has sets as crates above see them, by their ends and their members, whatever keeps them: the set
//! of a list of ranges, its size, and its cuts. A set has one cut, and the one that is computed is one ([`cut_law`]).
//! [`interval_law`] says of which operations the intervals are least, for numbers of any size.
//!
//! [`Intervals`] is what walks over expressions read: an interval for each variable, from a list of intervals or
//! from a list of sets.
//!
//! No call on an [`Iv`] takes memory; of a [`Ranges`] only those that make one do.
#![tactic(auto)]

mod intervals;
mod iv;
mod laws;
mod ranges;
mod sets;

pub use intervals::Intervals;
pub use iv::{Iv, LIMIT};
pub use laws::{cut_law, division_law, interval_law, set_law};
pub use ranges::Ranges;
pub use sets::Sets;
