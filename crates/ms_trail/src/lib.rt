//! A store on a trail: the same contract as the store that copies, at the cost of what changes.
//!
//! A [`Trail`] has a domain of fixed size for each variable (`ms_domains`) and, for a set within 4,096 numbers, a row of
//! words, both with one list of old values (`ms_cells`). A mark keeps how long that list was, and going back writes its end
//! back. The holes of wider sets stand in a list of sets of ranges, to which cuts add and which going back shortens.
//!
//! Contracts see what every store shows (`lists` of the trait `Store`), and [`Trail::restore`] beside it, which makes a
//! saved list the current one and leaves all marks.
#![tactic(auto)]

mod cuts;
mod growth;
mod room;
mod spread;
mod trail;

pub use trail::Trail;
