//! Worked examples of the rules of values: what each operator, form and built-in name makes of known, variable and undefined
//! parts, written out and proved. The calls of `ms_rules` are tested once each, with ample memory.
#![tactic(auto)]

mod accesses;
mod calls;
#[cfg(test)]
mod elements;
mod operators;
#[cfg(test)]
mod reading;
#[cfg(test)]
mod samples;

pub use accesses::{extents, grids, lines, undefined_elements};
pub use calls::{arrays, booleans, index_sets, numbers, searches, shown_texts, tables};
pub use operators::{
    comparisons, concatenations, connectives, conversions, divisions, equalities, limits,
    memberships, ranges, signs, sums,
};
