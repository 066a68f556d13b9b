//! Texts with their types and first faults, as tables: data alone, for the tests of the type checker.
//!
//! A table is one text. A row stands on a line: what is checked, and behind `=>` the answer, which is `accepted`, a type,
//! or a fault with its line and column, after the word `library` where it stands in the library's text; a fault with two
//! places has both, the earlier one first. Of types, `grid` is an array of two dimensions, and `nothing` what an array
//! without elements has. A line that begins with `%` is a heading.
//!
//! The answers are written by hand from the rules of the language, and never taken from a program.
#![tactic(auto)]

pub mod calls;
pub mod expressions;
pub mod forms;
pub mod items;
pub mod large;
pub mod library;
pub mod orders;
