//! Types of the language, as definitions and laws: which expressions and models have a type, and
//! which fault comes first.
//!
//! An expression is first turned into a term (`specs/Term`), in which each name is told what it
//! stands for and each node has its place, its form and its parts in the order of the text. From
//! then on there are no names and one kind of node. `specs/Row` has the two tables, a constructor
//! for each row: what a form asks of its parts, and what a name asks of its arguments. A term has a
//! type by a row whose operands its parts have, or by a conversion (`specs/HasType`,
//! `specs/Conversion`). The first fault is the first node in the order of the text that has no type
//! though each part of it has one, with its cause (`specs/Fault`). `specs/Items` has the terms of
//! items and of a whole model.
//!
//! Beside these relations stands a function (`specs/Least`): `row` gives what a node asks of its
//! parts and the type that it then has, `typing` the least type of a term or its first fault. The
//! laws tie the two. Each is the contract of a function here that does nothing. There is no checker
//! in this crate; one that computes `typing` is right by these laws.
//!
//! The types of this crate are plain data.
#![tactic(auto)]

mod laws;
mod types;

pub use laws::{
    chains_group, conversions, judged_once, least_types, models_judged_once, rows_of_tables,
    typed_where_known,
};
pub use ms_built_ins::{BuiltIn, built_in};
pub use types::{Cause, ExprType, Scalar, Shape, Surroundings};
