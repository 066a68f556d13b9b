//! Nodes of typed trees from parts that have their types and trees.
//!
//! The walk of the type checker gives each part as an [`Elaborated`]: its least type with its typed tree. Once the type of
//! a whole node is known, these functions make the node: they bring parts to the types that are asked for, by a
//! conversion where one is needed, and join the operands of a chain. Each answers what the definition of its name in
//! `specs/` says, which is over plain lists of parts; want of memory is the one error.
//!
//! Nothing here looks at a name or finds a fault.
#![tactic(auto)]

mod calls;
mod chains;
mod conversions;
mod lists;
mod parts;

pub use calls::{call, generator_call};
pub use chains::chain;
pub use conversions::{bring, bring_all, bring_each};
pub use lists::{add_subscript, arms, generators, rows};
pub use parts::{
    Choice, Elaborated, Operand, Source, Sources, choice_kinds, kinds, kinds_and, made,
    operand_kinds, push, row_kinds, source_kinds,
};
