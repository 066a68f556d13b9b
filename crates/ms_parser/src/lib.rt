//! Trees from tokens, by recursive descent.
//!
//! [`statement`], [`assignments`] and [`model`] read a list of tokens as an expression, as data
//! and as a model. Each answers the one tree that the grammar writes as the tokens, with brackets
//! and `if` nested at most `NESTING_LIMIT` deep; and else the first token with which no list of the
//! grammar goes on, or the first that opens too deep ([`ParseFault`]). Each cause is told in both
//! directions: the answer says that it holds, and where it holds the answer is it. Want of memory
//! alone is free. The laws have what follows of trees and tokens alone: tokens that nest so
//! deep at most are written by one expression, one model and one list of assignments at most
//! ([`one_expression`], [`one_model`], [`one_data`]), each list of tokens has an answer
//! ([`some_answer`]), and how the operators of a chain group ([`chains_group`]).
//!
//! `ms_expressions` has the rules of expressions and declarations, and reads by them. Here are the
//! rules of items, of data and of all of the tokens (`specs/Items`, `specs/Lists`), and plain
//! functions that read by them, since no bracket is open where items stand. A reader stops at the
//! first token that it does not take, and looks at one token ahead; nothing checks what may follow
//! a part (its FOLLOW set), since the next part refuses the same token. After a fault the tokens
//! that are left in a cursor are of no use, and none is read from it again.
//!
//! `proofs/` has that each rule reads exactly what the grammar writes (`Exact`): what it reads is
//! written so, what is written so is read where nothing follows that it could go on with, a fault
//! is where nothing of the language goes on, and brackets nest as deep as it says. What contracts
//! see is the tokens and the views of trees alone. How an answer is found is not told, nor what it
//! costs.
#![tactic(auto)]

mod answer;
mod data;
mod expression;
mod fault;
mod item;
mod laws;
mod list;
mod models;
mod outermost;
mod parameters;

pub use data::assignments;
pub use expression::statement;
pub use fault::ParseFault;
pub use laws::{chains_group, one_data, one_expression, one_model, some_answer};
pub use models::model;
