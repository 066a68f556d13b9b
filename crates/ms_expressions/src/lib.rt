//! Expressions from the front of a list of tokens, by recursive descent with one token of
//! lookahead.
//!
//! `specs/Rules.antt` has a rule for each production, as what it reads of a list of tokens, in the
//! combinators of `ms_cursor`. Each function here reads what its rule reads (`Reads`), unless
//! memory fails. After a fault the cursor may stand anywhere, and is not used again. That the rules
//! read exactly what the grammar writes is no matter of this crate, and is proved in the one above.
//!
//! The rules that hold expressions are methods of [`Grammar`], which has the function that reads
//! an expression as a value: of it a rule needs only that it reads where fewer brackets may open
//! (`Nests`). So each is proved by itself, and the one recursion is [`expr`], by the number of
//! brackets that may open. Lists are read by one loop over any [`Part`].
#![tactic(auto)]

mod atom;
mod declaration;
mod generators;
mod grammar;
mod inside;
mod operators;
mod reach;
mod recursion;
mod turn;

pub use declaration::word;
pub use grammar::{Grammar, Part};
pub use inside::binder;
pub use reach::Reach;
pub use recursion::expr;
pub use turn::Turn;
