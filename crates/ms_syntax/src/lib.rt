//! Tokens of MiniZinc texts with their places, and the grammar: which tokens a tree is written as.
//!
//! Of bytes: `specs/` has the longest form that stands at the front of some bytes (`Form`, maximal
//! munch), and the relation between bytes and their list of tokens, and their first fault (`Cut`):
//! bytes have one list or one first fault at most ([`one_reading`]). That the forms are what rules
//! say that do not know the cut, and that all bytes have tokens or a fault, are laws of `ms_forms`,
//! a crate above that no program needs.
//!
//! Of tokens: `Grammar` has the tokens that each tree writes, a node at a time, and from them
//! alone what the first token is that cannot stand at its place (`SyntaxAt`: the tokens before it
//! begin a text of the language, and with it they do not) or that nests too deep (`DeepAt`).
//! Tokens have one such answer at most ([`one_answer`]). `Grouping` says how the operators of a
//! chain group, and where each node stands ([`Expr::place`]).
//!
//! Contracts see a [`Word`] as its bytes, the names of a generator as their list, and a tree
//! through a view as plain data (`Tree`), which gives all that is written of it; the other types
//! are plain data. `ms_copies`, a crate above, copies trees.
#![tactic(auto)]

mod laws;
mod names;
mod place;
mod token;
mod tree;

pub use laws::{chain_places, one_answer, one_reading};
pub use names::Binders;
pub use token::{FileNo, Keyword, LexKind, Place, Spanned, Symbol, Token, Word};
pub use tree::{
    Arm, Assignment, Assignments, Base, Binder, Declaration, Expr, Generator, Generators, Goal,
    Index, Item, Kind, Link, Mode, Note, Operator, Parameter, Row, Sign, Subscript, Tree,
};
