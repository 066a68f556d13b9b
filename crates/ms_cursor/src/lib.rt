//! The tokens of a text from the left, one token of lookahead at a time.
//!
//! What reads a text reads it from a [`Cursor`], which contracts see as the tokens that are left.
//! `specs/Reading.antt` has the combinators by which rules of a grammar are written, each rule as
//! what it reads of a list of tokens: a value with the tokens behind it, the first token that cannot
//! stand there, or the first that opens a bracket too deep. A function that reads ensures `Reads`
//! (`specs/Reads.antt`): the outcome of its rule, unless memory fails; the same value by its view,
//! the same tokens left, the same faulty token, told by how many tokens are left there ([`Stop`]).
//! After a fault the cursor may stand anywhere, and is not used again.
//!
//! A symbol or a keyword is looked for as a [`Mark`]. `specs/Kinds.antt` has the kinds of tokens by
//! which a rule goes on, and `specs/Level.antt` the levels of operators ([`Level`]). No tree is here.
#![tactic(auto)]

mod cursor;
mod kind;
mod level;
mod mark;
mod stop;

pub use cursor::Cursor;
pub use level::Level;
pub use mark::Mark;
pub use stop::Stop;
