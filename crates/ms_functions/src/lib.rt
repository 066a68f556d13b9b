//! What built-in names make of single values: numbers, sets, texts, values on the incumbent, and draws.
//!
//! [`magnitude`], [`bool_to_int`], [`extreme_of_two`] and [`card`] are of known values and of trees alike; where a number is
//! asked for, they answer none exactly where it leaves -2^50..2^50. [`show`] has the text of any operand. [`on_incumbent`]
//! is the value of an operand on the last solution, and [`uniform`] the number that a random word gives, which the name
//! takes where [`takes_word`] says so.
//!
//! Contracts see operands as plain data, an incumbent as the list of the numbers of the variables, and what is answered
//! is what `specs/Calls`, `specs/Arrays`, `specs/Sets` and `specs/Shown` of ms_rules say, exactly. Want of memory is the only
//! error.
#![tactic(auto)]

mod draws;
mod incumbent;
mod point;
mod scalars;
mod texts;

pub use draws::{takes_word, uniform};
pub use incumbent::on_incumbent;
pub use scalars::{bool_to_int, card, extreme_of_two, magnitude};
pub use texts::show;
