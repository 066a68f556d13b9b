//! The typed tree: what the type checker leaves of each expression for those who place it or run it.
//!
//! Each name is the place of what it stands for, each conversion that a value needs is a node of its own, and an
//! `if` says of each condition whether it is known, variable or a search. So who walks a typed tree compares no
//! names and asks for no types. It keeps the places of the text, and nests no deeper than the text: a chain of
//! operators, the subscripts behind one atom and an `if` with its `elseif` are one node with a list.
//!
//! Which tree an expression has is `code_of` (`specs/Code.antt`), a function of the expression, of the names around
//! it and of the types of its parts, and which an item has is `item_code` (`specs/Items.antt`). They mean something
//! for what has a type.
#![tactic(auto)]

mod code;
mod item;

pub use code::{Arm, Code, Condition, Generator, Generators, Link, Reference, Row, Subscript};
pub use item::{Declaration, Function, Goal, Item};
