//! Names and kinds in code, for the checker of types.
//!
//! A [`World`] holds the names that the items of a model and of the library declare, found through a
//! map; contracts see it as the world of the definitions (`world_view`, `specs/Worlds.antt`). A
//! [`Scope`] is the names around an expression inside its item, a list on the stack; contracts see
//! it as the names of the definitions, the latest first (`names_of`, `specs/Scopes.antt`).
//!
//! [`World::find`] answers what a name stands for at a place and which declaration that is: what
//! stands inside hides what stands outside, the first declaration of a name counts, and the
//! library's text does not see the model's names. [`tell`] says what the name is told as in some
//! surroundings, as a `Told` of `ms_rows`. [`type_of_kind`] is the type that a kind gives to its
//! name, [`kind_sets`] and [`declared_parts`] what its sets and its value are to be, and the tests
//! `stands_..` say which kinds are supported where.
//!
//! Each call answers exactly what the definition of its name answers. No call has a `requires`.
#![tactic(auto)]

mod declared;
mod globals;
mod kinds;
mod places;
mod scope;
mod stands;
mod world;

pub use kinds::{declared_parts, kind_sets, type_of_kind};
pub use places::{is_data, may_stand, seen, tell};
pub use scope::Scope;
pub use stands::{stands_local, stands_outside, stands_parameter, stands_result};
pub use world::{Found, World};
