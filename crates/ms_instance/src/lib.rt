//! An instance: a model with its variables, their declared sets, its constraints and the values of its names.
//!
//! An [`Instance`] has a model that is well typed beside a library, with the typed trees of its items
//! ([`ms_types::Typed`]); a declared set for each variable; constraints, which are Boolean trees that may be asked on these
//! sets and are within the limits; a branching; and a value for each name that the model declares, in which variables alone
//! are trees. That is `IsInstance` (`specs/Instances`), which every instance meets. [`Instance::new`] makes one of its parts.
//!
//! [`places_of`], [`body_at`] and [`value_at`] are what its readers go by, for those who make one. [`known_operands`] gives
//! what stands for each name on a point, where each variable has a number.
//!
//! Contracts see it by `text_of`, `sets_of`, `constraints_of` and `values_of` (`specs/Views`), and what its model asks for and
//! shows by `specs/Reading`. Each reader lends what its name says; those that answer no `Result` take no memory.
#![tactic(auto)]

mod bodies;
mod goal;
mod instance;
mod places;
mod point;
mod shown;

pub use bodies::{body_at, known_body_at, value_at};
pub use instance::{Instance, Parts};
pub use places::{Places, places_of};
pub use point::{known_operands, narrow_numbers};
