//! Expressions over an instance.
//!
//! [`ground`] answers the value of an expression of a search: it types the expression among the names of the model and of an
//! [`Env`], and places its typed tree (`ms_walk`) with the values of these names around it and the incumbent. That is `grounded`
//! (`specs/Around`), with the random words that are left. [`ground_code`] is the same for a typed tree, as the layers above that
//! place one expression again and again call it; both go by one definition ([`doors_agree`]). [`Known`] has the values of the names on a
//! point, [`value_of`] gives that of a name, and [`output_on`] the value of an output item there, where every variable is known (`output_at`,
//! `specs/Known`).
//!
//! A value that has none is `Undefined`; a fault has the place of its node; want of memory is the only other answer.
#![tactic(auto)]

mod fault;
mod grounds;
mod known;
mod laws;
mod names;

pub use fault::GroundFault;
pub use grounds::{ground, ground_code};
pub use known::{Known, ground_output, output_on, value_of};
pub use laws::doors_agree;
pub use ms_env::{Env, type_of};
pub use ms_typing::ExprType;
pub use ms_values::Value;
