//! Primitive constraints: one operation over variables and numbers, and what propagators do with them.
//!
//! Contracts see a [`Primitive`] as plain data, its lists as lists. What it means is a ground tree (`specs/Constraints`): an
//! operation, and how it is bound, that is, whether it holds, equals a variable, or is equivalent to a truth variable. All
//! else comes from that tree. The variables of a primitive are those of the tree (`specs/Naming`), it is met where the
//! tree is true, and it is settled on a box where interval reasoning neither refutes the tree nor takes a value from the
//! variable that it defines (`specs/Settling`).
//!
//! [`meets`] answers exactly whether an assignment meets a primitive, also where products and sums leave 64 bits.
//!
//! [`Propagator`] takes values from the sets of a store that no assignment which meets a primitive needs. Its contract says
//! what stays as it was, whatever it answers (`specs/Narrowing`).
//!
//! [`fit_laws`], [`settled_laws`], [`name_laws`] and [`cut_laws`] do nothing: their contracts are laws over the definitions.
//! The last are those by which a propagator is a chain of cuts.
#![tactic(auto)]

mod laws;
mod listed;
mod meeting;
mod naming;
mod numbers;
mod operations;
mod pieces;
mod primitive;
mod propagator;

pub use laws::{cut_laws, fit_laws, name_laws, settled_laws};
pub use listed::Listed;
pub use meeting::meets;
pub use naming::names;
pub use pieces::{Cmp, Lit, Part, Term, Tie};
pub use primitive::{Lits, Parts, Primitive, Prims, Terms, copy_prims};
pub use propagator::{Propagator, Ran};
