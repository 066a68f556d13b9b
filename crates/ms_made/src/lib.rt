//! How an instance is made of a checked model and its data: definitions.
//!
//! `parts_made` (`specs/Parts`) says what the parts of the instance are (its declared sets, its constraints, the value of each
//! name), or the first fault ([`InstanceFault`]), over the order in which the declarations come. It goes in stages, and the
//! first stage with a fault answers: which values are given (`ms_given`); then the declarations, each after those that it names,
//! each by `declared` of `ms_declared` (`specs/Coming`); then the constraints, in the order of the items and of the data, with
//! the equations between variables and the values that are given to them (`specs/Constraining`).
//!
//! Variables are numbered in the order of their declarations. While declarations come, those that have come are numbered in the
//! order of coming, for what they are placed to; no fault depends on numbers.
#![tactic(auto)]

mod fault;

pub use fault::InstanceFault;
