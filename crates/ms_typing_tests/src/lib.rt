//! Worked examples of the definitions of types: what they give for trees that are written out,
//! proved and not run.
#![tactic(auto)]

mod expressions;
mod models;
mod searches;

pub use expressions::{
    accesses_of_arrays, calls_of_functions, choices, comprehensions, literals_of_arrays, locals,
    operators, order_of_faults,
};
pub use models::{faults_of_items, typed_items, unsupported_items};
pub use searches::{names_out_of_place, outputs_and_data, typed_searches};
