//! Steps of making an instance of a checked model and its data.
//!
//! What each step makes stands in `ms_made`. [`Names`] is a checked model with what stands for each name that its items declare,
//! around the expressions that are placed; [`typed_data`] and [`given_item`] give the values that data and assignment items
//! give; [`constrain`] joins one constraint to those so far, and [`equate`] the equations of variables with a value.
//!
//! A fault is that of the definition (`AnswersOf`, `ms_made`); want of memory is the only other answer.
#![tactic(auto)]

mod coming;
mod constraints;
mod equations;
mod handed;
mod names;

pub use coming::{operand_by, place_given};
pub use constraints::{Constraints, constrain};
pub use equations::equate;
pub use handed::{given_item, typed_data};
pub use names::Names;
