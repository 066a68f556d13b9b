//! The top call: from the bytes of a model to the bytes of its answer.
//!
//! [`run`] takes the program's words, the files and the two outputs. Its contract says, for the
//! bytes that the files tell under the model's name, which status comes and what is written: for a
//! well typed text of the plain form the default text of the least assignment that meets its
//! constraints, or the line that says that there is none; each fault exactly where it stands; and
//! faults of reading and writing only where the counts of the files or the outputs rose.
//! `specs/Faults.antt` has what a fault means, `specs/Typing.antt` which trees are well typed beside
//! the library, `specs/Answer.antt` the answer as a definition, `specs/Solution.antt` what a solution
//! is, `specs/Text.antt` the texts.
//!
//! `accept` goes from the words' file over tokens, tree and types to a model that is accepted, `solve` runs it, `report` says
//! how that ended.
//!
//! Not promised: time, and that memory suffices.
#![tactic(auto)]

mod accept;
mod domain;
mod enumerate;
mod form;
mod laws;
mod limits;
mod plain;
mod program;
mod report;
mod solve;
mod status;
mod text;
mod trees;

pub use laws::one_outcome;
pub use program::run;
pub use status::{Fault, Status};
