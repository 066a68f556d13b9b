//! Small shared types, and the numbers that limit what the solver takes.
//!
//! Contracts see [`Bytes`] and [`Point`] as the lists that they hold, and a [`Name`] as the list
//! of its bytes; the other types are plain data. Each number of a limit stands here once, under a
//! name that clauses cite.
#![tactic(auto)]

mod bytes;
mod limits;
mod name;
mod point;
mod run;

pub use bytes::Bytes;
pub use limits::{
    ARGUMENT_NODE_LIMIT, CALL_NESTING_LIMIT, ELEMENT_LIMIT, EVALUATION_STEP_LIMIT, FILE_LIMIT,
    LIVE_NODE_LIMIT, NESTING_LIMIT, NUMBER_LIMIT, SCOPE_LIMIT, SEARCH_CALL_LIMIT, TRACE_LIMIT,
    TREE_NESTING_LIMIT, VARIABLE_LIMIT,
};
pub use name::Name;
pub use point::Point;
pub use run::{Closing, Count, Limit, LimitKind, Limits};
