//! The numbers that limit what is taken.

/// The greatest number of bytes of a model or data file.
pub const FILE_LIMIT: usize = 1048576;

/// The greatest number of bytes of a trace file.
pub const TRACE_LIMIT: usize = 67108864;

/// How many brackets and `if` may be open at one place of a text.
pub const NESTING_LIMIT: usize = 200;

/// The greatest number of scalar variables of an instance.
pub const VARIABLE_LIMIT: usize = 20000;

/// The greatest number of elements of an array, and of ranges of a set.
pub const ELEMENT_LIMIT: usize = 200000;

/// The greatest number of nodes of the ground trees that constrain one scope.
pub const LIVE_NODE_LIMIT: u64 = 2000000;

/// The greatest number of steps in which one expression is evaluated to a value or a ground tree.
pub const EVALUATION_STEP_LIMIT: u64 = 20000000;

/// How deep a ground tree may nest.
pub const TREE_NESTING_LIMIT: usize = 500;

/// How many calls of predicates and functions may be open at one moment while an expression is
/// evaluated.
pub const CALL_NESTING_LIMIT: usize = 500;

/// The greatest number of nodes of the ground trees in the arguments of one call of a search.
pub const ARGUMENT_NODE_LIMIT: u64 = 100000;

/// The greatest number that a part of a model may come to; the least is its negative.
pub const NUMBER_LIMIT: i64 = 1125899906842624;

/// How many scopes may stand.
pub const SCOPE_LIMIT: usize = 200;

/// How many calls of searches may be open.
pub const SEARCH_CALL_LIMIT: usize = 200;
