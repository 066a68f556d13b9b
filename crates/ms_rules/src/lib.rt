//! The rules of values: what each form of an expression makes of the operands of its parts.
//!
//! `specs/` has the rules of the whole language, a clause for each form and each kind of operand: operators and signs
//! (`Operators`), sets (`Sets`), accesses (`Access`), functions over arrays (`Arrays`, `Tables`), texts (`Shown`),
//! conversions (`Conversions`) and all built-in names (`Calls`). A rule answers `None` exactly where a number leaves
//! -2^50..2^50. What is known and has no value is undefined, by relational semantics (MiniZinc Handbook): a comparison with
//! it is false, and so is a Boolean function of an array that is undefined; an operation on it is undefined.
//!
//! Here is the code that reads operands and elements of arrays (`Operands`, `Cells`) and brings them to another type. Each
//! call answers exactly what the definition of its name says; want of memory is the only error. The code of operators,
//! accesses and built-in names stands in crates above.
#![tactic(auto)]

mod cells;
mod conversions;
mod kinds;
mod operands;

pub use cells::{
    bits, cells_of, conditions_of, converted, empty, grow, integers_of, line_from_one, numbers_of,
    texts_of, truths_of,
};
pub use conversions::{conversion_nesting, convert, kind_by, kind_of_type};
pub use kinds::{
    count_of, is_logical_kind, is_variable_kind, kind_of, no_number, no_truth, undefined_of,
};
pub use operands::{
    INDEX_LIMIT, bit_number, condition_of, either_variable, elements_of, integer, integer_of,
    is_logical, is_variable, known_number, nesting_of, number, number_of, set_of, text_of, truth,
    truth_of,
};
