//! Texts with several faults, in all orders: which comes first.
//!
//! A row has a word for each line of the model; before a bar stand the words of the library. `include` is an included file
//! that there is not, `twice` two declarations of one name, in columns 1 and 13, `cycle` two names that depend on each
//! other, `unknown` a name in column 12 that stands for nothing, and `solve` the solve item.

/// All orders of the four faults, and one text without a fault.
pub const OF_FOUR: &str = r#"
include twice cycle unknown solve => Include 1:1
include twice unknown cycle solve => Include 1:1
include cycle twice unknown solve => Include 1:1
include cycle unknown twice solve => Include 1:1
include unknown twice cycle solve => Include 1:1
include unknown cycle twice solve => Include 1:1
twice include cycle unknown solve => Include 2:1
twice include unknown cycle solve => Include 2:1
twice cycle include unknown solve => Include 3:1
twice cycle unknown include solve => Include 4:1
twice unknown include cycle solve => Include 3:1
twice unknown cycle include solve => Include 4:1
cycle include twice unknown solve => Include 2:1
cycle include unknown twice solve => Include 2:1
cycle twice include unknown solve => Include 3:1
cycle twice unknown include solve => Include 4:1
cycle unknown include twice solve => Include 3:1
cycle unknown twice include solve => Include 4:1
unknown include twice cycle solve => Include 2:1
unknown include cycle twice solve => Include 2:1
unknown twice include cycle solve => Include 3:1
unknown twice cycle include solve => Include 4:1
unknown cycle include twice solve => Include 3:1
unknown cycle twice include solve => Include 4:1
solve => accepted
"#;

/// All orders of some of the faults, before or behind the solve item.
pub const OF_SOME: &str = r#"
include twice cycle solve => Include 1:1
solve include twice unknown => Include 2:1
include cycle twice solve => Include 1:1
solve include cycle unknown => Include 2:1
include unknown twice solve => Include 1:1
solve include unknown cycle => Include 2:1
twice include cycle solve => Include 2:1
solve twice include unknown => Include 3:1
twice cycle include solve => Include 3:1
solve twice cycle unknown => Twice 2:1 2:13
twice unknown include solve => Include 3:1
solve twice unknown cycle => Twice 2:1 2:13
cycle include twice solve => Include 2:1
solve cycle include unknown => Include 3:1
cycle twice include solve => Include 3:1
solve cycle twice unknown => Twice 3:1 3:13
cycle unknown include solve => Include 3:1
solve cycle unknown twice => Twice 4:1 4:13
unknown include twice solve => Include 2:1
solve unknown include cycle => Include 3:1
unknown twice include solve => Include 3:1
solve unknown twice cycle => Twice 3:1 3:13
unknown cycle include solve => Include 3:1
solve unknown cycle twice => Twice 4:1 4:13
solve include twice => Include 2:1
include cycle solve => Include 1:1
solve include unknown => Include 2:1
twice include solve => Include 2:1
solve twice cycle => Twice 2:1 2:13
twice unknown solve => Twice 1:1 1:13
solve cycle include => Include 3:1
cycle twice solve => Twice 2:1 2:13
solve cycle unknown => Cycle 2:1
unknown include solve => Include 2:1
solve unknown twice => Twice 3:1 3:13
unknown cycle solve => Cycle 2:1
include solve => Include 1:1
solve twice => Twice 2:1 2:13
cycle solve => Cycle 1:1
solve unknown => Unknown 2:12
"#;

/// All orders without a solve item: a name that is declared twice comes before that, a cycle behind.
pub const UNSOLVED: &str = r#"
include twice cycle unknown => Include 1:1
include twice unknown cycle => Include 1:1
include cycle twice unknown => Include 1:1
include cycle unknown twice => Include 1:1
include unknown twice cycle => Include 1:1
include unknown cycle twice => Include 1:1
twice include cycle unknown => Include 2:1
twice include unknown cycle => Include 2:1
twice cycle include unknown => Include 3:1
twice cycle unknown include => Include 4:1
twice unknown include cycle => Include 3:1
twice unknown cycle include => Include 4:1
cycle include twice unknown => Include 2:1
cycle include unknown twice => Include 2:1
cycle twice include unknown => Include 3:1
cycle twice unknown include => Include 4:1
cycle unknown include twice => Include 3:1
cycle unknown twice include => Include 4:1
unknown include twice cycle => Include 2:1
unknown include cycle twice => Include 2:1
unknown twice include cycle => Include 3:1
unknown twice cycle include => Include 4:1
unknown cycle include twice => Include 3:1
unknown cycle twice include => Include 4:1
include twice cycle => Include 1:1
include twice unknown => Include 1:1
include cycle twice => Include 1:1
include cycle unknown => Include 1:1
include unknown twice => Include 1:1
include unknown cycle => Include 1:1
twice include cycle => Include 2:1
twice include unknown => Include 2:1
twice cycle include => Include 3:1
twice cycle unknown => Twice 1:1 1:13
twice unknown include => Include 3:1
twice unknown cycle => Twice 1:1 1:13
cycle include twice => Include 2:1
cycle include unknown => Include 2:1
cycle twice include => Include 3:1
cycle twice unknown => Twice 2:1 2:13
cycle unknown include => Include 3:1
cycle unknown twice => Twice 3:1 3:13
unknown include twice => Include 2:1
unknown include cycle => Include 2:1
unknown twice include => Include 3:1
unknown twice cycle => Twice 2:1 2:13
unknown cycle include => Include 3:1
unknown cycle twice => Twice 3:1 3:13
include twice => Include 1:1
include cycle => Include 1:1
include unknown => Include 1:1
twice include => Include 2:1
twice cycle => Twice 1:1 1:13
twice unknown => Twice 1:1 1:13
cycle include => Include 2:1
cycle twice => Twice 2:1 2:13
cycle unknown => NoSolve
unknown include => Include 2:1
unknown twice => Twice 2:1 2:13
unknown cycle => NoSolve
include => Include 1:1
twice => Twice 1:1 1:13
cycle => NoSolve
unknown => NoSolve
"#;

/// One fault in the library and one in the model: of one kind the library's comes first.
pub const BESIDE: &str = r#"
include | include solve => Include library 1:1
include | twice solve => Include library 1:1
include | cycle solve => Include library 1:1
include | unknown solve => Include library 1:1
twice | include solve => Include 1:1
twice | twice solve => Twice library 1:1 library 1:13
twice | cycle solve => Twice library 1:1 library 1:13
twice | unknown solve => Twice library 1:1 library 1:13
cycle | include solve => Include 1:1
cycle | twice solve => Twice 1:1 1:13
cycle | cycle solve => Cycle library 1:1
cycle | unknown solve => Cycle library 1:1
unknown | include solve => Include 1:1
unknown | twice solve => Twice 1:1 1:13
unknown | cycle solve => Cycle 1:1
unknown | unknown solve => Unknown library 1:12
include | include => Include library 1:1
include | twice => Include library 1:1
include | cycle => Include library 1:1
include | unknown => Include library 1:1
twice | include => Include 1:1
twice | twice => Twice library 1:1 library 1:13
twice | cycle => Twice library 1:1 library 1:13
twice | unknown => Twice library 1:1 library 1:13
cycle | include => Include 1:1
cycle | twice => Twice 1:1 1:13
cycle | cycle => NoSolve
cycle | unknown => NoSolve
unknown | include => Include 1:1
unknown | twice => Twice 1:1 1:13
unknown | cycle => NoSolve
unknown | unknown => NoSolve
include | solve => Include library 1:1
twice | solve => Twice library 1:1 library 1:13
cycle | solve => Cycle library 1:1
unknown | solve => Unknown library 1:12
include | unknown solve twice => Include library 1:1
twice | unknown solve twice => Twice library 1:1 library 1:13
cycle | unknown solve twice => Twice 3:1 3:13
unknown | unknown solve twice => Twice 3:1 3:13
"#;

/// Models beside a library that uses a name which stands for nothing in it.
pub const BESIDE_UNKNOWN: &str = r#"
constraint y; solve satisfy => Unknown library 1:12
constraint 1; solve satisfy => Unknown library 1:12
solve satisfy => Unknown library 1:12
constraint x > 0; solve satisfy; int: x; int: z => Unknown library 1:12
int: x; int: x; solve satisfy => Twice 1:1 1:9
int: u = u; solve satisfy => Cycle 1:1
include "a.mzn"; solve satisfy => Include 1:1
constraint y => NoSolve
"#;

/// Models beside a library that declares `z`.
pub const BESIDE_NAME: &str = r#"
int: z; solve satisfy => accepted
constraint z > 0; solve satisfy => accepted
constraint z = "u"; solve satisfy => Mismatch 1:14
string: z; constraint z > 0; solve satisfy => Mismatch 1:25
int: u = z; solve satisfy => accepted
"#;
