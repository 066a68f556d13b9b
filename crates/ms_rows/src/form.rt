//! What decides the row at a node, besides the types of its parts.

use ms_built_ins::BuiltIn;
use ms_syntax::{Operator, Sign};
use ms_typing::ExprType;

/// What a name stands for.
#[derive(Clone, Copy)]
pub enum Meaning<'a> {
    Value(ExprType),
    /// A function or predicate: what it takes, whether each of that is read as known, and its result.
    Function(&'a [ExprType], bool, ExprType),
    BuiltIn(BuiltIn),
}

/// What a name is told as.
#[derive(Clone, Copy)]
pub enum Told<'a> {
    /// Nothing.
    Unknown,
    Means(Meaning<'a>),
    /// What it would mean in other surroundings.
    Barred(Meaning<'a>),
}

/// A node without its parts.
#[derive(Clone, Copy)]
pub enum Form<'a> {
    Number,
    Text,
    Truth,
    /// A name by itself.
    Stands(Told<'a>),
    /// A name with arguments.
    Calls(Told<'a>),
    /// A name with generators: what their sets and the condition are to be, and whether there is one generator with one
    /// name and no condition.
    Generates(Told<'a>, &'a [ExprType], bool),
    Operation(Operator),
    Prefix(Sign),
    Parenthesis,
    Access,
    Array,
    /// Rows, and whether they have one length.
    Grid(bool),
    Set,
    /// What the sets of the generators and the condition are to be.
    Comprehension(&'a [ExprType]),
    Choice,
    /// The types of the locals.
    Lets(&'a [ExprType]),
    /// A declaration: whether its kind is supported, what its parts are to be, and its type.
    Declares(bool, &'a [ExprType], ExprType),
    /// A value for a name of this type.
    Assigns(ExprType),
    /// A value for a name that is not declared here.
    Gives,
    Constrains,
    Satisfies,
    Optimizes,
    Searches,
    Outputs,
    Unsupported,
    /// What does not stand in these surroundings.
    Misplaced,
}
