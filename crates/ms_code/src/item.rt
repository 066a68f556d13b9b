//! Typed items.

use crate::code::Code;
use ms_syntax::Place;
use ms_typing::ExprType;
use sqlite_items::Items;

/// A declared name that is no function. Its place is that of its declaration.
#[derive(Drop)]
pub struct Declaration {
    pub place: Place,
    pub kind: ExprType,
    /// The index sets of an array; none where `int` stands.
    pub indices: Items<Option<Code>>,
    /// The set that its values, or those of its elements, come from; none where a type stands.
    pub within: Option<Code>,
    /// Brought to its type.
    pub value: Option<Code>,
}

/// A predicate or function.
#[derive(Drop)]
pub struct Function {
    pub place: Place,
    pub parameters: Items<ExprType>,
    pub result: ExprType,
    /// Brought to the type of the result.
    pub body: Code,
    /// The body where every value is known, as output items call it; none for a search.
    pub known_body: Option<Code>,
}

/// What a solve item asks for.
#[derive(Drop)]
pub enum Goal {
    Satisfy,
    /// An integer, known or variable.
    Minimize(Code),
    /// An integer, known or variable.
    Maximize(Code),
    Search(Code),
}

/// What is kept of an item.
#[derive(Drop)]
pub enum Item {
    /// An `include`: nothing.
    Include,
    Declare(Declaration),
    /// An enumeration, which has no type yet.
    Enum,
    /// A value for a name, by its number among the names that its own text declares; none where it declares no such
    /// name, or a function of that name.
    Assign(Place, Option<usize>, Code),
    /// A variable Boolean.
    Constraint(Place, Code),
    Solve(Place, Goal),
    /// An array of strings, with every value known.
    Output(Place, Code),
    Function(Function),
}
