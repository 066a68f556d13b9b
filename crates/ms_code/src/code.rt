//! Typed expressions whose names are places.

use ms_built_ins::BuiltIn;
use ms_syntax::{Operator, Place, Sign, Word};
use ms_typing::ExprType;
use sqlite_items::{Boxed, Items};

/// What a name stands for.
#[derive(Clone, Copy, PartialEq, Eq)]
pub enum Reference {
    /// A parameter, a local or a name of a generator: how many were declared after it. Parameters that are searches count too.
    Local(usize),
    /// What the model declares, counted from 0 among the names of its items.
    Model(usize),
    /// What the library declares, counted likewise.
    Library(usize),
    BuiltIn(BuiltIn),
}

/// What the condition of an `if` is, by its type.
#[derive(Clone, Copy, PartialEq, Eq)]
pub enum Condition {
    /// A known Boolean: it tells which branch is placed.
    Known,
    /// A variable Boolean: each branch is placed.
    Variable,
    /// A search: that it succeeds or fails tells which branch runs.
    Search,
}

/// An expression that has a type.
#[cycle(code)]
#[derive(Drop)]
pub enum Code {
    Number(Place, u64),
    Truth(Place, bool),
    Text(Place, Word),
    Name(Place, Reference),
    /// A first operand and what follows it, operators of one level; those of `++` are grouped to the right, all others to
    /// the left.
    Chain(Boxed<Code>, Items<Link>),
    Prefix(Place, Sign, Boxed<Code>),
    Parenthesis(Place, Boxed<Code>),
    /// An array and one subscript or more.
    Access(Place, Boxed<Code>, Items<Subscript>),
    /// A function and its arguments.
    Call(Place, Reference, Items<Code>),
    /// The array of this type that `f(generators)(element)` gives to `f`, with the place of the call. It is no node of the
    /// text and takes no evaluation step.
    Gathered(Place, ExprType, Generators, Boxed<Code>),
    /// `repeat(generator)(search)`
    RepeatEach(Place, Generators, Boxed<Code>),
    /// An array of this type.
    Array(Place, ExprType, Items<Code>),
    /// An array of this type, of two dimensions.
    Rows(Place, ExprType, Items<Row>),
    Set(Place, Items<Code>),
    /// An array of this type, made by generators.
    Comprehension(Place, ExprType, Generators, Boxed<Code>),
    /// Conditions with their branches, and the last branch.
    If(Place, Items<Arm>, Boxed<Code>),
    /// The values of the locals, and the body.
    Let(Place, Items<Code>, Boxed<Code>),
    /// A value brought to this type. It is no node of the text and takes no evaluation step.
    Convert(ExprType, Boxed<Code>),
}

/// An operator with its place and its right operand.
#[cycle(code)]
#[derive(Drop)]
pub struct Link {
    pub operator: Operator,
    pub place: Place,
    pub operand: Code,
}

/// A row of an array of two dimensions.
#[cycle(code)]
#[derive(Drop)]
pub struct Row {
    pub elements: Items<Code>,
}

/// `[first]` or `[first, second]`
#[cycle(code)]
#[derive(Drop)]
pub struct Subscript {
    pub first: Code,
    pub second: Option<Boxed<Code>>,
}

/// A condition with its branch.
#[cycle(code)]
#[derive(Drop)]
pub struct Arm {
    pub kind: Condition,
    pub condition: Code,
    pub branch: Code,
}

/// Generators, the last the fastest, and what stands after `where`.
#[cycle(code)]
#[derive(Drop)]
pub struct Generators {
    pub list: Items<Generator>,
    pub condition: Option<Boxed<Code>>,
}

/// So many names that run through one set, each by itself. Its place is that of its first name.
#[cycle(code)]
#[derive(Drop)]
pub struct Generator {
    pub place: Place,
    pub names: usize,
    pub set: Code,
}
