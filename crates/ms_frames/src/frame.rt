//! What waits for an operand: a continuation of the definition of placing, as data.

use crate::held::Held;
use ms_code::{Arm, Code, Generator, Link, Reference, Row, Subscript};
use ms_num::Ranges;
use ms_operators::{Connective, Junction};
use ms_syntax::{Operator, Place, Sign};
use ms_typing::ExprType;
use ms_values::{Cells, Numbers, Operand, Pile, Shared};
use sqlite_items::Boxed;

/// How many bodies may yet be opened, and the operands of the names, the latest first.
#[derive(Drop)]
pub struct Here {
    pub calls: u64,
    pub names: Pile<Operand>,
}

/// An operand to the left of a `++`, with the place of the operator.
#[derive(Drop)]
pub struct Before {
    pub place: Place,
    pub operand: Operand,
}

/// What the elements are for, once all are placed.
#[derive(Clone, Copy)]
pub enum End<'a> {
    Array(Place),
    Set(Place),
    /// The number of rows, the width of the first, and the rows that are still to come.
    Rows(Place, usize, usize, &'a [Row]),
}

/// A name of a generator that runs through the numbers of a set: those still to come, how many further names of the same
/// generator are inside of it, and the further generators.
#[derive(Drop)]
pub struct Turn<'a> {
    pub place: Place,
    pub numbers: Numbers,
    pub set: Shared<Ranges>,
    pub names: usize,
    pub inner: &'a [Generator],
}

/// What generators make: an array, which may be a node of its own, of what is placed for each of their values.
#[derive(Clone, Copy)]
pub struct Plan<'a> {
    pub place: Place,
    pub is_node: bool,
    pub condition: Option<&'a Code>,
    pub body: &'a Code,
}

/// An array that generators make: its elements so far, whether each set had a value, and the names that run, the latest
/// first.
#[derive(Drop)]
pub struct Making<'a> {
    pub plan: Plan<'a>,
    pub cells: Cells,
    pub whole: bool,
    pub turns: Pile<Turn<'a>>,
}

/// Of a chain of operators.
#[derive(Drop)]
pub enum ChainFrame<'a> {
    /// Waits for the first operand.
    First(&'a [Link]),
    /// Waits for what the pairs so far come to.
    Pairs(&'a [Link]),
    /// Waits for the right operand of a pair.
    Right(Place, Operator, Operand, &'a [Link]),
    /// Waits for an operand of a chain of `/\` or `\/`.
    Operand(Connective, Place, Junction, &'a [Link]),
    /// Waits for an operand of `++`, behind those that are placed.
    Behind(Pile<Before>, &'a [Link]),
    /// Waits for what stands behind these operands of `++`.
    Whole(Pile<Before>),
}

/// Of subscripts.
#[derive(Drop)]
pub enum AccessFrame<'a> {
    /// Waits for an array, or for an element that is accessed in turn.
    Array(Place, &'a [Subscript]),
    /// Waits for the first index.
    First(Place, Operand, &'a Subscript, &'a [Subscript]),
    /// Waits for the second index.
    Second(Place, Boxed<Operand>, Operand, &'a [Subscript]),
}

/// Of an `if`.
#[derive(Drop)]
pub enum ChoiceFrame<'a> {
    /// Waits for a condition, with its branch, and the conditions and the branch behind it.
    Condition(&'a Arm, &'a [Arm], &'a Code),
    /// Waits for the branch of a variable condition.
    Branch(Operand, &'a [Arm], &'a Code),
    /// Waits for the other branch.
    Other(Boxed<Operand>, Operand),
}

/// Of generators.
#[derive(Drop)]
pub enum MakingFrame<'a> {
    /// Waits for the set of a generator, with the generators behind it.
    Set(Held<Making<'a>>, &'a Generator, &'a [Generator]),
    /// Waits for what stands after `where`.
    Test(Held<Making<'a>>),
    /// Waits for an element.
    Body(Held<Making<'a>>),
}

/// What waits for an operand. Rare and large parts are held elsewhere, since frames are moved at each step.
#[derive(Drop)]
pub enum Frame<'a> {
    Convert(ExprType),
    Prefix(Place, Sign),
    /// The operand is that of the node: of parentheses, of an `if` or a `let`.
    Node(Place),
    Chain(ChainFrame<'a>),
    Access(AccessFrame<'a>),
    Argument(Place, Reference, Pile<Operand>, &'a [Code]),
    Element(Boxed<End<'a>>, Held<Cells>, &'a [Code]),
    Choice(ChoiceFrame<'a>),
    /// Waits for the value of a local, with the values behind it and the body.
    Bound(&'a [Code], &'a Code),
    /// The latest name ends.
    Unbound,
    /// Waits for the body of a function.
    Return(Place, Here),
    Made(MakingFrame<'a>),
}

/// What is done next.
#[derive(Drop)]
pub enum Task<'a> {
    Enter(&'a Code),
    /// Looks a name up.
    Look(Place, Reference),
    /// Calls a function with the arguments, the last first.
    Call(Place, Reference, Pile<Operand>),
    /// Goes on with the next elements.
    Fill(Boxed<End<'a>>, Held<Cells>, &'a [Code]),
    /// Begins with the numbers of a name.
    Turn(Held<Making<'a>>, Boxed<Turn<'a>>),
    /// Goes on with an array, once all is made for a number of the latest name that runs.
    Made(Held<Making<'a>>),
    /// An operand, with the place of its node.
    Give(Place, Operand),
    Done(Place, Operand),
}
