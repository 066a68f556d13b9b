//! Trees.

ghost use Rattle.std.specs.Prelude.{◌≡◌, IfOk, Some, option_map};
ghost use Rattle.ms_syntax.specs.Tree as tree;
ghost use Rattle.ms_syntax.specs.Tree.{binder_view, ex_view, generator_view, link_view, maybe_view};
ghost use Rattle.ms_syntax.specs.Tree.{of_membership, one_link};
ghost use Rattle.ms_syntax.specs.Gathering.{part_of};
ghost use Rattle.ms_syntax.specs.Grouping.{first_place};

use crate::names::Binders;
use crate::token::{Place, Word};
use std::alloc::{AllocError, Global};

/// What stands between two operands.
#[derive(Clone, Copy, PartialEq, Eq)]
pub enum Operator {
    /// `<->`
    Equivalent,
    /// `->`
    Implies,
    /// `<-`
    ImpliedBy,
    /// `\/`
    Or,
    /// `xor`
    Xor,
    /// `/\`
    And,
    /// `=`
    Equal,
    /// `!=`
    NotEqual,
    /// `<`
    Less,
    /// `<=`
    AtMost,
    /// `>`
    Greater,
    /// `>=`
    AtLeast,
    /// `in`
    In,
    /// `..`
    To,
    /// `+`
    Plus,
    /// `-`
    Minus,
    /// `*`
    Times,
    /// `div`
    Div,
    /// `mod`
    Mod,
    /// `++`
    Concat,
}

/// What stands before an operand.
#[derive(Clone, Copy, PartialEq, Eq)]
pub enum Sign {
    Not,
    Minus,
}

/// Whether a kind is marked as variable or as a parameter.
#[derive(Clone, Copy, PartialEq, Eq)]
pub enum Mode {
    Unmarked,
    Var,
    Par,
}

/// A name that a generator or an enumeration declares, with its place.
#[derive(Drop)]
pub struct Binder {
    pub place: Place,
    pub name: Word,
}

impl Binder {
    /// A name with its place once more.
    pub fn copy(&self, alloc: Global) -> Result<Binder, AllocError>
        ensures { IfOk result (λ copied. copied ≡ self.now) }
    {
        Ok(Binder {
            place: self.place,
            name: self.name.copy(alloc)?,
        })
    }
}

/// Expressions. The levels of operators come first, the loosest of them first; each is a first
/// operand and the operators that follow it, each with its place and its operand. Any other node
/// has the place of its first token.
#[cycle(ast)]
pub enum Expr {
    /// `let { a; b } in c`: the declarations, whether a last `;` is there, and the body.
    Let(Place, Vec<Declaration>, bool, Box<Expr>),
    /// `a <-> b`, grouped to the left.
    Equivalence(Box<Expr>, Vec<Link>),
    /// `a -> b`, `a <- b`, grouped to the left.
    Implication(Box<Expr>, Vec<Link>),
    /// `a \/ b`, `a xor b`, grouped to the left.
    Disjunction(Box<Expr>, Vec<Link>),
    /// `a /\ b`, grouped to the left.
    Conjunction(Box<Expr>, Vec<Link>),
    /// `a = b`, `a < b` and so on: one operator.
    Comparison(Box<Expr>, Box<Link>),
    /// `a in b`: one operator.
    Membership(Box<Expr>, Box<Link>),
    /// `a .. b`: one operator.
    Range(Box<Expr>, Box<Link>),
    /// `a + b`, `a - b`, grouped to the left.
    Sum(Box<Expr>, Vec<Link>),
    /// `a * b`, `a div b`, `a mod b`, grouped to the left.
    Product(Box<Expr>, Vec<Link>),
    /// `a ++ b`, grouped to the right.
    Concatenation(Box<Expr>, Vec<Link>),
    /// `not a`, `-a`
    Prefix(Place, Sign, Box<Expr>),
    /// `a[i]`, `a[i, j]`, `a[i][j]`: the array and one subscript or more.
    Access(Place, Box<Expr>, Vec<Subscript>),
    Number(Place, u64),
    Text(Place, Word),
    /// `true`, `false`
    Truth(Place, bool),
    Name(Place, Word),
    /// `f(a, b)`
    Call(Place, Word, Vec<Expr>),
    /// `f(i in s where c)(e)`
    GeneratorCall(Place, Word, Generators, Box<Expr>),
    Parenthesis(Place, Box<Expr>),
    /// `[a, b]`
    Array(Place, Vec<Expr>),
    /// `[e | i in s where c]`
    Comprehension(Place, Box<Expr>, Generators),
    /// `[| a, b | c, d |]`
    Rows(Place, Vec<Row>),
    /// `{a, b}`
    Set(Place, Vec<Expr>),
    /// The condition, its branch, the further conditions with theirs, and the last branch.
    If(Place, Box<Expr>, Box<Expr>, Vec<Arm>, Box<Expr>),
}

// Written out, as for the other large types below, so that code that drops an expression has one
// call there. A derived one would put a match over each variant at each such place of every crate,
// also where a part or a declaration that holds an expression is dropped.
impl Drop for Expr {
    #[cycle(free)]
    fn drop(self) {
        match self {
            Expr::Let(_, _, _, _) => {}
            Expr::Equivalence(_, _) => {}
            Expr::Implication(_, _) => {}
            Expr::Disjunction(_, _) => {}
            Expr::Conjunction(_, _) => {}
            Expr::Comparison(_, _) => {}
            Expr::Membership(_, _) => {}
            Expr::Range(_, _) => {}
            Expr::Sum(_, _) => {}
            Expr::Product(_, _) => {}
            Expr::Concatenation(_, _) => {}
            Expr::Prefix(_, _, _) => {}
            Expr::Access(_, _, _) => {}
            Expr::Number(_, _) => {}
            Expr::Text(_, _) => {}
            Expr::Truth(_, _) => {}
            Expr::Name(_, _) => {}
            Expr::Call(_, _, _) => {}
            Expr::GeneratorCall(_, _, _, _) => {}
            Expr::Parenthesis(_, _) => {}
            Expr::Array(_, _) => {}
            Expr::Comprehension(_, _, _) => {}
            Expr::Rows(_, _) => {}
            Expr::Set(_, _) => {}
            Expr::If(_, _, _, _, _) => {}
        }
    }
}

impl Expr {
    /// A name that is said to be in a set, with the set.
    fn member(self, link: Link) -> Option<(Binder, Option<Expr>)>
        ensures { option_map (λ r. (binder_view r.0, maybe_view r.1)) result
            ≡ part_of (tree.chain of_membership (ex_view self) (one_link (link_view link))) }
    {
        match self {
            Expr::Name(place, name) => match link.operator {
                Operator::In => Some((Binder { place, name }, Some(link.operand))),
                _ => None,
            },
            _ => None,
        }
    }

    /// The name that an expression adds to generators, and the set with which it ends one.
    pub fn part(self) -> Option<(Binder, Option<Expr>)>
        ensures { option_map (λ r. (binder_view r.0, maybe_view r.1)) result
            ≡ part_of (ex_view self) }
    {
        match self {
            Expr::Name(place, name) => Some((Binder { place, name }, None)),
            Expr::Membership(first, link) => Box::into_inner(first).member(Box::into_inner(link)),
            _ => None,
        }
    }
}

/// An operator, with its place and its right operand.
#[cycle(ast)]
#[derive(Drop)]
pub struct Link {
    pub operator: Operator,
    pub place: Place,
    pub operand: Expr,
}

/// `elseif condition then branch`
#[cycle(ast)]
#[derive(Drop)]
pub struct Arm {
    pub condition: Expr,
    pub branch: Expr,
}

/// A row of an array of two dimensions, with one element or more.
#[cycle(ast)]
#[derive(Drop)]
pub struct Row {
    pub elements: Vec<Expr>,
}

/// `[first]` or `[first, second]`
#[cycle(ast)]
#[derive(Drop)]
pub struct Subscript {
    pub first: Expr,
    pub second: Option<Expr>,
}

/// One generator or more, and what stands after `where`.
#[cycle(ast)]
#[derive(Drop)]
pub struct Generators {
    pub list: Vec<Generator>,
    pub condition: Option<Box<Expr>>,
}

/// `i, j in set`: one name or more. Its place is that of its first name.
#[cycle(ast)]
#[derive(Drop)]
pub struct Generator {
    pub names: Binders,
    pub set: Expr,
}

impl Generator {
    pub fn place(&self) -> Place
        ensures { Some result ≡ first_place (generator_view self.now).0 }
    {
        self.names.place()
    }
}

/// `kind: name :: notes = value`
#[cycle(ast)]
pub struct Declaration {
    pub place: Place,
    pub kind: Kind,
    pub name: Word,
    pub notes: Vec<Note>,
    pub value: Option<Expr>,
}

impl Drop for Declaration {
    #[cycle(free)]
    fn drop(self) {
        let Declaration {
            place: _,
            kind: _,
            name: _,
            notes: _,
            value: _,
        } = self;
    }
}

/// What a declaration says of its name. `indices` has one or two index sets for an array, and else
/// none.
#[cycle(ast)]
pub struct Kind {
    pub indices: Vec<Index>,
    pub mode: Mode,
    pub base: Base,
}

impl Drop for Kind {
    #[cycle(free)]
    fn drop(self) {
        let Kind {
            indices: _,
            mode: _,
            base: _,
        } = self;
    }
}

#[cycle(ast)]
pub enum Base {
    Bool,
    Int,
    String,
    Ann,
    SetOfInt,
    SetOf(Expr),
    /// The values of a set.
    Within(Expr),
}

impl Drop for Base {
    #[cycle(free)]
    fn drop(self) {
        match self {
            Base::Bool => {}
            Base::Int => {}
            Base::String => {}
            Base::Ann => {}
            Base::SetOfInt => {}
            Base::SetOf(_) => {}
            Base::Within(_) => {}
        }
    }
}

/// An index set of an array.
#[cycle(ast)]
#[derive(Drop)]
pub enum Index {
    AnyInt,
    Over(Expr),
}

/// `:: name` or `:: name(arguments)`: no arguments where no brackets stand. Its place is that of
/// its `::`.
#[cycle(ast)]
#[derive(Drop)]
pub struct Note {
    pub place: Place,
    pub name: Word,
    pub arguments: Vec<Expr>,
}

/// A parameter of a predicate or function.
#[derive(Drop)]
pub struct Parameter {
    pub place: Place,
    pub kind: Kind,
    pub name: Word,
}

/// What a solve item asks for.
#[derive(Drop)]
pub enum Goal {
    Satisfy(Place),
    Minimize(Place, Expr),
    Maximize(Place, Expr),
    Search(Place, Expr),
}

/// Items, each with the place of its first token.
pub enum Item {
    Include(Place, Word),
    Declare(Declaration),
    /// An enumeration, and its names where they are given.
    Enum(Place, Word, Option<Vec<Binder>>),
    Assign(Place, Word, Expr),
    Constraint(Place, Expr, Vec<Note>),
    Solve(Place, Vec<Note>, Goal),
    Output(Place, Expr),
    Predicate(Place, Word, Vec<Parameter>, Expr),
    Function(Place, Kind, Word, Vec<Parameter>, Expr),
}

impl Drop for Item {
    fn drop(self) {
        match self {
            Item::Include(_, _) => {}
            Item::Declare(_) => {}
            Item::Enum(_, _, _) => {}
            Item::Assign(_, _, _) => {}
            Item::Constraint(_, _, _) => {}
            Item::Solve(_, _, _) => {}
            Item::Output(_, _) => {}
            Item::Predicate(_, _, _, _) => {}
            Item::Function(_, _, _, _, _) => {}
        }
    }
}

/// A model or a library.
#[derive(Drop)]
pub struct Tree {
    pub items: Vec<Item>,
    /// Whether the last `;` is there.
    pub closed: bool,
}

/// `name = value`
#[derive(Drop)]
pub struct Assignment {
    pub place: Place,
    pub name: Word,
    pub value: Expr,
}

/// Data.
#[derive(Drop)]
pub struct Assignments {
    pub list: Vec<Assignment>,
    /// Whether the last `;` is there.
    pub closed: bool,
}
