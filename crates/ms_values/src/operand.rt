ghost use Rattle.std.specs.Prelude.{◌≡◌, IfOk};
ghost use Rattle.ms_values.specs.declared.operand.Operand.TheVariants as o;

use crate::elements::Elements;
use crate::narrow::Narrow;
use crate::shared::Shared;
use ms_base::Bytes;
use ms_num::Ranges;
use ms_trees::{Enclosure, Ground};
use sqlite_items::Boxed;
use std::alloc::{AllocError, Global};

/// A tree, with what it may mean on the declared sets, its size and its nesting. These two stand still at the end of their
/// type.
#[derive(Drop)]
pub struct Placed {
    pub tree: Boxed<Ground>,
    pub enclosure: Enclosure,
    pub size: u64,
    pub nesting: u64,
}

impl Placed {
    pub fn copy(&self, alloc: Global) -> Result<Placed, AllocError>
        ensures { IfOk result (λ copied. copied ≡ self.now) }
    {
        Ok(Placed {
            tree: Boxed::new(alloc, self.tree.get().copy(alloc)?)?,
            enclosure: self.enclosure,
            size: self.size,
            nesting: self.nesting,
        })
    }
}

/// What the elements of an array are.
#[derive(Clone, Copy, PartialEq, Eq)]
pub enum Kind {
    /// Known integers.
    Number,
    /// Known Booleans.
    Truth,
    /// Strings.
    Text,
    /// Variable integers.
    Integer,
    /// Variable Booleans.
    Condition,
}

/// The elements of an array, by what they are. An element that is known and has no value is `None`; a known Boolean
/// without a value is false.
#[derive(Drop)]
pub enum Cells {
    Numbers(Elements<Option<Narrow>>),
    Truths(Elements<bool>),
    Texts(Elements<Option<Shared<Bytes>>>),
    Integers(Elements<Placed>),
    Conditions(Elements<Placed>),
}

/// So many indices, from the lowest on. The lowest is 1 where there are none, and the count stands still at the end of
/// its type.
#[derive(Clone, Copy)]
pub struct IndexRange {
    pub low: Narrow,
    pub count: u32,
}

/// How the elements of an array are indexed.
#[derive(Clone, Copy)]
pub enum Indices {
    /// One dimension, by its lowest index; there are as many as elements. It is 1 where there are none.
    Line(Narrow),
    /// Two dimensions, of rows and columns. The elements stand row by row.
    Grid(IndexRange, IndexRange),
}

#[derive(Drop)]
pub struct Array {
    pub indices: Indices,
    pub cells: Cells,
}

/// What a part of an expression comes to.
#[derive(Drop)]
pub enum Operand {
    /// A known integer; `None` where it has no value, here and below.
    Number(Option<Narrow>),
    /// A known Boolean.
    Truth(bool),
    Set(Option<Shared<Ranges>>),
    Text(Option<Shared<Bytes>>),
    /// A variable integer.
    Integer(Placed),
    /// A variable Boolean.
    Condition(Placed),
    Array(Shared<Array>),
    /// An array, with such elements, that is undefined as a whole.
    NoArray(Kind),
}

impl Operand {
    /// The same operand once more: a tree is copied, and a set, a string or an array has one more owner.
    pub fn share(&self, alloc: Global) -> Result<Operand, AllocError>
        ensures { IfOk result (λ shared. shared ≡ self.now) }
    {
        match self {
            Operand::Number(n) => Ok(Operand::Number(*n)),
            Operand::Truth(b) => Ok(Operand::Truth(*b)),
            Operand::Set(set) => share_set(set),
            Operand::Text(text) => share_text(text),
            Operand::Integer(x) => Ok(Operand::Integer(x.copy(alloc)?)),
            Operand::Condition(x) => Ok(Operand::Condition(x.copy(alloc)?)),
            Operand::Array(array) => Ok(Operand::Array(array.share()?)),
            Operand::NoArray(kind) => Ok(Operand::NoArray(*kind)),
        }
    }
}

fn share_set(set: &Option<Shared<Ranges>>) -> Result<Operand, AllocError>
    ensures { IfOk result (λ shared. shared ≡ o.Set set.now) }
{
    match set {
        Some(set) => Ok(Operand::Set(Some(set.share()?))),
        None => Ok(Operand::Set(None)),
    }
}

fn share_text(text: &Option<Shared<Bytes>>) -> Result<Operand, AllocError>
    ensures { IfOk result (λ shared. shared ≡ o.Text text.now) }
{
    match text {
        Some(text) => Ok(Operand::Text(Some(text.share()?))),
        None => Ok(Operand::Text(None)),
    }
}
