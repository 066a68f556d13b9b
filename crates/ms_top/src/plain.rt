//! The plain form: variables with ranges of numbers, comparisons of sums, and `solve satisfy`.

use ms_syntax::Word;
use sqlite_items::Items;

/// A number as it is written, with a `-` before its digits or not.
#[derive(Clone, Copy)]
pub struct Number {
    pub negative: bool,
    pub magnitude: u64,
}

/// `var LOWEST .. HIGHEST : NAME`
#[derive(Drop)]
pub struct PlainDeclaration {
    pub lowest: Number,
    pub highest: Number,
    pub name: Word,
}

#[derive(Drop)]
pub enum Term {
    Number(Number),
    Name(Word),
}

/// Terms with `+` between them.
#[derive(Drop)]
pub struct Total {
    pub first: Term,
    pub others: Items<Term>,
}

#[derive(Clone, Copy)]
pub enum Relation {
    Equal,
    NotEqual,
    Less,
    AtMost,
    Greater,
    AtLeast,
}

/// `constraint LEFT RELATION RIGHT`
#[derive(Drop)]
pub struct Comparison {
    pub left: Total,
    pub relation: Relation,
    pub right: Total,
}

/// A model of the plain form.
#[derive(Drop)]
pub struct PlainModel {
    pub declarations: Items<PlainDeclaration>,
    pub constraints: Items<Comparison>,
}
