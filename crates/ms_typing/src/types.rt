//! Types, and why an expression has none.

/// What a single value, or an element of an array, is.
#[derive(Clone, Copy, PartialEq, Eq)]
pub enum Scalar {
    /// A Boolean.
    Truth,
    /// An integer.
    Number,
    /// The element of an array without elements, which may stand for any other.
    Empty,
}

/// How many values there are, and how they are indexed.
#[derive(Clone, Copy, PartialEq, Eq)]
pub enum Shape {
    /// One value.
    Single,
    /// An array of one dimension.
    Line,
    /// An array of two dimensions.
    Grid,
}

/// A type. Each value of this enum is one, and no type has two.
#[derive(Clone, Copy, PartialEq, Eq)]
pub enum ExprType {
    /// Booleans or integers: whether their values are known before the search is the last field.
    Plain(Scalar, Shape, bool),
    /// Strings, which are known.
    Text(Shape),
    /// A known set of integers.
    Set,
    /// A search.
    Search,
}

/// Why a node has no type, though each part of it has one. Of several causes the first one counts.
#[derive(Clone, Copy, PartialEq, Eq)]
pub enum Cause {
    /// A name that stands for nothing.
    Unknown,
    /// A number of arguments or indices that no form of the name takes.
    Arity,
    /// A kind, a declaration or an item that is not supported.
    Unsupported,
    /// It would have a type if the parts that are variable were known.
    NotKnown,
    /// Anything else.
    Mismatch,
}

/// Where an expression stands.
#[derive(Clone, Copy, PartialEq, Eq)]
pub enum Surroundings {
    /// In a constraint, a declaration, an objective, or the body of a function that is no search.
    Model,
    /// In a search: `solve search`, or the body of a function with result `ann`.
    Search,
    /// In an output item, where every value is known.
    Output,
    /// In the body of a function that an output item calls: as in a model, with every value known.
    Called,
    /// In a value of a data file.
    Data,
}
