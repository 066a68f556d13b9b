/// How the operands of a chain of operators go together.
#[derive(Clone, Copy, Debug, PartialEq, Eq)]
pub enum Grouping {
    /// In pairs, to the left.
    Left,
    /// In pairs, to the right, once all are placed: a chain of `++`.
    Right,
    /// All in one conjunction: a chain of `/\`.
    Conjunction,
    /// All in one disjunction: a chain of `\/` alone.
    Disjunction,
}
