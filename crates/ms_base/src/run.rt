/// How a run ended, by its end state.
#[derive(Clone, Copy, Debug, PartialEq, Eq)]
pub enum Closing {
    /// No assignment meets the model.
    Unsatisfiable,
    /// Each assignment that meets the constraints at the end was given.
    Complete,
    /// A limit was reached, and no solution was printed.
    Unknown,
    /// A limit was reached, and some solution was printed.
    Stopped,
    /// The search ended by itself and printed no solution.
    Ended,
    /// The search ended by itself after it printed a solution.
    Plain,
}

/// What a limit counts.
#[derive(Clone, Copy, Debug, PartialEq, Eq)]
pub enum LimitKind {
    Nodes,
    Steps,
    Depth,
}

/// A limit that was reached, with its number.
#[derive(Clone, Copy, Debug, PartialEq, Eq)]
pub struct Limit {
    pub kind: LimitKind,
    pub number: u64,
}

/// The limits that a run is given: how many nodes and how many steps it may spend.
#[derive(Clone, Copy, Debug, PartialEq, Eq)]
pub struct Limits {
    pub nodes: u64,
    pub steps: u64,
}

/// What there is too much of where an input is refused as too big.
#[derive(Clone, Copy, Debug, PartialEq, Eq)]
pub enum Count {
    /// Scalar variables.
    Variables,
    /// Elements of an array, or ranges of a set.
    Elements,
    /// Nodes of the ground trees that constrain a scope.
    Nodes,
    /// Steps of one evaluation.
    Steps,
    /// How deep a ground tree nests, or calls that are open in an evaluation.
    Nesting,
    /// Nodes of the ground trees in the arguments of a call of a search.
    Arguments,
}
