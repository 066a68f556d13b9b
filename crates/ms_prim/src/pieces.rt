/// A variable, by its place among the variables, or a number.
#[derive(Clone, Copy, Debug, PartialEq, Eq, Hash)]
pub enum Part {
    V(u32),
    N(i64),
}

/// A truth variable, or its negation.
#[derive(Clone, Copy, Debug, PartialEq, Eq, Hash)]
pub struct Lit {
    pub var: u32,
    pub positive: bool,
}

/// A variable times a factor.
#[derive(Clone, Copy, Debug, PartialEq, Eq, Hash)]
pub struct Term {
    pub factor: i64,
    pub var: u32,
}

/// A comparison of two numbers.
#[derive(Clone, Copy, Debug, PartialEq, Eq, Hash)]
pub enum Cmp {
    Same,
    Other,
    AtMost,
    Less,
}

/// Whether a Boolean operation holds, or is equivalent to a truth variable.
#[derive(Clone, Copy, Debug, PartialEq, Eq, Hash)]
pub enum Tie {
    Holds,
    Iff(u32),
}
