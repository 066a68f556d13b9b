//! The levels of operators.

ghost use Rattle.std.specs.Prelude.{◌≡◌, ◌<◌};
ghost use Rattle.ms_cursor.specs.Level.{tighter, operands_of, is_single};

/// A level of operators, which bind the looser the later they come.
#[derive(Clone, Copy)]
pub enum Level {
    /// `++`
    Concatenation,
    /// `*`, `div`, `mod`
    Product,
    /// `+`, `-`
    Sum,
    /// `..`
    Range,
    /// `in`
    Membership,
    /// `=`, `<` and so on
    Comparison,
    /// `/\`
    Conjunction,
    /// `\/`, `xor`
    Disjunction,
    /// `->`, `<-`
    Implication,
    /// `<->`
    Equivalence,
}

impl Level {
    /// How many levels bind tighter.
    pub fn tighter(self) -> u8
        ensures value { result ≡ tighter self }
        ensures within { result < 10 }
    {
        match self {
            Level::Concatenation => 0,
            Level::Product => 1,
            Level::Sum => 2,
            Level::Range => 3,
            Level::Membership => 4,
            Level::Comparison => 5,
            Level::Conjunction => 6,
            Level::Disjunction => 7,
            Level::Implication => 8,
            Level::Equivalence => 9,
        }
    }

    /// The level than which so many bind tighter.
    pub fn above(count: u8) -> Level
        requires { count < 10 }
        ensures { tighter result ≡ count }
    {
        match count {
            0 => Level::Concatenation,
            1 => Level::Product,
            2 => Level::Sum,
            3 => Level::Range,
            4 => Level::Membership,
            5 => Level::Comparison,
            6 => Level::Conjunction,
            7 => Level::Disjunction,
            8 => Level::Implication,
            _ => Level::Equivalence,
        }
    }

    /// Whether its operators do not group, so that one of them stands at most.
    pub fn is_single(self) -> bool
        ensures { result ≡ is_single (operands_of self) }
    {
        matches!(self, Level::Range | Level::Membership | Level::Comparison)
    }
}
