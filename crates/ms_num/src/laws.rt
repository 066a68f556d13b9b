ghost use Rattle.ms_num.specs.Laws.{DivisionCutsTowardZero, OnlyZeroDoesNotDivide, SameMembersSameRanges, IntervalsAreLeast, CutsAreOne, CutIsCut};

/// What `div` and `mod` are, as the MiniZinc Handbook has them: the quotient is cut toward zero, and the
/// remainder has the sign of the dividend. It does nothing.
pub fn division_law()
    ensures cut { DivisionCutsTowardZero }
    ensures undefined { OnlyZeroDoesNotDivide }
{}

/// Two sets with the same numbers are equal. It does nothing.
pub fn set_law()
    ensures { SameMembersSameRanges }
{}

/// Each operation gives the least interval of its results, on any two intervals that are not empty, within the
/// limits or not; of remainders an interval that has them. It does nothing.
pub fn interval_law()
    ensures { IntervalsAreLeast }
{}

/// A set has one cut, and it is the one that `cut_set` computes. It does nothing.
pub fn cut_law()
    ensures one { CutsAreOne }
    ensures computed { CutIsCut }
{}
