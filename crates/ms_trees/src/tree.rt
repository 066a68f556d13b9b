use crate::table::Rows;
use ms_num::{Iv, Ranges};
use sqlite_items::{Boxed, Items};

/// A list of trees.
pub type Trees = Items<Ground>;

/// A tree over the variables of an instance: an integer tree or a Boolean one.
///
/// A variable is its place among the variables, from 0.
#[derive(Drop)]
pub enum Ground {
    Num(i64),
    /// The undefined integer.
    Undef,
    Var(u32),
    Add(Boxed<Ground>, Boxed<Ground>),
    Sub(Boxed<Ground>, Boxed<Ground>),
    Mul(Boxed<Ground>, Boxed<Ground>),
    /// Cut toward zero; undefined where the divisor is 0.
    Div(Boxed<Ground>, Boxed<Ground>),
    /// `a - b * (a div b)`, undefined where b is 0.
    Mod(Boxed<Ground>, Boxed<Ground>),
    Neg(Boxed<Ground>),
    Abs(Boxed<Ground>),
    Sum(Items<Ground>),
    /// The least number of the list; undefined where it is empty.
    Least(Items<Ground>),
    /// The greatest number of the list; undefined where it is empty.
    Greatest(Items<Ground>),
    /// 1 where the Boolean tree is true, else 0.
    ToInt(Boxed<Ground>),
    /// Lowest index, elements and index: the element of that index alone, undefined where there is none.
    Elem(i64, Items<Ground>, Boxed<Ground>),
    /// Lowest index of the rows and of the columns, width, elements row by row, and the two indices: the element of
    /// that row and column alone, undefined where there is none. Elements behind the last whole row have no index.
    Elem2(i64, i64, u32, Items<Ground>, Boxed<Ground>, Boxed<Ground>),
    /// How many of the list are the second number.
    Count(Items<Ground>, Boxed<Ground>),
    /// Condition, `then` and `else`: the taken branch alone.
    IteI(Boxed<Ground>, Boxed<Ground>, Boxed<Ground>),
    True,
    False,
    /// True where the variable, whose numbers are 0 or 1 alone, is 1.
    BVar(u32),
    And(Items<Ground>),
    Or(Items<Ground>),
    Not(Boxed<Ground>),
    Iff(Boxed<Ground>, Boxed<Ground>),
    Imp(Boxed<Ground>, Boxed<Ground>),
    Xor(Boxed<Ground>, Boxed<Ground>),
    /// False where a part is undefined, as each comparison.
    Eq(Boxed<Ground>, Boxed<Ground>),
    Ne(Boxed<Ground>, Boxed<Ground>),
    Lt(Boxed<Ground>, Boxed<Ground>),
    Le(Boxed<Ground>, Boxed<Ground>),
    /// Condition, `then` and `else`: the taken branch alone.
    IteB(Boxed<Ground>, Boxed<Ground>, Boxed<Ground>),
    /// The number lies in the set.
    In(Boxed<Ground>, Ranges),
    /// Each part is a number, and no two are the same.
    AllDiff(Items<Ground>),
    /// The parts are the numbers of one of the rows.
    Table(Items<Ground>, Rows),
}

/// What a tree may mean on the assignments of a box: an interval that has its numbers, if any, and whether it may be
/// undefined; or its truth values.
#[derive(Clone, Copy)]
pub struct Enclosure {
    pub interval: Option<Iv>,
    pub may_be_undefined: bool,
    pub may_be_true: bool,
    pub may_be_false: bool,
}

/// What a tree may mean on the assignments of a box.
///
/// An integer tree: it may be a number of `lo..hi` where `may_be_defined`, and it may be undefined. A Boolean
/// tree: it may be true, and it may be false. What does not apply is 0 and false.
#[derive(Clone, Copy, Debug)]
pub struct Hull {
    pub lo: i64,
    pub hi: i64,
    pub may_be_defined: bool,
    pub may_be_undefined: bool,
    pub may_be_true: bool,
    pub may_be_false: bool,
}
