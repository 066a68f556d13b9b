//! Each kind's value, with defined and undefined parts, and its hull.

ghost use Rattle.std.specs.Prelude.{◌≡◌};
ghost use Rattle.ms_num.specs.Span.{point};

use crate::{Both, List, One, Postfix, tree};
use ms_ground::{
    Branching, Ground, Order, Rows, ValueChoice, copy_trees, holds, hull, hull_laws,
    is_well_formed, membership_law, nesting, room_law, size, value_at,
};
use ms_num::Iv;
use sqlite_items::{Boxed, Items};
use std::alloc::{AllocError, Global};
use std::process::Abort;
use std::test::Fail;

pub const X: Postfix = Postfix::Var(0);

pub const Y: Postfix = Postfix::Var(1);

const B: Postfix = Postfix::BVar(2);

pub const ADD: Postfix = Postfix::Both(Both::Add);

pub const SUB: Postfix = Postfix::Both(Both::Sub);

pub const MUL: Postfix = Postfix::Both(Both::Mul);

pub const DIV: Postfix = Postfix::Both(Both::Div);

pub const MOD: Postfix = Postfix::Both(Both::Mod);

const IFF: Postfix = Postfix::Both(Both::Iff);

const IMP: Postfix = Postfix::Both(Both::Imp);

const XOR: Postfix = Postfix::Both(Both::Xor);

pub const EQ: Postfix = Postfix::Both(Both::Eq);

pub const NE: Postfix = Postfix::Both(Both::Ne);

pub const LT: Postfix = Postfix::Both(Both::Lt);

pub const LE: Postfix = Postfix::Both(Both::Le);

pub const NEG: Postfix = Postfix::One(One::Neg);

const ABS: Postfix = Postfix::One(One::Abs);

pub const TO_INT: Postfix = Postfix::One(One::ToInt);

pub const NOT: Postfix = Postfix::One(One::Not);

const IN: Postfix = Postfix::One(One::In);

const UNDEF: Postfix = Postfix::Undef;

/// The number on the point, unless it is undefined, where the tree may be asked there.
pub fn number_at(g: &Ground, x: i16, y: i16, b: i16) -> Option<Option<i64>> {
    let sets = [single(x), single(y), single(b)];
    let point = [i64::from(x), i64::from(y), i64::from(b)];
    if is_well_formed(g, &sets) {
        Some(value_at(g, &point))
    } else {
        None
    }
}

/// The truth value on the point, where the tree may be asked there.
pub fn truth_at(g: &Ground, x: i16, y: i16, b: i16) -> Option<bool> {
    let sets = [single(x), single(y), single(b)];
    let point = [i64::from(x), i64::from(y), i64::from(b)];
    if is_well_formed(g, &sets) {
        Some(holds(g, &point))
    } else {
        None
    }
}

fn single(number: i16) -> Iv
    ensures { result ≡ point number }
{
    Iv::single(i64::from(number))
}

/// An interval, if any, and whether the tree may be undefined.
pub type Numbers = (Option<(i64, i64)>, bool);

fn numbers_on(g: &Ground, sets: &[Iv]) -> Option<Numbers> {
    if !is_well_formed(g, sets) {
        return None;
    }
    let h = hull(g, sets);
    let interval = if h.may_be_defined {
        Some((h.lo, h.hi))
    } else {
        None
    };
    Some((interval, h.may_be_undefined))
}

/// The truth values that may come.
fn truths_text(g: &Ground, sets: &[Iv]) -> &'static str {
    if !is_well_formed(g, sets) {
        return "not fit";
    }
    let h = hull(g, sets);
    match (h.may_be_true, h.may_be_false) {
        (true, true) => "tf",
        (true, false) => "t",
        (false, true) => "f",
        (false, false) => "",
    }
}

fn truth_text(truth: Option<bool>) -> &'static str {
    match truth {
        Some(true) => "t",
        Some(false) => "f",
        None => "not fit",
    }
}

// The box of the tables: x in 1..3, y in -1..2 and the Boolean variable. The points are 1, -1, false; 2, 0, true;
// and 3, 2, true. The quotient of x and y is -1, undefined, and 1 there.
pub fn table_box() -> [Iv; 3] {
    [Iv::new(1, 3), Iv::new(-1, 2), Iv::new(0, 1)]
}

pub const NUMBERS: [(&[Postfix], Numbers, [Option<i64>; 3]); 34] = [
    (
        &[Postfix::Num(7)],
        (Some((7, 7)), false),
        [Some(7), Some(7), Some(7)],
    ),
    (&[UNDEF], (None, true), [None, None, None]),
    (&[X], (Some((1, 3)), false), [Some(1), Some(2), Some(3)]),
    (
        &[X, Y, ADD],
        (Some((0, 5)), false),
        [Some(0), Some(2), Some(5)],
    ),
    (
        &[X, Y, DIV, Y, ADD],
        (Some((-4, 5)), true),
        [Some(-2), None, Some(3)],
    ),
    (
        &[X, Y, SUB],
        (Some((-1, 4)), false),
        [Some(2), Some(2), Some(1)],
    ),
    (&[X, UNDEF, SUB], (None, true), [None, None, None]),
    (
        &[X, Y, MUL],
        (Some((-3, 6)), false),
        [Some(-1), Some(0), Some(6)],
    ),
    (
        &[X, Y, DIV, Y, MUL],
        (Some((-6, 6)), true),
        [Some(1), None, Some(2)],
    ),
    (
        &[X, Y, DIV],
        (Some((-3, 3)), true),
        [Some(-1), None, Some(1)],
    ),
    (
        &[Postfix::Num(-7), Postfix::Num(2), DIV],
        (Some((-3, -3)), false),
        [Some(-3), Some(-3), Some(-3)],
    ),
    (&[X, Postfix::Num(0), DIV], (None, true), [None, None, None]),
    (
        &[Y, X, MOD],
        (Some((-1, 2)), false),
        [Some(0), Some(0), Some(2)],
    ),
    (
        &[Postfix::Num(-7), Postfix::Num(2), MOD],
        (Some((-1, -1)), false),
        [Some(-1), Some(-1), Some(-1)],
    ),
    (&[X, Y, MOD], (Some((0, 1)), true), [Some(0), None, Some(1)]),
    (
        &[Y, NEG],
        (Some((-2, 1)), false),
        [Some(1), Some(0), Some(-2)],
    ),
    (
        &[Y, ABS],
        (Some((0, 2)), false),
        [Some(1), Some(0), Some(2)],
    ),
    (
        &[X, Y, DIV, ABS],
        (Some((0, 3)), true),
        [Some(1), None, Some(1)],
    ),
    (
        &[X, Y, Postfix::Num(1), Postfix::All(List::Sum, 3)],
        (Some((1, 6)), false),
        [Some(1), Some(3), Some(6)],
    ),
    (
        &[X, Y, DIV, X, Postfix::All(List::Sum, 2)],
        (Some((-2, 6)), true),
        [Some(0), None, Some(4)],
    ),
    (
        &[Postfix::All(List::Sum, 0)],
        (Some((0, 0)), false),
        [Some(0), Some(0), Some(0)],
    ),
    (
        &[X, Y, Postfix::All(List::Least, 2)],
        (Some((-1, 2)), false),
        [Some(-1), Some(0), Some(2)],
    ),
    (
        &[Postfix::All(List::Least, 0)],
        (None, true),
        [None, None, None],
    ),
    (
        &[X, Y, Postfix::All(List::Greatest, 2)],
        (Some((1, 3)), false),
        [Some(1), Some(2), Some(3)],
    ),
    (
        &[X, Y, DIV, X, Postfix::All(List::Greatest, 2)],
        (Some((1, 3)), true),
        [Some(1), None, Some(3)],
    ),
    (
        &[B, TO_INT],
        (Some((0, 1)), false),
        [Some(0), Some(1), Some(1)],
    ),
    (
        &[X, Y, DIV, Postfix::Num(1), EQ, TO_INT],
        (Some((0, 1)), false),
        [Some(0), Some(0), Some(1)],
    ),
    (
        &[
            Postfix::Num(10),
            X,
            Y,
            DIV,
            Postfix::Num(30),
            X,
            Postfix::Elem(1, 3),
        ],
        (Some((-3, 30)), true),
        [Some(10), None, Some(30)],
    ),
    (
        &[UNDEF, Postfix::Num(5), X, Postfix::Elem(0, 2)],
        (Some((5, 5)), true),
        [Some(5), None, None],
    ),
    (
        &[
            Postfix::Num(1),
            Postfix::Num(2),
            Postfix::Num(3),
            Postfix::Num(4),
            Postfix::Num(5),
            X,
            B,
            TO_INT,
            Postfix::Elem2(1, 0, 2, 5),
        ],
        (Some((1, 4)), true),
        [Some(1), Some(4), None],
    ),
    (
        &[X, Y, Postfix::Num(2), Postfix::Num(2), Postfix::Count(3)],
        (Some((1, 3)), false),
        [Some(1), Some(2), Some(2)],
    ),
    (
        &[X, Y, DIV, Postfix::Num(1), Postfix::Count(1)],
        (Some((0, 1)), true),
        [Some(0), None, Some(1)],
    ),
    (
        &[B, X, Y, DIV, X, Postfix::IteI],
        (Some((-3, 3)), true),
        [Some(1), None, Some(1)],
    ),
    (
        &[Postfix::True, X, UNDEF, Postfix::IteI],
        (Some((1, 3)), false),
        [Some(1), Some(2), Some(3)],
    ),
];

fn numbers_are(rt: &impl Abort, g: &Ground, want: Numbers, values: [Option<i64>; 3]) {
    assert_eq!(rt; numbers_on(g, &table_box()), Some(want));
    let [first, second, third] = values;
    assert_eq!(rt; number_at(g, 1, -1, 0), Some(first));
    assert_eq!(rt; number_at(g, 2, 0, 1), Some(second));
    assert_eq!(rt; number_at(g, 3, 2, 1), Some(third));
}

#[test]
fn numbers_of_each_kind(rt: HostRuntime) -> Result<(), Fail> {
    for (words, want, values) in NUMBERS {
        let g = tree(rt.alloc(), words)?.expect(&rt, "a tree");
        numbers_are(&rt, &g, want, values);
    }
    Ok(())
}

pub const TRUTHS: [(&[Postfix], &str, [&str; 3]); 36] = [
    (&[Postfix::True], "t", ["t", "t", "t"]),
    (&[Postfix::False], "f", ["f", "f", "f"]),
    (&[B], "tf", ["f", "t", "t"]),
    (
        &[B, X, Postfix::Num(2), LE, Postfix::All(List::And, 2)],
        "tf",
        ["f", "t", "f"],
    ),
    (&[Postfix::All(List::And, 0)], "t", ["t", "t", "t"]),
    (
        &[B, X, Postfix::Num(2), LE, Postfix::All(List::Or, 2)],
        "tf",
        ["t", "t", "t"],
    ),
    (
        &[B, Postfix::False, Postfix::All(List::Or, 2)],
        "tf",
        ["f", "t", "t"],
    ),
    (&[Postfix::All(List::Or, 0)], "f", ["f", "f", "f"]),
    (
        &[X, Y, DIV, Postfix::Num(1), EQ, NOT],
        "tf",
        ["t", "t", "f"],
    ),
    (&[B, Postfix::True, IFF], "tf", ["f", "t", "t"]),
    (&[B, Postfix::False, IMP], "tf", ["t", "f", "f"]),
    (&[B, Postfix::True, XOR], "tf", ["t", "f", "f"]),
    (&[X, Postfix::Num(2), EQ], "tf", ["f", "t", "f"]),
    (&[X, Y, DIV, X, Y, DIV, EQ], "tf", ["t", "f", "t"]),
    (
        &[Postfix::Num(2), Postfix::Num(2), EQ],
        "t",
        ["t", "t", "t"],
    ),
    (&[X, Y, NE], "tf", ["t", "t", "t"]),
    (&[X, Y, DIV, Postfix::Num(9), NE], "tf", ["t", "f", "t"]),
    (&[X, Postfix::Num(9), NE], "t", ["t", "t", "t"]),
    (&[Y, X, LT], "tf", ["t", "t", "t"]),
    (&[X, Y, DIV, Postfix::Num(9), LT], "tf", ["t", "f", "t"]),
    (&[X, Postfix::Num(3), LE], "t", ["t", "t", "t"]),
    (&[Postfix::Num(4), X, LE], "f", ["f", "f", "f"]),
    (
        &[
            B,
            X,
            Y,
            DIV,
            Postfix::Num(1),
            EQ,
            Postfix::True,
            Postfix::IteB,
        ],
        "tf",
        ["t", "f", "t"],
    ),
    (&[X, IN], "tf", ["f", "t", "t"]),
    (&[Postfix::Num(2), IN], "t", ["t", "t", "t"]),
    (&[X, Y, DIV, IN], "tf", ["f", "f", "f"]),
    (
        &[X, Y, Postfix::All(List::AllDiff, 2)],
        "tf",
        ["t", "t", "t"],
    ),
    (&[X, Postfix::All(List::AllDiff, 1)], "t", ["t", "t", "t"]),
    (
        &[X, Y, DIV, Postfix::All(List::AllDiff, 1)],
        "tf",
        ["t", "f", "t"],
    ),
    (
        &[
            Postfix::Num(1),
            Postfix::Num(1),
            Postfix::All(List::AllDiff, 2),
        ],
        "f",
        ["f", "f", "f"],
    ),
    (
        &[
            B,
            TO_INT,
            B,
            TO_INT,
            B,
            TO_INT,
            Postfix::All(List::AllDiff, 3),
        ],
        "f",
        ["f", "f", "f"],
    ),
    (&[X, Y, Postfix::All(List::Table, 2)], "tf", ["t", "f", "t"]),
    (
        &[
            Postfix::Num(3),
            Postfix::Num(2),
            Postfix::All(List::Table, 2),
        ],
        "t",
        ["t", "t", "t"],
    ),
    (
        &[X, X, Y, DIV, Postfix::All(List::Table, 2)],
        "tf",
        ["t", "f", "f"],
    ),
    (
        &[
            Postfix::Num(3),
            Postfix::Num(3),
            Postfix::All(List::Table, 2),
        ],
        "f",
        ["f", "f", "f"],
    ),
    (
        &[Postfix::Num(1), Postfix::All(List::Table, 1)],
        "f",
        ["f", "f", "f"],
    ),
];

fn truths_are(
    rt: &impl Abort,
    alloc: Global,
    words: &[Postfix],
    want: &str,
    values: [&str; 3],
) -> Result<(), AllocError> {
    let g = tree(alloc, words)?.expect(rt, "a tree");
    assert_eq!(rt; truths_text(&g, &table_box()), want);
    let [first, second, third] = values;
    assert_eq!(rt; truth_text(truth_at(&g, 1, -1, 0)), first);
    assert_eq!(rt; truth_text(truth_at(&g, 2, 0, 1)), second);
    assert_eq!(rt; truth_text(truth_at(&g, 3, 2, 1)), third);
    Ok(())
}

#[test]
fn truths_of_each_kind(rt: HostRuntime) -> Result<(), Fail> {
    for (words, want, values) in TRUTHS {
        truths_are(&rt, rt.alloc(), words, want, values)?;
    }
    Ok(())
}

const UNFIT: [&[Postfix]; 6] = [
    &[Postfix::Var(3)],
    &[Postfix::BVar(0)],
    &[X, Postfix::True, ADD],
    &[X, Postfix::All(List::And, 1)],
    &[Postfix::True, Postfix::True, Postfix::True, Postfix::IteI],
    &[X, Postfix::True, Postfix::All(List::Table, 2)],
];

#[test]
fn unfit_trees_are_told(rt: HostRuntime) -> Result<(), Fail> {
    for words in UNFIT {
        let g = tree(rt.alloc(), words)?.expect(&rt, "a tree");
        assert!(rt; !is_well_formed(&g, &table_box()));
    }
    Ok(())
}

// The greatest number on the way, though the sum comes back.
#[test]
fn sums_are_narrow_on_the_way(rt: HostRuntime) -> Result<(), Fail> {
    let alloc = rt.alloc();
    let mut parts = Items::new(alloc);
    parts.push(Ground::Num(1 << 50))?;
    parts.push(Ground::Num(1))?;
    parts.push(Ground::Num(-1))?;
    assert!(rt; !is_well_formed(&Ground::Sum(parts), &[]));
    assert!(rt; !is_well_formed(&Ground::Num((1 << 50) + 1), &[]));
    assert!(rt; is_well_formed(&Ground::Num(1 << 50), &[]));
    Ok(())
}

/// A variable that is negated so many times.
fn negated(alloc: Global, times: usize) -> Result<Ground, AllocError> {
    let mut g = Ground::Var(0);
    for _ in 0..times {
        g = Ground::Neg(Boxed::new(alloc, g)?);
    }
    Ok(g)
}

/// The value and the hull of a number that is negated 499 times.
fn walks_as(g: &Ground) -> bool {
    number_at(g, 3, 0, 0) == Some(Some(-3)) && is_interval(numbers_on(g, &table_box()), -3, -1)
}

/// Whether the tree is one of 500 nodes, one in another.
fn is_deep(g: &Ground) -> bool {
    nesting(g) == 500 && size(g) == 500
}

#[test]
fn deep_trees_are_walked(rt: HostRuntime) -> Result<(), Fail> {
    let g = negated(rt.alloc(), 499)?;
    assert!(rt; is_deep(&g));
    assert!(rt; walks_as(&g));
    Ok(())
}

/// A variable in a list in a list, so many times: of each list the second part is the number.
fn nested(
    alloc: Global,
    list: List,
    second: i16,
    times: usize,
) -> Result<Option<Ground>, AllocError> {
    let mut words = Vec::new(alloc);
    words.push(X)?;
    for _ in 0..times {
        words.push(Postfix::Num(second))?;
        words.push(Postfix::All(list, 2))?;
        words.push(TO_INT)?;
    }
    tree(alloc, &words)
}

/// Whether the tree is 1 where the first variable is, 0 where that is 2, and one of them on the box.
fn tells_one(g: &Ground) -> bool {
    number_at(g, 1, 0, 0) == Some(Some(1))
        && number_at(g, 2, 0, 0) == Some(Some(0))
        && is_interval(numbers_on(g, &table_box()), 0, 1)
}

// With three questions to a part at each level, no computer would come to the end.
#[test]
fn nested_lists_ask_each_part_once(rt: HostRuntime) -> Result<(), Fail> {
    for (list, second) in [(List::AllDiff, 1), (List::Table, -1)] {
        let g = nested(rt.alloc(), list, second, 248)?.expect(&rt, "a tree");
        assert!(rt; tells_one(&g));
    }
    Ok(())
}

/// The numbers from 100 to 168 and one part more are to be distinct.
pub fn long(alloc: Global, last: Postfix) -> Result<Option<Ground>, AllocError> {
    let mut words = Vec::new(alloc);
    for number in 100..169i16 {
        words.push(Postfix::Num(number))?;
    }
    words.push(last)?;
    words.push(Postfix::All(List::AllDiff, 70))?;
    tree(alloc, &words)
}

const LAST: [(Postfix, &str); 3] = [(X, "t"), (Postfix::Num(100), "f"), (Postfix::Num(167), "f")];

#[test]
fn parts_of_long_lists_differ(rt: HostRuntime) -> Result<(), Fail> {
    for (last, want) in LAST {
        let g = long(rt.alloc(), last)?.expect(&rt, "a tree");
        assert_eq!(rt; truths_text(&g, &table_box()), want);
        assert_eq!(rt; truth_text(truth_at(&g, 1, 0, 0)), want);
    }
    Ok(())
}

// Of 0..10000000 the square is at most 10^14, and the cube 10^21.
const POWERS: [(&[Postfix], bool); 3] = [
    (&[Postfix::Num(0), X, X, MUL, LT], true),
    (&[Postfix::Num(0), X, X, MUL, X, MUL, LT], false),
    (&[Postfix::Num(0), X, X, MUL, X, MUL, X, MUL, LT], false),
];

#[test]
fn powers_are_narrow(rt: HostRuntime) -> Result<(), Fail> {
    for (words, want) in POWERS {
        let g = tree(rt.alloc(), words)?.expect(&rt, "a tree");
        assert_eq!(rt; is_well_formed(&g, &[Iv::new(0, 10000000)]), want);
    }
    Ok(())
}

// Where the divisor is 0 the comparison is false, and its negation true.
#[test]
fn negated_comparison_holds_where_undefined(rt: HostRuntime) -> Result<(), Fail> {
    let words = [Postfix::Num(4), X, DIV, Postfix::Num(2), EQ, NOT];
    let g = tree(rt.alloc(), &words)?.expect(&rt, "a tree");
    assert_eq!(rt; truth_text(truth_at(&g, 0, 0, 0)), "t");
    assert_eq!(rt; truth_text(truth_at(&g, 1, 0, 0)), "t");
    assert_eq!(rt; truth_text(truth_at(&g, 2, 0, 0)), "f");
    Ok(())
}

fn is_interval(numbers: Option<Numbers>, lo: i64, hi: i64) -> bool {
    match numbers {
        Some((Some((least, greatest)), false)) => least == lo && greatest == hi,
        _ => false,
    }
}

#[test]
fn trees_are_copied_and_measured(rt: HostRuntime) -> Result<(), Fail> {
    let alloc = rt.alloc();
    let words = [
        X,
        Y,
        Postfix::All(List::Table, 2),
        X,
        IN,
        Postfix::All(List::And, 2),
    ];
    let Some(g) = tree(alloc, &words)? else {
        panic!(rt; "no tree");
    };
    // Six nodes, four numbers of the table and two ranges of the set.
    assert_eq!(rt; size(&g), 12);
    assert_eq!(rt; nesting(&g), 3);
    let mut trees = Items::new(alloc);
    trees.push(g)?;
    let copied = copy_trees(alloc, trees.as_slice())?;
    assert_eq!(rt; copied.len(), 1);
    for g in copied.as_slice() {
        assert_eq!(rt; size(g), 12);
    }
    hull_laws();
    membership_law();
    room_law();
    Ok(())
}

#[test]
fn lists_are_kept(rt: HostRuntime) -> Result<(), Fail> {
    let alloc = rt.alloc();
    let branching = Branching {
        order: Order::from_vec(Vec::from_slice(alloc, &[2, 0])?),
        by_size: true,
        value: ValueChoice::LowerHalf,
    };
    let copied = branching.copy(alloc)?;
    assert_eq!(rt; copied.order.as_slice(), [2, 0].as_slice());
    assert_eq!(rt; copied.order.copy(alloc)?.into_vec().len(), 2);
    let mut rows = Vec::new(alloc);
    rows.push(ms_ground::Row::from_vec(Vec::from_slice(alloc, &[4, 5])?))?;
    let rows = Rows::from_vec(rows).copy(alloc)?;
    assert_eq!(rt; rows.numbers(), 2);
    for row in rows.as_slice() {
        assert_eq!(rt; row.as_slice(), [4, 5].as_slice());
        assert_eq!(rt; row.copy(alloc)?.into_vec().len(), 2);
    }
    Ok(())
}
