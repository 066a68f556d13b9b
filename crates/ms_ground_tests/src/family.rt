//! What a tree may mean against what it means on each point, for a family of small trees and all small boxes.

use crate::tests::{ADD, DIV, EQ, LE, LT, MOD, MUL, NE, SUB, X, Y, number_at, truth_at};
use crate::{List, Postfix, tree};
use ms_evaluator::Evaluator;
use ms_ground::{Ground, Hull, hull, is_well_formed};
use ms_num::Iv;
use std::alloc::AllocError;
use std::process::Abort;
use std::test::Fail;

/// What the points of a box have shown.
#[derive(Clone, Copy)]
struct Seen {
    numbers: Option<(i64, i64)>,
    undefined: bool,
    yes: bool,
    no: bool,
}

impl Seen {
    fn nothing() -> Seen {
        Seen {
            numbers: None,
            undefined: false,
            yes: false,
            no: false,
        }
    }

    fn number(self, number: Option<i64>) -> Seen {
        match number {
            Some(z) => Seen {
                numbers: Some(match self.numbers {
                    Some((lo, hi)) => (lo.min(z), hi.max(z)),
                    None => (z, z),
                }),
                ..self
            },
            None => Seen {
                undefined: true,
                ..self
            },
        }
    }

    fn truth(self, truth: bool) -> Seen {
        Seen {
            yes: self.yes || truth,
            no: self.no || !truth,
            ..self
        }
    }

    /// Nothing was seen that may not come.
    fn lies_in(self, h: Hull) -> bool {
        let numbers = match self.numbers {
            Some((lo, hi)) => h.may_be_defined && h.lo <= lo && hi <= h.hi,
            None => true,
        };
        let undefined = h.may_be_undefined || !self.undefined;
        let truths = (h.may_be_true || !self.yes) && (h.may_be_false || !self.no);
        numbers && undefined && truths
    }

    /// All that may come was seen.
    fn fills(self, h: Hull) -> bool {
        let numbers = match self.numbers {
            Some((lo, hi)) => lo <= h.lo && h.hi <= hi,
            None => !h.may_be_defined,
        };
        let undefined = self.undefined || !h.may_be_undefined;
        let truths = (self.yes || !h.may_be_true) && (self.no || !h.may_be_false);
        numbers && undefined && truths
    }
}

/// How the hull of an operation stands to its values.
#[derive(Clone, Copy, PartialEq, Eq)]
enum Sort {
    Numbers,
    /// Numbers, of which the hull may have more than the least interval.
    WideNumbers,
    Truths,
}

fn seen_on(rt: &impl Abort, g: &Ground, sort: Sort, xs: (i16, i16), ys: (i16, i16)) -> Seen {
    let mut seen = Seen::nothing();
    for x in xs.0..=xs.1 {
        for y in ys.0..=ys.1 {
            seen = if sort == Sort::Truths {
                seen.truth(truth_at(g, x, y, 0).expect(rt, "fit on the point"))
            } else {
                seen.number(number_at(g, x, y, 0).expect(rt, "fit on the point"))
            };
        }
    }
    seen
}

const ENDS: [(i16, i16); 15] = [
    (-2, -2),
    (-2, -1),
    (-2, 0),
    (-2, 1),
    (-2, 2),
    (-1, -1),
    (-1, 0),
    (-1, 1),
    (-1, 2),
    (0, 0),
    (0, 1),
    (0, 2),
    (1, 1),
    (1, 2),
    (2, 2),
];

fn interval(ends: (i16, i16)) -> Option<Iv> {
    let (lo, hi) = ends;
    if lo <= hi {
        Some(Iv::new(i64::from(lo), i64::from(hi)))
    } else {
        None
    }
}

/// Compares on all boxes; where no variable stands twice, the hull has nothing that does not come.
fn compare(
    rt: &impl Abort,
    evaluator: &mut Evaluator,
    g: &Ground,
    sort: Sort,
    is_exact: bool,
) -> Result<(), AllocError> {
    for xs in ENDS {
        for ys in ENDS {
            let sets = [
                interval(xs).expect(rt, "an interval"),
                interval(ys).expect(rt, "an interval"),
                Iv::new(0, 0),
            ];
            assert!(rt; is_well_formed(g, &sets));
            let h = hull(g, &sets);
            assert!(rt; is_same(h, evaluator.hull(g, sets.as_slice())?));
            let seen = seen_on(rt, g, sort, xs, ys);
            assert!(rt; seen.lies_in(h));
            let is_point = xs.0 == xs.1 && ys.0 == ys.1;
            assert!(rt; seen.fills(h) || !is_point && !is_exact);
        }
    }
    Ok(())
}

/// The two bodies answer the same.
pub fn is_same(h: Hull, other: Hull) -> bool {
    (h.lo, h.hi) == (other.lo, other.hi)
        && (h.may_be_defined, h.may_be_undefined) == (other.may_be_defined, other.may_be_undefined)
        && (h.may_be_true, h.may_be_false) == (other.may_be_true, other.may_be_false)
}

const OPERATIONS: [(Postfix, Sort); 17] = [
    (ADD, Sort::Numbers),
    (SUB, Sort::Numbers),
    (MUL, Sort::Numbers),
    (DIV, Sort::Numbers),
    (MOD, Sort::WideNumbers),
    (Postfix::All(List::Sum, 2), Sort::Numbers),
    (Postfix::All(List::Least, 2), Sort::Numbers),
    (Postfix::All(List::Greatest, 2), Sort::Numbers),
    (Postfix::Elem(0, 1), Sort::Numbers),
    (Postfix::Elem2(-1, 0, 1, 0), Sort::Numbers),
    (Postfix::Count(1), Sort::Numbers),
    (EQ, Sort::Truths),
    (NE, Sort::Truths),
    (LT, Sort::Truths),
    (LE, Sort::Truths),
    (Postfix::All(List::AllDiff, 2), Sort::Truths),
    (Postfix::All(List::Table, 2), Sort::Truths),
];

const LEAVES: [Postfix; 5] = [X, Y, Postfix::Num(2), Postfix::Num(-1), Postfix::Undef];

#[test]
fn hulls_have_what_the_points_have(rt: HostRuntime) -> Result<(), Fail> {
    let mut evaluator = Evaluator::new(rt.alloc());
    for (operation, sort) in OPERATIONS {
        for i in 0..5usize {
            for j in 0..5usize {
                let words = [LEAVES[i], LEAVES[j], operation];
                let g = tree(rt.alloc(), &words)?.expect(&rt, "a tree");
                let is_exact = sort != Sort::WideNumbers && (i != j || 2 <= i);
                compare(&rt, &mut evaluator, &g, sort, is_exact)?;
            }
        }
    }
    Ok(())
}
