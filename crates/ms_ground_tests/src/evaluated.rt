//! The evaluator against the walk without memory: each kind on a box, long lists, and long lists in long lists.

use crate::family::is_same;
use crate::tests::{ADD, MUL, NEG, NOT, NUMBERS, TO_INT, TRUTHS, X, Y, long, table_box};
use crate::{List, Postfix, tree};
use ms_evaluator::{Evaluator, lists};
use ms_ground::operations::{boolean, numeric};
use ms_ground::{Enclosure, Ground, Hull, hull, is_well_formed};
use ms_num::Iv;
use ms_trees::Extreme;
use std::alloc::{AllocError, Global};
use std::process::Abort;
use std::test::Fail;

/// Whether both bodies answer the same on the box.
fn agree(
    rt: &impl Abort,
    evaluator: &mut Evaluator,
    g: &Ground,
    sets: &[Iv],
) -> Result<(), AllocError> {
    assert!(rt; is_well_formed(g, sets));
    assert!(rt; is_same(hull(g, sets), hull_of(rt, evaluator, g, sets)?));
    Ok(())
}

/// The hull of a tree that is well formed on the box, as the evaluator tests itself.
fn hull_of(
    rt: &impl Abort,
    evaluator: &mut Evaluator,
    g: &Ground,
    sets: &[Iv],
) -> Result<Hull, AllocError> {
    let fits = evaluator.is_well_formed(g, sets)?;
    assert!(rt; fits);
    evaluator.hull(g, sets)
}

/// Whether both bodies answer the same of the tree that the symbols write.
fn agree_on(
    rt: &impl Abort,
    alloc: Global,
    evaluator: &mut Evaluator,
    symbols: &[Postfix],
) -> Result<(), AllocError> {
    let g = tree(alloc, symbols)?.expect(rt, "a tree");
    agree(rt, evaluator, &g, &table_box())
}

#[test]
fn each_kind_of_number(rt: HostRuntime) -> Result<(), Fail> {
    let mut evaluator = Evaluator::new(rt.alloc());
    for (symbols, _, _) in NUMBERS {
        agree_on(&rt, rt.alloc(), &mut evaluator, symbols)?;
    }
    Ok(())
}

#[test]
fn each_kind_of_truth(rt: HostRuntime) -> Result<(), Fail> {
    let mut evaluator = Evaluator::new(rt.alloc());
    for (symbols, _, _) in TRUTHS {
        agree_on(&rt, rt.alloc(), &mut evaluator, symbols)?;
    }
    Ok(())
}

const LAST: [Postfix; 4] = [X, Y, Postfix::Num(100), Postfix::Num(167)];

#[test]
fn long_lists(rt: HostRuntime) -> Result<(), Fail> {
    let mut evaluator = Evaluator::new(rt.alloc());
    for last in LAST {
        let g = long(rt.alloc(), last)?.expect(&rt, "a tree");
        agree(&rt, &mut evaluator, &g, &table_box())?;
    }
    Ok(())
}

/// So many lists of 66 numbers that are to be distinct, one in another: the number of each stands at the end of the
/// next, and a variable at the end of the first.
fn nested(alloc: Global, levels: usize) -> Result<Option<Ground>, AllocError> {
    let mut symbols = Vec::new(alloc);
    for _ in 0..levels {
        push_numbers(&mut symbols)?;
    }
    symbols.push(X)?;
    for _ in 0..levels {
        symbols.push(Postfix::All(List::AllDiff, 66))?;
        symbols.push(TO_INT)?;
    }
    tree(alloc, &symbols)
}

fn push_numbers(symbols: &mut Vec<Postfix>) -> Result<(), AllocError> {
    for number in 1..66i16 {
        symbols.push(Postfix::Num(number.wrapping_mul(400)))?;
    }
    Ok(())
}

#[test]
fn long_lists_in_long_lists(rt: HostRuntime) -> Result<(), Fail> {
    let mut evaluator = Evaluator::new(rt.alloc());
    let sets = [Iv::new(1, 3)];
    for levels in 1..20usize {
        let g = nested(rt.alloc(), levels)?.expect(&rt, "a tree");
        let h = hull_of(&rt, &mut evaluator, &g, &sets)?;
        assert_eq!(rt;
            (h.lo, h.hi, h.may_be_undefined),
            (1, 1, false),
            "at {levels} levels"
        );
    }
    Ok(())
}

// Boxes of three variables that are to be distinct, with the truth values that may come.
const BOXES: [(&[(i64, i64)], bool, bool); 8] = [
    (&[(1, 1), (2, 2), (3, 3)], true, false),
    (&[(1, 2), (3, 4), (5, 9)], true, false),
    (&[(1, 2), (1, 2), (1, 2)], false, true),
    (&[(1, 2), (1, 2), (2, 3)], true, true),
    (&[(1, 9), (2, 2), (2, 2)], false, true),
    (&[(1, 3), (1, 3), (1, 3)], true, true),
    (&[(0, 5), (1, 1), (0, 0)], true, true),
    (&[(2, 3), (2, 3), (1, 3)], true, true),
];

/// The intervals of these ends, where each is one.
fn box_of(alloc: Global, ends: &[(i64, i64)]) -> Result<Vec<Iv>, AllocError> {
    let mut sets = Vec::new(alloc);
    for (lo, hi) in ends {
        if let Some(set) = interval(*lo, *hi) {
            sets.push(set)?;
        }
    }
    Ok(sets)
}

fn interval(lo: i64, hi: i64) -> Option<Iv> {
    if lo <= hi { Iv::narrow(lo, hi) } else { None }
}

/// The truth values of a constraint on the box of these ends.
fn truths(
    rt: &impl Abort,
    alloc: Global,
    g: &Ground,
    ends: &[(i64, i64)],
) -> Result<(bool, bool), AllocError> {
    let mut evaluator = Evaluator::new(alloc);
    let sets = box_of(alloc, ends)?;
    let h = hull_of(rt, &mut evaluator, g, sets.as_slice())?;
    Ok((h.may_be_true, h.may_be_false))
}

#[test]
fn three_that_differ(rt: HostRuntime) -> Result<(), Fail> {
    let symbols = [X, Y, Postfix::Var(2), Postfix::All(List::AllDiff, 3)];
    let g = tree(rt.alloc(), &symbols)?.expect(&rt, "a tree");
    for (ends, yes, no) in BOXES {
        assert_eq!(rt; truths(&rt, rt.alloc(), &g, ends)?, (yes, no));
    }
    Ok(())
}

// Trees that are not well formed: of the wrong sort, with a variable that is missing, or past the limits.
const UNFIT: [&[Postfix]; 6] = [
    &[Postfix::True, NEG],
    &[X, NOT],
    &[X, Postfix::Var(9), ADD],
    &[
        X,
        Postfix::Num(32000),
        MUL,
        Postfix::Num(32000),
        MUL,
        Postfix::Num(32000),
        MUL,
        Postfix::Num(32000),
        MUL,
    ],
    &[X, Postfix::True, Postfix::All(List::AllDiff, 2)],
    &[X, X, Postfix::All(List::And, 2)],
];

#[test]
fn trees_that_are_not_well_formed(rt: HostRuntime) -> Result<(), Fail> {
    let mut evaluator = Evaluator::new(rt.alloc());
    let sets = table_box();
    for symbols in UNFIT {
        let g = tree(rt.alloc(), symbols)?.expect(&rt, "a tree");
        assert!(rt; !is_well_formed(&g, &sets));
        assert!(rt; evaluator.enclose(&g, sets.as_slice())?.is_none());
    }
    Ok(())
}

fn ends(x: Option<Enclosure>) -> Option<(i64, i64, bool)> {
    let x = x?;
    let interval = x.interval?;
    Some((interval.lo(), interval.hi(), x.may_be_undefined))
}

fn three() -> Enclosure {
    numeric(Some(Iv::single(3)), false)
}

fn seven() -> Enclosure {
    numeric(Some(Iv::single(7)), false)
}

// A part that is 1 to 3, and one that is 5 or 6 or undefined.
#[test]
fn nodes_over_lists(rt: HostRuntime) -> Result<(), Fail> {
    let parts = [
        numeric(Some(Iv::new(1, 3)), false),
        numeric(Some(Iv::new(5, 6)), true),
    ];
    assert_eq!(rt; ends(lists::sum(&parts)), Some((6, 9, true)));
    assert_eq!(rt;
        ends(lists::extreme(Extreme::Least, &parts)),
        Some((1, 3, true))
    );
    assert_eq!(rt;
        ends(lists::element(&parts, 7, seven())),
        Some((1, 3, false))
    );
    let cell = lists::element_of_grid(&parts, 7, 3, 1, seven(), three());
    assert_eq!(rt; ends(cell), Some((1, 3, false)));
    assert_eq!(rt; ends(lists::count(&parts, three())), Some((0, 1, true)));
    assert!(rt; !lists::rowed(&parts, &[]).may_be_true);
    let x = Evaluator::new(rt.alloc()).distinct(&parts)?;
    assert_eq!(rt; (x.may_be_true, x.may_be_false), (true, true));
    let truths = [boolean(true, true), boolean(false, true)];
    assert!(rt; !lists::all(&truths).may_be_true);
    assert!(rt; lists::some(&truths).may_be_true);
    Ok(())
}
