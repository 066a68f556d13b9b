use ms_num::{Iv, LIMIT, cut_law, division_law, interval_law};
use std::alloc::{AllocError, Global};
use std::test::Fail;

// Dividend, divisor, quotient and remainder. The MiniZinc Handbook cuts the quotient toward zero, and the
// remainder has the sign of the dividend.
const DIVISIONS: [(i16, i16, i16, i16); 44] = [
    (7, 2, 3, 1),
    (7, -2, -3, 1),
    (7, 4, 1, 3),
    (7, -4, -1, 3),
    (7, 7, 1, 0),
    (7, -7, -1, 0),
    (7, 8, 0, 7),
    (7, -8, 0, 7),
    (7, 1, 7, 0),
    (7, -1, -7, 0),
    (-7, 2, -3, -1),
    (-7, -2, 3, -1),
    (-7, 4, -1, -3),
    (-7, -4, 1, -3),
    (-7, 7, -1, 0),
    (-7, -7, 1, 0),
    (-7, 8, 0, -7),
    (-7, -8, 0, -7),
    (-7, 1, -7, 0),
    (-7, -1, 7, 0),
    (8, 3, 2, 2),
    (8, -3, -2, 2),
    (8, 5, 1, 3),
    (8, -5, -1, 3),
    (8, 8, 1, 0),
    (8, -8, -1, 0),
    (-8, 3, -2, -2),
    (-8, -3, 2, -2),
    (-8, 5, -1, -3),
    (-8, -5, 1, -3),
    (-8, 8, -1, 0),
    (-8, -8, 1, 0),
    (1, 2, 0, 1),
    (1, -2, 0, 1),
    (1, 1, 1, 0),
    (1, -1, -1, 0),
    (-1, 2, 0, -1),
    (-1, -2, 0, -1),
    (-1, 1, -1, 0),
    (-1, -1, 1, 0),
    (0, 2, 0, 0),
    (0, -2, 0, 0),
    (0, 1, 0, 0),
    (0, -1, 0, 0),
];

fn single(n: i16) -> Iv {
    Iv::single(i64::from(n))
}

#[test]
fn divides_at_each_sign(rt: HostRuntime) -> Result<(), Fail> {
    for &(x, y, quotient, remainder) in &DIVISIONS {
        let (dividend, divisor) = (single(x), single(y));
        assert_eq!(rt;
            dividend.div_hull(divisor),
            Some(single(quotient)),
            "{x} div {y}"
        );
        assert_eq!(rt;
            dividend.mod_hull(divisor),
            Some(single(remainder)),
            "{x} mod {y}"
        );
    }
    assert_eq!(rt; single(7).div_hull(single(0)), None);
    assert_eq!(rt; single(7).mod_hull(single(0)), None);
    Ok(())
}

#[test]
fn computes(rt: HostRuntime) {
    let (a, b) = (Iv::new(-3, 4), Iv::new(2, 5));
    assert_eq!(rt; (a.lo(), a.hi()), (-3, 4));
    assert_eq!(rt; (a.has(4), a.has(5)), (true, false));
    assert_eq!(rt; a.add(b), Some(Iv::new(-1, 9)));
    assert_eq!(rt; a.sub(b), Some(Iv::new(-8, 2)));
    assert_eq!(rt; a.mul(b), Some(Iv::new(-15, 20)));
    assert_eq!(rt; a.neg(), Iv::new(-4, 3));
    assert_eq!(rt; a.abs(), Iv::new(0, 4));
    assert_eq!(rt; a.min2(b), Iv::new(-3, 4));
    assert_eq!(rt; a.max2(b), Iv::new(2, 5));
    assert_eq!(rt; (a.join(b), a.size()), (Iv::new(-3, 5), 8));
    assert_eq!(rt; Iv::join_some(Some(a), Some(b)), Some(Iv::new(-3, 5)));
    assert_eq!(rt; Iv::join_some(None, Some(b)), Some(b));
    assert_eq!(rt; b.div_hull(a), Some(Iv::new(-5, 5)));
    assert_eq!(rt; a.mod_hull(b), Some(Iv::new(-3, 4)));
    division_law();
    interval_law();
    cut_law();
}

#[test]
fn stays_within_the_limits(rt: HostRuntime) {
    let greatest = Iv::single(LIMIT);
    assert_eq!(rt; Iv::narrow(-LIMIT, LIMIT), Some(Iv::new(-LIMIT, LIMIT)));
    assert_eq!(rt; Iv::narrow(-LIMIT - 1, LIMIT), None);
    assert_eq!(rt; Iv::narrow(-LIMIT, LIMIT + 1), None);
    assert_eq!(rt; greatest.add(single(0)), Some(greatest));
    assert_eq!(rt; greatest.add(single(1)), None);
    assert_eq!(rt; greatest.neg().sub(single(1)), None);
    assert_eq!(rt; greatest.mul(single(-1)), Some(greatest.neg()));
    assert_eq!(rt; greatest.mul(greatest), None);
}

// The intervals within -6..6.
fn intervals(alloc: Global) -> Result<Vec<Iv>, AllocError> {
    let mut all = Vec::new(alloc);
    for lo in 0..13u8 {
        for hi in lo..13 {
            all.push(Iv::new(i64::from(lo) - 6, i64::from(hi) - 6))?;
        }
    }
    Ok(all)
}

// The ends, with one more result.
fn widened(ends: Option<(i64, i64)>, result_of: Option<i64>) -> Option<(i64, i64)> {
    match (ends, result_of) {
        (Some((lo, hi)), Some(z)) => Some((lo.min(z), hi.max(z))),
        (None, Some(z)) => Some((z, z)),
        (ends, None) => ends,
    }
}

// The least and the greatest of the defined results, by trying all.
fn tried<F: Fn(i64, i64) -> Option<i64>>(a: Iv, b: Iv, operation: F) -> Option<(i64, i64)>
where
    F: Drop,
    requires { F.IsAlwaysCallable operation }
{
    let mut ends = None;
    for x in a.lo()..a.hi() + 1 {
        for y in b.lo()..b.hi() + 1 {
            ends = widened(ends, operation(x, y));
        }
    }
    ends
}

fn ends_of(hull: Option<Iv>) -> Option<(i64, i64)> {
    hull.map(|iv| (iv.lo(), iv.hi()))
}

#[test]
fn agrees_with_enumeration(rt: HostRuntime) -> Result<(), Fail> {
    let all = intervals(rt.alloc())?;
    for &a in &all {
        for &b in &all {
            assert_eq!(rt; ends_of(a.mul(b)), tried(a, b, |x, y| x.checked_mul(y)));
            assert_eq!(rt;
                ends_of(a.div_hull(b)),
                tried(a, b, |x, y| x.checked_div(y))
            );
            let remainders = tried(a, b, |x, y| x.checked_rem(y));
            let hull = a.mod_hull(b);
            assert!(rt; holds(hull, remainders), "{a:?} mod {b:?}");
        }
    }
    Ok(())
}

// The hull has both ends, and is there where they are.
fn holds(hull: Option<Iv>, ends: Option<(i64, i64)>) -> bool {
    match (hull, ends) {
        (Some(hull), Some((lo, hi))) => hull.has(lo) && hull.has(hi),
        (None, None) => true,
        _ => false,
    }
}
