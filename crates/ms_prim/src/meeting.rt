ghost use Rattle.std.specs.Prelude.{◌≡◌, All, IsTrue};
ghost use Rattle.ms_num.specs.Span.{IsWithin};
ghost use Rattle.ms_trees.specs.Value.{value};
ghost use Rattle.ms_trees.specs.Enclosure.{points};
ghost use Rattle.ms_prim.specs.Constraints.{tree_of};
ghost use Rattle.ms_prim.specs.Fitting.{is_fit};

use crate::numbers::{
    compared, equals, is_tied, magnitude, number, product, quotient, remainder, some_equals,
};
use crate::operations::{
    all_differ, count, element, element2, greatest, is_some_row, least, some_holds, total,
};
use crate::primitive::Primitive;
use ms_trees::holds;

/// Whether the assignment meets the primitive, exactly. It takes no memory.
pub fn meets(p: &Primitive, point: &[i64]) -> bool
    requires fit { IsTrue (is_fit (points point.now) p.now) }
    requires within { All IsWithin point.now }
    ensures { result ≡ (value point.now (tree_of p.now)).truth }
{
    match p {
        Primitive::Sum(terms, n, v) => {
            equals(total(terms.as_slice(), point) + i128::from(*n), *v, point)
        }
        Primitive::Product(x, y, v) => {
            equals(product(number(*x, point), number(*y, point)), *v, point)
        }
        Primitive::Quotient(x, y, v) => {
            some_equals(quotient(number(*x, point), number(*y, point)), *v, point)
        }
        Primitive::Remainder(x, y, v) => {
            some_equals(remainder(number(*x, point), number(*y, point)), *v, point)
        }
        Primitive::Absolute(x, v) => { equals(i128::from(magnitude(number(*x, point))), *v, point) }
        Primitive::Least(parts, v) => some_equals(least(parts.as_slice(), point), *v, point),
        Primitive::Greatest(parts, v) => {
            some_equals(greatest(parts.as_slice(), point), *v, point)
        }
        Primitive::Count(parts, x, v) => {
            let n = number(*x, point);
            equals(count(parts.as_slice(), n, point) as i128, *v, point)
        }
        Primitive::Element(low, parts, i, v) => {
            let i = number(*i, point);
            some_equals(element(*low, parts.as_slice(), i, point), *v, point)
        }
        Primitive::Element2(low, left, width, parts, i, j, v) => {
            let (i, j) = (number(*i, point), number(*j, point));
            let x = element2(*low, *left, *width, parts.as_slice(), i, j, point);
            some_equals(x, *v, point)
        }
        Primitive::Total(terms, cmp, n) => {
            compared(*cmp, total(terms.as_slice(), point), i128::from(*n))
        }
        Primitive::Compare(cmp, x, y, tie) => {
            let (x, y) = (number(*x, point), number(*y, point));
            is_tied(compared(*cmp, i128::from(x), i128::from(y)), *tie, point)
        }
        Primitive::Member(x, set, tie) => is_tied(set.has(number(*x, point)), *tie, point),
        Primitive::Clause(lits, tie) => is_tied(some_holds(lits.as_slice(), point), *tie, point),
        Primitive::Table(parts, rows, tie) => {
            let found = is_some_row(parts.as_slice(), rows.as_slice(), point);
            is_tied(found, *tie, point)
        }
        Primitive::Differ(parts, tie) => is_tied(all_differ(parts.as_slice(), point), *tie, point),
        Primitive::Whole(g) => holds(g, point),
    }
}
