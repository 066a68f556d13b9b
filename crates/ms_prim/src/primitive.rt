ghost use Rattle.std.specs.Prelude.{◌≡◌, IfOk, Ok};

use crate::listed::Listed;
use crate::pieces::{Cmp, Lit, Part, Term, Tie};
use ms_num::Ranges;
use ms_trees::{Ground, Rows};
use sqlite_items::Items;
use std::alloc::{AllocError, Global};

/// Variables and numbers.
pub type Parts = Listed<Part>;

/// Truth variables and negations of such.
pub type Lits = Listed<Lit>;

/// Variables with factors.
pub type Terms = Listed<Term>;

/// A list of primitive constraints.
pub type Prims = Items<Primitive>;

/// A primitive constraint: one operation over variables and numbers.
///
/// Where the last field is a `u32`, it is the variable that the operation equals.
#[derive(Drop)]
pub enum Primitive {
    /// The terms plus a number.
    Sum(Terms, i64, u32),
    Product(Part, Part, u32),
    /// Cut toward zero; no number equals it where the divisor is 0.
    Quotient(Part, Part, u32),
    /// With the sign of the dividend; no number equals it where the divisor is 0.
    Remainder(Part, Part, u32),
    Absolute(Part, u32),
    /// The least number of the list.
    Least(Parts, u32),
    /// The greatest number of the list.
    Greatest(Parts, u32),
    /// How many of the list are the second part.
    Count(Parts, Part, u32),
    /// Lowest index, elements and index.
    Element(i64, Parts, Part, u32),
    /// Lowest index of the rows and of the columns, width, elements row by row, and the two indices.
    Element2(i64, i64, u32, Parts, Part, Part, u32),
    /// The sum of the terms, compared with a number.
    Total(Terms, Cmp, i64),
    Compare(Cmp, Part, Part, Tie),
    /// The number lies in the set.
    Member(Part, Ranges, Tie),
    /// Some literal holds.
    Clause(Lits, Tie),
    /// The parts are the numbers of one of the rows.
    Table(Parts, Rows, Tie),
    /// No two parts are the same number.
    Differ(Parts, Tie),
    /// A constraint as it was posted.
    Whole(Ground),
}

impl Primitive {
    pub fn copy(&self, alloc: Global) -> Result<Primitive, AllocError>
        ensures { IfOk result (λ copied. copied ≡ self.now) }
    {
        match self {
            Primitive::Sum(terms, n, v) => Ok(Primitive::Sum(terms.copy(alloc)?, *n, *v)),
            Primitive::Product(x, y, v) => Ok(Primitive::Product(*x, *y, *v)),
            Primitive::Quotient(x, y, v) => Ok(Primitive::Quotient(*x, *y, *v)),
            Primitive::Remainder(x, y, v) => Ok(Primitive::Remainder(*x, *y, *v)),
            Primitive::Absolute(x, v) => Ok(Primitive::Absolute(*x, *v)),
            Primitive::Least(parts, v) => Ok(Primitive::Least(parts.copy(alloc)?, *v)),
            Primitive::Greatest(parts, v) => Ok(Primitive::Greatest(parts.copy(alloc)?, *v)),
            Primitive::Count(parts, x, v) => Ok(Primitive::Count(parts.copy(alloc)?, *x, *v)),
            Primitive::Element(low, parts, i, v) => {
                Ok(Primitive::Element(*low, parts.copy(alloc)?, *i, *v))
            }
            Primitive::Element2(low, left, width, parts, i, j, v) => Ok(Primitive::Element2(
                *low,
                *left,
                *width,
                parts.copy(alloc)?,
                *i,
                *j,
                *v,
            )),
            Primitive::Total(terms, cmp, n) => Ok(Primitive::Total(terms.copy(alloc)?, *cmp, *n)),
            Primitive::Compare(cmp, x, y, tie) => Ok(Primitive::Compare(*cmp, *x, *y, *tie)),
            Primitive::Member(x, set, tie) => Ok(Primitive::Member(*x, set.copy(alloc)?, *tie)),
            Primitive::Clause(lits, tie) => Ok(Primitive::Clause(lits.copy(alloc)?, *tie)),
            Primitive::Table(parts, rows, tie) => {
                let (parts, rows) = both(parts.copy(alloc), rows.copy(alloc))?;
                Ok(Primitive::Table(parts, rows, *tie))
            }
            Primitive::Differ(parts, tie) => Ok(Primitive::Differ(parts.copy(alloc)?, *tie)),
            Primitive::Whole(g) => Ok(Primitive::Whole(g.copy(alloc)?)),
        }
    }
}

/// A list equal to that of the primitives.
pub fn copy_prims(alloc: Global, prims: &[Primitive]) -> Result<Prims, AllocError>
    ensures { IfOk result (λ copied. copied ≡ prims.now) }
{
    let mut all = Items::new(alloc);
    for p in prims {
        all.push(p.copy(alloc)?)?;
    }
    Ok(all)
}

// Both parts, where both could be made.
fn both<A: Drop, B: Drop>(
    first: Result<A, AllocError>,
    second: Result<B, AllocError>,
) -> Result<(A, B), AllocError>
    ensures { IfOk result (λ pair. (first ≡ Ok pair.0) × (second ≡ Ok pair.1)) }
{
    match (first, second) {
        (Ok(first), Ok(second)) => Ok((first, second)),
        (Err(refused), _) => Err(refused),
        (_, Err(refused)) => Err(refused),
    }
}
