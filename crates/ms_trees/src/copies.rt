ghost use Rattle.std.specs.Prelude.{◌≡◌, IfOk, Ok};

use crate::tree::{Ground, Trees};
use sqlite_items::{Boxed, Items};
use std::alloc::{AllocError, Global};

impl Ground {
    #[cycle(copy)]
    pub fn copy(&self, alloc: Global) -> Result<Ground, AllocError>
        ensures { IfOk result (λ copied. copied ≡ self.now) }
    {
        match self {
            Ground::Num(n) => Ok(Ground::Num(*n)),
            Ground::Undef => Ok(Ground::Undef),
            Ground::Var(v) => Ok(Ground::Var(*v)),
            Ground::Add(a, b) => {
                let (a, b) = both(copy_box(alloc, a), copy_box(alloc, b))?;
                Ok(Ground::Add(a, b))
            }
            Ground::Sub(a, b) => {
                let (a, b) = both(copy_box(alloc, a), copy_box(alloc, b))?;
                Ok(Ground::Sub(a, b))
            }
            Ground::Mul(a, b) => {
                let (a, b) = both(copy_box(alloc, a), copy_box(alloc, b))?;
                Ok(Ground::Mul(a, b))
            }
            Ground::Div(a, b) => {
                let (a, b) = both(copy_box(alloc, a), copy_box(alloc, b))?;
                Ok(Ground::Div(a, b))
            }
            Ground::Mod(a, b) => {
                let (a, b) = both(copy_box(alloc, a), copy_box(alloc, b))?;
                Ok(Ground::Mod(a, b))
            }
            Ground::Neg(a) => Ok(Ground::Neg(copy_box(alloc, a)?)),
            Ground::Abs(a) => Ok(Ground::Abs(copy_box(alloc, a)?)),
            Ground::Sum(parts) => Ok(Ground::Sum(copy_trees(alloc, parts.as_slice())?)),
            Ground::Least(parts) => Ok(Ground::Least(copy_trees(alloc, parts.as_slice())?)),
            Ground::Greatest(parts) => Ok(Ground::Greatest(copy_trees(alloc, parts.as_slice())?)),
            Ground::ToInt(a) => Ok(Ground::ToInt(copy_box(alloc, a)?)),
            Ground::Elem(low, parts, index) => {
                let (parts, index) = both(
                    copy_trees(alloc, parts.as_slice()),
                    copy_box(alloc, index),
                )?;
                Ok(Ground::Elem(*low, parts, index))
            }
            Ground::Elem2(low, left, width, parts, row, column) => {
                let parts = copy_trees(alloc, parts.as_slice());
                let indices = both(copy_box(alloc, row), copy_box(alloc, column));
                let (parts, indices) = both(parts, indices)?;
                Ok(Ground::Elem2(*low, *left, *width, parts, indices.0, indices.1))
            }
            Ground::Count(parts, a) => {
                let (parts, a) = both(copy_trees(alloc, parts.as_slice()), copy_box(alloc, a))?;
                Ok(Ground::Count(parts, a))
            }
            Ground::IteI(condition, a, b) => {
                let branches = both(copy_box(alloc, a), copy_box(alloc, b));
                let (condition, branches) = both(copy_box(alloc, condition), branches)?;
                Ok(Ground::IteI(condition, branches.0, branches.1))
            }
            Ground::True => Ok(Ground::True),
            Ground::False => Ok(Ground::False),
            Ground::BVar(v) => Ok(Ground::BVar(*v)),
            Ground::And(parts) => Ok(Ground::And(copy_trees(alloc, parts.as_slice())?)),
            Ground::Or(parts) => Ok(Ground::Or(copy_trees(alloc, parts.as_slice())?)),
            Ground::Not(a) => Ok(Ground::Not(copy_box(alloc, a)?)),
            Ground::Iff(a, b) => {
                let (a, b) = both(copy_box(alloc, a), copy_box(alloc, b))?;
                Ok(Ground::Iff(a, b))
            }
            Ground::Imp(a, b) => {
                let (a, b) = both(copy_box(alloc, a), copy_box(alloc, b))?;
                Ok(Ground::Imp(a, b))
            }
            Ground::Xor(a, b) => {
                let (a, b) = both(copy_box(alloc, a), copy_box(alloc, b))?;
                Ok(Ground::Xor(a, b))
            }
            Ground::Eq(a, b) => {
                let (a, b) = both(copy_box(alloc, a), copy_box(alloc, b))?;
                Ok(Ground::Eq(a, b))
            }
            Ground::Ne(a, b) => {
                let (a, b) = both(copy_box(alloc, a), copy_box(alloc, b))?;
                Ok(Ground::Ne(a, b))
            }
            Ground::Lt(a, b) => {
                let (a, b) = both(copy_box(alloc, a), copy_box(alloc, b))?;
                Ok(Ground::Lt(a, b))
            }
            Ground::Le(a, b) => {
                let (a, b) = both(copy_box(alloc, a), copy_box(alloc, b))?;
                Ok(Ground::Le(a, b))
            }
            Ground::IteB(condition, a, b) => {
                let branches = both(copy_box(alloc, a), copy_box(alloc, b));
                let (condition, branches) = both(copy_box(alloc, condition), branches)?;
                Ok(Ground::IteB(condition, branches.0, branches.1))
            }
            Ground::In(a, ranges) => {
                let (a, ranges) = both(copy_box(alloc, a), ranges.copy(alloc))?;
                Ok(Ground::In(a, ranges))
            }
            Ground::AllDiff(parts) => Ok(Ground::AllDiff(copy_trees(alloc, parts.as_slice())?)),
            Ground::Table(parts, rows) => {
                let (parts, rows) = both(copy_trees(alloc, parts.as_slice()), rows.copy(alloc))?;
                Ok(Ground::Table(parts, rows))
            }
        }
    }
}

#[cycle(copy)]
fn copy_box(alloc: Global, part: &Boxed<Ground>) -> Result<Boxed<Ground>, AllocError>
    ensures { IfOk result (λ copied. copied ≡ part.now) }
{
    Boxed::new(alloc, part.get().copy(alloc)?)
}

/// A list equal to that of the trees.
#[cycle(copy)]
pub fn copy_trees(alloc: Global, parts: &[Ground]) -> Result<Trees, AllocError>
    ensures { IfOk result (λ copied. copied ≡ parts.now) }
{
    let mut all = Items::new(alloc);
    for part in parts {
        all.push(part.copy(alloc)?)?;
    }
    Ok(all)
}

// Both parts, where both could be made.
fn both<A: Drop, B: Drop>(
    first: Result<A, AllocError>,
    second: Result<B, AllocError>,
) -> Result<(A, B), AllocError>
    ensures { IfOk result (λ pair. (first ≡ Ok pair.0) × (second ≡ Ok pair.1)) }
{
    match (first, second) {
        (Ok(first), Ok(second)) => Ok((first, second)),
        (Err(refused), _) => Err(refused),
        (_, Err(refused)) => Err(refused),
    }
}
