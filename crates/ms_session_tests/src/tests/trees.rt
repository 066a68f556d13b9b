//! The trees of the small models.
ghost use Rattle.std.specs.Prelude.{◌≡◌, IfOk};
ghost use Rattle.ms_trees.specs.declared.tree.Ground.TheVariants as tree;
ghost use Rattle.ms_trees.specs.WellFormed.{IsTruth};
ghost use Rattle.ms_session_tests.specs.Samples.{line, square};

use ms_ground::Ground;
use sqlite_items::Boxed;
use std::alloc::{AllocError, Global};

fn equal(alloc: Global, a: Ground, b: Ground) -> Result<Ground, AllocError>
    ensures { IfOk result (λ g. g ≡ tree.Eq a b) }
{
    Ok(Ground::Eq(Boxed::new(alloc, a)?, Boxed::new(alloc, b)?))
}

fn unequal(alloc: Global, a: Ground, b: Ground) -> Result<Ground, AllocError>
    ensures { IfOk result (λ g. g ≡ tree.Ne a b) }
{
    Ok(Ground::Ne(Boxed::new(alloc, a)?, Boxed::new(alloc, b)?))
}

fn less(alloc: Global, a: Ground, b: Ground) -> Result<Ground, AllocError>
    ensures { IfOk result (λ g. g ≡ tree.Lt a b) }
{
    Ok(Ground::Lt(Boxed::new(alloc, a)?, Boxed::new(alloc, b)?))
}

fn sum(alloc: Global, a: Ground, b: Ground) -> Result<Ground, AllocError>
    ensures { IfOk result (λ g. g ≡ tree.Add a b) }
{
    Ok(Ground::Add(Boxed::new(alloc, a)?, Boxed::new(alloc, b)?))
}

fn product(alloc: Global, a: Ground, b: Ground) -> Result<Ground, AllocError>
    ensures { IfOk result (λ g. g ≡ tree.Mul a b) }
{
    Ok(Ground::Mul(Boxed::new(alloc, a)?, Boxed::new(alloc, b)?))
}

fn remainder(alloc: Global, a: Ground, b: Ground) -> Result<Ground, AllocError>
    ensures { IfOk result (λ g. g ≡ tree.Mod a b) }
{
    Ok(Ground::Mod(Boxed::new(alloc, a)?, Boxed::new(alloc, b)?))
}

/// A constraint on the one variable.
#[derive(Drop)]
pub enum Posted {
    IsThree,
    AboveTwo,
    NotTwo,
}

pub fn posted_tree(alloc: Global, posted: &Posted) -> Result<Ground, AllocError>
    ensures { IfOk result (IsTruth line) }
{
    match posted {
        Posted::IsThree => equal(alloc, Ground::Var(0), Ground::Num(3)),
        Posted::AboveTwo => less(alloc, Ground::Num(2), Ground::Var(0)),
        Posted::NotTwo => unequal(alloc, Ground::Var(0), Ground::Num(2)),
    }
}

// x + y = 3
fn sum_is_three(alloc: Global) -> Result<Ground, AllocError>
    ensures { IfOk result (IsTruth square) }
{
    let total = sum(alloc, Ground::Var(0), Ground::Var(1))?;
    equal(alloc, total, Ground::Num(3))
}

// x * y < 3
fn product_below_three(alloc: Global) -> Result<Ground, AllocError>
    ensures { IfOk result (IsTruth square) }
{
    let total = product(alloc, Ground::Var(0), Ground::Var(1))?;
    less(alloc, total, Ground::Num(3))
}

// y mod x = 0
fn divides(alloc: Global) -> Result<Ground, AllocError>
    ensures { IfOk result (IsTruth square) }
{
    let left = remainder(alloc, Ground::Var(1), Ground::Var(0))?;
    equal(alloc, left, Ground::Num(0))
}

/// The second variable is three times the first.
pub fn triple(alloc: Global) -> Result<Ground, AllocError> {
    let total = product(alloc, Ground::Num(3), Ground::Var(0))?;
    equal(alloc, Ground::Var(1), total)
}

/// The trees of a small family of models over x and y.
pub fn family_tree(alloc: Global, kind: u8) -> Result<Ground, AllocError>
    ensures { IfOk result (IsTruth square) }
{
    match kind {
        0 => Ok(Ground::True),
        1 => Ok(Ground::False),
        2 => equal(alloc, Ground::Var(0), Ground::Num(2)),
        3 => unequal(alloc, Ground::Var(1), Ground::Num(2)),
        4 => less(alloc, Ground::Var(0), Ground::Var(1)),
        5 => unequal(alloc, Ground::Var(0), Ground::Var(1)),
        6 => sum_is_three(alloc),
        7 => product_below_three(alloc),
        _ => divides(alloc),
    }
}
