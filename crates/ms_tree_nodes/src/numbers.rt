//! Operations on numbers: none where what the node may mean leaves the limits.

ghost use Rattle.std.specs.Prelude.{◌≡◌, IfOk};
ghost use Rattle.ms_tree_nodes.specs.Nodes as n;

use crate::counts::{above, above_both, over_both};
use ms_ground::operations;
use ms_trees::Ground;
use ms_values::Placed;
use sqlite_items::Boxed;
use std::alloc::{AllocError, Global};

/// `x + y`
pub fn sum(alloc: Global, x: Placed, y: Placed) -> Result<Option<Placed>, AllocError>
    ensures { IfOk result (λ z. z ≡ n.sum x y) }
{
    match operations::sum(x.enclosure, y.enclosure) {
        Some(enclosure) => Ok(Some(Placed {
            enclosure,
            size: above_both(x.size, y.size),
            nesting: over_both(x.nesting, y.nesting),
            tree: Boxed::new(alloc, Ground::Add(x.tree, y.tree))?,
        })),
        None => Ok(None),
    }
}

/// `x - y`
pub fn difference(alloc: Global, x: Placed, y: Placed) -> Result<Option<Placed>, AllocError>
    ensures { IfOk result (λ z. z ≡ n.difference x y) }
{
    match operations::difference(x.enclosure, y.enclosure) {
        Some(enclosure) => Ok(Some(Placed {
            enclosure,
            size: above_both(x.size, y.size),
            nesting: over_both(x.nesting, y.nesting),
            tree: Boxed::new(alloc, Ground::Sub(x.tree, y.tree))?,
        })),
        None => Ok(None),
    }
}

/// `x * y`
pub fn product(alloc: Global, x: Placed, y: Placed) -> Result<Option<Placed>, AllocError>
    ensures { IfOk result (λ z. z ≡ n.product x y) }
{
    match operations::product(x.enclosure, y.enclosure) {
        Some(enclosure) => Ok(Some(Placed {
            enclosure,
            size: above_both(x.size, y.size),
            nesting: over_both(x.nesting, y.nesting),
            tree: Boxed::new(alloc, Ground::Mul(x.tree, y.tree))?,
        })),
        None => Ok(None),
    }
}

/// `x div y`, cut toward zero; undefined where `y` is 0.
pub fn quotient(alloc: Global, x: Placed, y: Placed) -> Result<Option<Placed>, AllocError>
    ensures { IfOk result (λ z. z ≡ n.quotient x y) }
{
    match operations::quotient(x.enclosure, y.enclosure) {
        Some(enclosure) => Ok(Some(Placed {
            enclosure,
            size: above_both(x.size, y.size),
            nesting: over_both(x.nesting, y.nesting),
            tree: Boxed::new(alloc, Ground::Div(x.tree, y.tree))?,
        })),
        None => Ok(None),
    }
}

/// `x mod y`, with the sign of `x`; undefined where `y` is 0.
pub fn remainder(alloc: Global, x: Placed, y: Placed) -> Result<Option<Placed>, AllocError>
    ensures { IfOk result (λ z. z ≡ n.remainder x y) }
{
    match operations::remainder(x.enclosure, y.enclosure) {
        Some(enclosure) => Ok(Some(Placed {
            enclosure,
            size: above_both(x.size, y.size),
            nesting: over_both(x.nesting, y.nesting),
            tree: Boxed::new(alloc, Ground::Mod(x.tree, y.tree))?,
        })),
        None => Ok(None),
    }
}

/// `-x`
pub fn negation(alloc: Global, x: Placed) -> Result<Option<Placed>, AllocError>
    ensures { IfOk result (λ z. z ≡ n.negation x) }
{
    match operations::negation(x.enclosure) {
        Some(enclosure) => Ok(Some(Placed {
            enclosure,
            size: above(x.size),
            nesting: above(x.nesting),
            tree: Boxed::new(alloc, Ground::Neg(x.tree))?,
        })),
        None => Ok(None),
    }
}

/// The absolute value.
pub fn magnitude(alloc: Global, x: Placed) -> Result<Option<Placed>, AllocError>
    ensures { IfOk result (λ z. z ≡ n.magnitude x) }
{
    match operations::magnitude(x.enclosure) {
        Some(enclosure) => Ok(Some(Placed {
            enclosure,
            size: above(x.size),
            nesting: above(x.nesting),
            tree: Boxed::new(alloc, Ground::Abs(x.tree))?,
        })),
        None => Ok(None),
    }
}
