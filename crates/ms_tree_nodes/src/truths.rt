//! Truth values, comparisons, and what takes truth values.

ghost use Rattle.std.specs.Prelude.{◌≡◌, IfOk, length, ◌+◌};
ghost use Rattle.ms_trees.specs.Enclosure.{admitted as admitted_of, either_number, numeric_enclosure};
ghost use Rattle.ms_tree_nodes.specs.Nodes as n;

use crate::counts::{above, above_both, above_three, over_both, over_three};
use ms_ground::operations::{self, numeric};
use ms_num::{Iv, Ranges};
use ms_trees::{Enclosure, Ground};
use ms_values::Placed;
use sqlite_items::Boxed;
use std::alloc::{AllocError, Global};

/// `not x`
pub fn denial(alloc: Global, x: Placed) -> Result<Placed, AllocError>
    ensures { IfOk result (λ z. z ≡ n.denial x) }
{
    Ok(Placed {
        enclosure: operations::denial(x.enclosure),
        size: above(x.size),
        nesting: above(x.nesting),
        tree: Boxed::new(alloc, Ground::Not(x.tree))?,
    })
}

/// 1 where the tree is true, else 0.
pub fn bit(alloc: Global, x: Placed) -> Result<Placed, AllocError>
    ensures { IfOk result (λ z. z ≡ n.bit x) }
{
    let bits = bits(x.enclosure.may_be_true, x.enclosure.may_be_false);
    Ok(Placed {
        enclosure: numeric(bits, false),
        size: above(x.size),
        nesting: above(x.nesting),
        tree: Boxed::new(alloc, Ground::ToInt(x.tree))?,
    })
}

fn bits(may_be_true: bool, may_be_false: bool) -> Option<Iv>
    ensures { result ≡ n.bits may_be_true may_be_false }
{
    match (may_be_true, may_be_false) {
        (true, true) => Some(Iv::new(0, 1)),
        (true, false) => Some(Iv::single(1)),
        (false, true) => Some(Iv::single(0)),
        (false, false) => None,
    }
}

/// `x <-> y`
pub fn equivalence(alloc: Global, x: Placed, y: Placed) -> Result<Placed, AllocError>
    ensures { IfOk result (λ z. z ≡ n.equivalence x y) }
{
    Ok(Placed {
        enclosure: operations::equivalence(x.enclosure, y.enclosure),
        size: above_both(x.size, y.size),
        nesting: over_both(x.nesting, y.nesting),
        tree: Boxed::new(alloc, Ground::Iff(x.tree, y.tree))?,
    })
}

/// `x -> y`
pub fn implication(alloc: Global, x: Placed, y: Placed) -> Result<Placed, AllocError>
    ensures { IfOk result (λ z. z ≡ n.implication x y) }
{
    Ok(Placed {
        enclosure: operations::implication(x.enclosure, y.enclosure),
        size: above_both(x.size, y.size),
        nesting: over_both(x.nesting, y.nesting),
        tree: Boxed::new(alloc, Ground::Imp(x.tree, y.tree))?,
    })
}

/// `x xor y`
pub fn exclusive(alloc: Global, x: Placed, y: Placed) -> Result<Placed, AllocError>
    ensures { IfOk result (λ z. z ≡ n.exclusive x y) }
{
    Ok(Placed {
        enclosure: operations::exclusive(x.enclosure, y.enclosure),
        size: above_both(x.size, y.size),
        nesting: over_both(x.nesting, y.nesting),
        tree: Boxed::new(alloc, Ground::Xor(x.tree, y.tree))?,
    })
}

/// `x = y`, false where a part is undefined, as each comparison.
pub fn equal(alloc: Global, x: Placed, y: Placed) -> Result<Placed, AllocError>
    ensures { IfOk result (λ z. z ≡ n.equal x y) }
{
    Ok(Placed {
        enclosure: operations::equal(x.enclosure, y.enclosure),
        size: above_both(x.size, y.size),
        nesting: over_both(x.nesting, y.nesting),
        tree: Boxed::new(alloc, Ground::Eq(x.tree, y.tree))?,
    })
}

/// `x != y`
pub fn unequal(alloc: Global, x: Placed, y: Placed) -> Result<Placed, AllocError>
    ensures { IfOk result (λ z. z ≡ n.unequal x y) }
{
    Ok(Placed {
        enclosure: operations::unequal(x.enclosure, y.enclosure),
        size: above_both(x.size, y.size),
        nesting: over_both(x.nesting, y.nesting),
        tree: Boxed::new(alloc, Ground::Ne(x.tree, y.tree))?,
    })
}

/// `x < y`
pub fn less(alloc: Global, x: Placed, y: Placed) -> Result<Placed, AllocError>
    ensures { IfOk result (λ z. z ≡ n.less x y) }
{
    Ok(Placed {
        enclosure: operations::less(x.enclosure, y.enclosure),
        size: above_both(x.size, y.size),
        nesting: over_both(x.nesting, y.nesting),
        tree: Boxed::new(alloc, Ground::Lt(x.tree, y.tree))?,
    })
}

/// `x <= y`
pub fn at_most(alloc: Global, x: Placed, y: Placed) -> Result<Placed, AllocError>
    ensures { IfOk result (λ z. z ≡ n.at_most x y) }
{
    Ok(Placed {
        enclosure: operations::at_most(x.enclosure, y.enclosure),
        size: above_both(x.size, y.size),
        nesting: over_both(x.nesting, y.nesting),
        tree: Boxed::new(alloc, Ground::Le(x.tree, y.tree))?,
    })
}

/// The number lies in the set.
pub fn member(alloc: Global, set: Ranges, x: Placed) -> Result<Placed, AllocError>
    ensures { IfOk result (λ z. z ≡ n.member set x) }
{
    Ok(Placed {
        enclosure: operations::membership(x.enclosure, &set),
        size: above_both(x.size, set.ranges().len() as u64),
        nesting: above(x.nesting),
        tree: Boxed::new(alloc, Ground::In(x.tree, set))?,
    })
}

/// The taken branch alone, of two integers.
pub fn choice(alloc: Global, c: Placed, x: Placed, y: Placed) -> Result<Placed, AllocError>
    ensures { IfOk result (λ z. z ≡ n.choice c x y) }
{
    Ok(Placed {
        enclosure: either(c.enclosure, x.enclosure, y.enclosure),
        size: above_three(c.size, x.size, y.size),
        nesting: over_three(c.nesting, x.nesting, y.nesting),
        tree: Boxed::new(alloc, Ground::IteI(c.tree, x.tree, y.tree))?,
    })
}

fn either(c: Enclosure, x: Enclosure, y: Enclosure) -> Enclosure
    ensures { result ≡ either_number c x y }
{
    let first = admitted(c.may_be_true, x.interval);
    let second = admitted(c.may_be_false, y.interval);
    numeric(
        Iv::join_some(first, second),
        c.may_be_true && x.may_be_undefined || c.may_be_false && y.may_be_undefined,
    )
}

fn admitted(condition: bool, x: Option<Iv>) -> Option<Iv>
    ensures { result ≡ admitted_of condition x }
{
    if condition { x } else { None }
}

/// The taken branch alone, of two Booleans.
pub fn choice_of_truths(
    alloc: Global,
    c: Placed,
    x: Placed,
    y: Placed,
) -> Result<Placed, AllocError>
    ensures { IfOk result (λ z. z ≡ n.choice_of_truths c x y) }
{
    Ok(Placed {
        enclosure: operations::either_of_truths(c.enclosure, x.enclosure, y.enclosure),
        size: above_three(c.size, x.size, y.size),
        nesting: over_three(c.nesting, x.nesting, y.nesting),
        tree: Boxed::new(alloc, Ground::IteB(c.tree, x.tree, y.tree))?,
    })
}
