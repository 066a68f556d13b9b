//! Leaves.

ghost use Rattle.std.specs.Prelude.{◌≡◌, IfOk};
ghost use Rattle.ms_tree_nodes.specs.Nodes as n;

use ms_ground::operations::{boolean, numeric};
use ms_num::Iv;
use ms_trees::{Enclosure, Ground};
use ms_values::{Narrow, Placed};
use sqlite_items::Boxed;
use std::alloc::{AllocError, Global};

fn leaf(alloc: Global, tree: Ground, enclosure: Enclosure) -> Result<Placed, AllocError>
    ensures { IfOk result (λ x. x ≡ n.leaf tree enclosure) }
{
    Ok(Placed {
        tree: Boxed::new(alloc, tree)?,
        enclosure,
        size: 1,
        nesting: 1,
    })
}

/// A known integer, which may have no value.
pub fn number_leaf(alloc: Global, number: Option<Narrow>) -> Result<Placed, AllocError>
    ensures { IfOk result (λ x. x ≡ n.number_leaf number) }
{
    match number {
        Some(number) => {
            let z = number.get();
            leaf(alloc, Ground::Num(z), numeric(Some(Iv::single(z)), false))
        }
        None => leaf(alloc, Ground::Undef, numeric(None, true)),
    }
}

/// A known Boolean.
pub fn truth_leaf(alloc: Global, truth: bool) -> Result<Placed, AllocError>
    ensures { IfOk result (λ x. x ≡ n.truth_leaf truth) }
{
    if truth {
        leaf(alloc, Ground::True, boolean(true, false))
    } else {
        leaf(alloc, Ground::False, boolean(false, true))
    }
}

/// An integer variable, by the interval of its declared set.
pub fn variable(alloc: Global, variable: u32, set: Iv) -> Result<Placed, AllocError>
    ensures { IfOk result (λ x. x ≡ n.variable variable set) }
{
    leaf(alloc, Ground::Var(variable), numeric(Some(set), false))
}

/// A Boolean variable, by the interval of its declared set.
pub fn bit_variable(alloc: Global, variable: u32, set: Iv) -> Result<Placed, AllocError>
    ensures { IfOk result (λ x. x ≡ n.bit_variable variable set) }
{
    leaf(
        alloc,
        Ground::BVar(variable),
        boolean(set.has(1), set.has(0)),
    )
}
