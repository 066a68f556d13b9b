//! Constraints, one more after the other.

ghost use Rattle.std.specs.Prelude.{◌≡◌, ◌+◌, ◌≤◌, ◌∷◌, [], ◌++◌, nat_le, OnOk};
ghost use Rattle.ms_base.specs.declared.limits.TheConstants.{LIVE_NODE_LIMIT as most_nodes};
ghost use Rattle.ms_made.specs.Constraining as c;
ghost use Rattle.ms_made.specs.Making.{AnswersOf};
ghost use Rattle.ms_making.specs.Views.{constraints_of};

use ms_base::{Count, LIVE_NODE_LIMIT, TREE_NESTING_LIMIT};
use ms_made::InstanceFault;
use ms_syntax::Place;
use ms_trees::Ground;
use ms_values::Placed;
use std::alloc::{AllocError, Global};

/// The constraints so far, with their nodes together.
#[derive(Drop)]
pub struct Constraints {
    pub trees: Vec<Ground>,
    pub nodes: u64,
}

impl Constraints {
    pub fn new(alloc: Global) -> Constraints
        ensures { constraints_of result ≡ c.no_constraints }
    {
        Constraints {
            trees: Vec::new(alloc),
            nodes: 0,
        }
    }
}

fn push_tree(constraints: &mut Constraints, tree: Ground, size: u64) -> Result<(), AllocError>
    requires { constraints.old.nodes + size ≤ most_nodes }
    ensures { OnOk result (constraints_of constraints.new ≡ record { trees = constraints.old.trees.items ++ tree ∷ []; nodes = constraints.old.nodes + size }) }
{
    constraints.trees.push(tree)?;
    constraints.nodes += size;
    Ok(())
}

fn is_roomy(nodes: u64, size: u64) -> bool
    ensures { result ≡ nat_le (nodes + size) most_nodes }
{
    nodes.saturating_add(size) <= LIVE_NODE_LIMIT
}

/// One constraint more, at this place.
pub fn constrain(
    constraints: &mut Constraints,
    place: Place,
    x: Placed,
) -> Result<(), InstanceFault>
    ensures { AnswersOf (λ u. constraints_of constraints.new) (c.constrain place x (constraints_of constraints.old)) result }
{
    let Placed {
        tree,
        enclosure: _,
        size,
        nesting,
    } = x;
    if nesting > TREE_NESTING_LIMIT as u64 {
        return Err(InstanceFault::Big(Count::Nesting, place));
    }
    if !is_roomy(constraints.nodes, size) {
        return Err(InstanceFault::Big(Count::Nodes, place));
    }
    push_tree(constraints, tree.into_inner(), size)?;
    Ok(())
}
