ghost use Rattle.std.specs.Prelude.{◌≡◌, IsTrue, IfOk};
ghost use Rattle.ms_trees.specs.WellFormed.{is_well_formed};
ghost use Rattle.ms_trees.specs.Enclosure.{enclosure};
ghost use Rattle.ms_tree_nodes.specs.Kept.{IsKept, kept_of};

use ms_evaluator::Evaluator;
use ms_num::Iv;
use ms_trees::{Enclosure, Ground, nesting, size};
use ms_values::Placed;
use sqlite_items::Boxed;
use std::alloc::{AllocError, Global};

/// The tree, with what it may mean on the sets, its size and its nesting.
pub fn kept(alloc: Global, sets: &[Iv], tree: Ground) -> Result<Placed, AllocError>
    requires { IsTrue (is_well_formed sets.now tree) }
    ensures value { IfOk result (λ x. x ≡ kept_of sets.now tree) }
    ensures law { IfOk result (IsKept sets.now) }
{
    let enclosure = enclosure_on(alloc, sets, &tree)?;
    Ok(Placed {
        enclosure,
        size: size(&tree),
        nesting: nesting(&tree),
        tree: Boxed::new(alloc, tree)?,
    })
}

fn enclosure_on(alloc: Global, sets: &[Iv], tree: &Ground) -> Result<Enclosure, AllocError>
    requires { IsTrue (is_well_formed sets.now tree.now) }
    ensures { IfOk result (λ r. r ≡ enclosure sets.now tree.now) }
{
    match Evaluator::new(alloc).enclose(tree, sets)? {
        Some(x) => Ok(x),
        None => unreachable!(),
    }
}
