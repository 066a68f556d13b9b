//! The parts of a node over a list.

ghost use Rattle.std.specs.Prelude.{◌≡◌, IfOk};
ghost use Rattle.ms_tree_nodes.specs.Nodes as n;

use ms_trees::{Enclosure, Trees};
use ms_values::{Elements, Placed};
use std::alloc::{AllocError, Global};

/// The trees of the parts, what they may mean, the size of a node over them, and how deep the deepest is.
#[derive(Drop)]
pub struct Parts {
    pub trees: Trees,
    pub enclosures: Vec<Enclosure>,
    pub size: u64,
    pub depth: u64,
}

fn trees_of(alloc: Global, xs: Elements<Placed>) -> Result<Trees, AllocError>
    ensures { IfOk result (λ trees. trees ≡ n.trees_of xs) }
{
    let mut trees = Trees::new(alloc);
    for x in xs.into_vec() {
        trees.push(x.tree.into_inner())?;
    }
    Ok(trees)
}

fn enclosures_of(alloc: Global, xs: &[Placed]) -> Result<Vec<Enclosure>, AllocError>
    ensures { IfOk result (λ enclosures. enclosures.items ≡ n.enclosures_of xs.now) }
{
    let mut enclosures = Vec::new(alloc);
    for x in xs {
        enclosures.push(x.enclosure)?;
    }
    Ok(enclosures)
}

fn size_over(xs: &[Placed]) -> u64
    ensures { result ≡ n.above (n.sizes_of xs.now) }
{
    let mut size = 1u64;
    for x in xs {
        size = size.saturating_add(x.size);
    }
    size
}

fn depth_of(xs: &[Placed]) -> u64
    ensures { result ≡ n.deepest_of xs.now }
{
    let mut depth = 0u64;
    for x in xs {
        depth = depth.max(x.nesting);
    }
    depth
}

pub fn parts_of(alloc: Global, xs: Elements<Placed>) -> Result<Parts, AllocError>
    ensures trees { IfOk result (λ p. p.trees ≡ n.trees_of xs) }
    ensures enclosures { IfOk result (λ p. p.enclosures.items ≡ n.enclosures_of xs) }
    ensures size { IfOk result (λ p. p.size ≡ n.above (n.sizes_of xs)) }
    ensures depth { IfOk result (λ p. p.depth ≡ n.deepest_of xs) }
{
    let enclosures = enclosures_of(alloc, xs.as_slice())?;
    let size = size_over(xs.as_slice());
    let depth = depth_of(xs.as_slice());
    let trees = trees_of(alloc, xs)?;
    Ok(Parts {
        trees,
        enclosures,
        size,
        depth,
    })
}
