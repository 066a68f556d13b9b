//! Nodes over lists.

ghost use Rattle.std.specs.Prelude.{◌≡◌, IfOk, ◌+◌, sum_by, length};
ghost use Rattle.ms_tree_nodes.specs.Nodes as n;

use crate::counts::{above, over_both, over_three};
use crate::parts::parts_of;
use ms_evaluator::{Evaluator, lists};
use ms_trees::{Extreme, Ground, Rows, Trees};
use ms_values::{Elements, Narrow, Placed};
use sqlite_items::Boxed;
use std::alloc::{AllocError, Global};

/// The sum of the list, tested after each addition; none where one leaves the limits.
pub fn total(alloc: Global, xs: Elements<Placed>) -> Result<Option<Placed>, AllocError>
    ensures { IfOk result (λ z. z ≡ n.total xs) }
{
    let parts = parts_of(alloc, xs)?;
    match lists::sum(parts.enclosures.as_slice()) {
        Some(enclosure) => Ok(Some(Placed {
            enclosure,
            size: parts.size,
            nesting: above(parts.depth),
            tree: Boxed::new(alloc, Ground::Sum(parts.trees))?,
        })),
        None => Ok(None),
    }
}

fn extreme_tree(which: Extreme, trees: Trees) -> Ground
    ensures { result ≡ n.extreme_tree which trees }
{
    match which {
        Extreme::Least => Ground::Least(trees),
        Extreme::Greatest => Ground::Greatest(trees),
    }
}

/// The least or the greatest of the list, undefined where it is empty.
pub fn extreme(
    alloc: Global,
    which: Extreme,
    xs: Elements<Placed>,
) -> Result<Option<Placed>, AllocError>
    ensures { IfOk result (λ z. z ≡ n.extreme which xs) }
{
    let parts = parts_of(alloc, xs)?;
    match lists::extreme(which, parts.enclosures.as_slice()) {
        Some(enclosure) => Ok(Some(Placed {
            enclosure,
            size: parts.size,
            nesting: above(parts.depth),
            tree: Boxed::new(alloc, extreme_tree(which, parts.trees))?,
        })),
        None => Ok(None),
    }
}

/// How many of the list are `y`.
pub fn count(alloc: Global, xs: Elements<Placed>, y: Placed) -> Result<Option<Placed>, AllocError>
    ensures { IfOk result (λ z. z ≡ n.count xs y) }
{
    let parts = parts_of(alloc, xs)?;
    match lists::count(parts.enclosures.as_slice(), y.enclosure) {
        Some(enclosure) => Ok(Some(Placed {
            enclosure,
            size: parts.size.saturating_add(y.size),
            nesting: over_both(parts.depth, y.nesting),
            tree: Boxed::new(alloc, Ground::Count(parts.trees, y.tree))?,
        })),
        None => Ok(None),
    }
}

/// The element of an index, where the first has the lowest.
pub fn element(
    alloc: Global,
    low: Narrow,
    xs: Elements<Placed>,
    index: Placed,
) -> Result<Option<Placed>, AllocError>
    ensures { IfOk result (λ z. z ≡ n.element low xs index) }
{
    let low = low.get();
    let parts = parts_of(alloc, xs)?;
    match lists::element(parts.enclosures.as_slice(), low, index.enclosure) {
        Some(enclosure) => Ok(Some(Placed {
            enclosure,
            size: parts.size.saturating_add(index.size),
            nesting: over_both(parts.depth, index.nesting),
            tree: Boxed::new(alloc, Ground::Elem(low, parts.trees, index.tree))?,
        })),
        None => Ok(None),
    }
}

/// The element of a row and a column, where the elements stand row by row, in whole rows of the width.
pub fn element_of_grid(
    alloc: Global,
    low: Narrow,
    left: Narrow,
    width: u32,
    xs: Elements<Placed>,
    row: Placed,
    column: Placed,
) -> Result<Option<Placed>, AllocError>
    ensures { IfOk result (λ z. z ≡ n.element_of_grid low left width xs row column) }
{
    let (low, left) = (low.get(), left.get());
    let parts = parts_of(alloc, xs)?;
    let enclosures = parts.enclosures.as_slice();
    let (i, j) = (row.enclosure, column.enclosure);
    match lists::element_of_grid(enclosures, low, left, width as usize, i, j) {
        Some(enclosure) => Ok(Some(Placed {
            enclosure,
            size: parts
                .size
                .saturating_add(row.size)
                .saturating_add(column.size),
            nesting: over_three(parts.depth, row.nesting, column.nesting),
            tree: Boxed::new(
                alloc,
                Ground::Elem2(low, left, width, parts.trees, row.tree, column.tree),
            )?,
        })),
        None => Ok(None),
    }
}

/// The conjunction of the list.
pub fn all(alloc: Global, xs: Elements<Placed>) -> Result<Placed, AllocError>
    ensures { IfOk result (λ z. z ≡ n.all xs) }
{
    let parts = parts_of(alloc, xs)?;
    Ok(Placed {
        enclosure: lists::all(parts.enclosures.as_slice()),
        size: parts.size,
        nesting: above(parts.depth),
        tree: Boxed::new(alloc, Ground::And(parts.trees))?,
    })
}

/// The disjunction of the list.
pub fn some(alloc: Global, xs: Elements<Placed>) -> Result<Placed, AllocError>
    ensures { IfOk result (λ z. z ≡ n.some xs) }
{
    let parts = parts_of(alloc, xs)?;
    Ok(Placed {
        enclosure: lists::some(parts.enclosures.as_slice()),
        size: parts.size,
        nesting: above(parts.depth),
        tree: Boxed::new(alloc, Ground::Or(parts.trees))?,
    })
}

/// Each is a number, and no two are the same.
pub fn distinct(alloc: Global, xs: Elements<Placed>) -> Result<Placed, AllocError>
    ensures { IfOk result (λ z. z ≡ n.distinct xs) }
{
    let parts = parts_of(alloc, xs)?;
    let enclosure = Evaluator::new(alloc).distinct(parts.enclosures.as_slice())?;
    Ok(Placed {
        enclosure,
        size: parts.size,
        nesting: above(parts.depth),
        tree: Boxed::new(alloc, Ground::AllDiff(parts.trees))?,
    })
}

/// They are the numbers of one of the rows.
pub fn rowed(alloc: Global, rows: Rows, xs: Elements<Placed>) -> Result<Placed, AllocError>
    ensures { IfOk result (λ z. z ≡ n.rowed rows xs) }
{
    let parts = parts_of(alloc, xs)?;
    Ok(Placed {
        enclosure: lists::rowed(parts.enclosures.as_slice(), rows.as_slice()),
        size: parts.size.saturating_add(rows.numbers()),
        nesting: above(parts.depth),
        tree: Boxed::new(alloc, Ground::Table(parts.trees, rows))?,
    })
}
