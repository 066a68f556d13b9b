//! The element of a variable index: a node over the elements. That of Booleans is over their numbers.

ghost use Rattle.std.specs.Prelude.{◌≡◌, IfOk, map, pos, Some};
ghost use Rattle.ms_tree_nodes.specs.Nodes as n;
ghost use Rattle.ms_rules.specs.Access as a;
ghost use Rattle.ms_rules.specs.Cells as c;
ghost use Rattle.ms_rules.specs.Operators as o;

use ms_rules::{bits, conditions_of, integer, integers_of, is_logical_kind, kind_of};
use ms_tree_nodes::leaves::number_leaf;
use ms_tree_nodes::lists::{element, element_of_grid};
use ms_tree_nodes::truths::equal;
use ms_values::{Cells, Elements, IndexRange, Narrow, Operand, Placed};
use std::alloc::{AllocError, Global};

fn is_one(alloc: Global, node: Placed) -> Result<Operand, AllocError>
    ensures { IfOk result (λ x. x ≡ Operand.Condition (n.equal node (n.number_leaf (Some (pos 1))))) }
{
    let one = number_leaf(alloc, Narrow::new(1))?;
    Ok(Operand::Condition(equal(alloc, node, one)?))
}

// That the number of an element is 1.
fn chosen(alloc: Global, node: Option<Placed>) -> Result<Option<Operand>, AllocError>
    ensures { IfOk result (λ x. x ≡ a.chosen node) }
{
    match node {
        Some(node) => Ok(Some(is_one(alloc, node)?)),
        None => Ok(None),
    }
}

fn condition_bits(alloc: Global, cells: Cells) -> Result<Elements<Placed>, AllocError>
    ensures { IfOk result (λ trees. trees ≡ map n.bit (c.conditions_of cells)) }
{
    let conditions = conditions_of(alloc, cells)?;
    bits(alloc, conditions)
}

fn select_truth(
    alloc: Global,
    low: Narrow,
    cells: Cells,
    index: Placed,
) -> Result<Option<Operand>, AllocError>
    ensures { IfOk result (λ x. x ≡ a.chosen (n.element low (map n.bit (c.conditions_of cells)) index)) }
{
    let trees = condition_bits(alloc, cells)?;
    let node = element(alloc, low, trees, index)?;
    chosen(alloc, node)
}

fn select_number(
    alloc: Global,
    low: Narrow,
    cells: Cells,
    index: Placed,
) -> Result<Option<Operand>, AllocError>
    ensures { IfOk result (λ x. x ≡ o.integer (n.element low (c.integers_of cells) index)) }
{
    let trees = integers_of(alloc, cells)?;
    let node = element(alloc, low, trees, index)?;
    Ok(integer(node))
}

/// The element of a variable index, where the first has the lowest.
pub fn select(
    alloc: Global,
    low: Narrow,
    cells: Cells,
    index: Placed,
) -> Result<Option<Operand>, AllocError>
    ensures { IfOk result (λ x. x ≡ a.selected (λ xs. n.element low xs index) cells) }
{
    if is_logical_kind(kind_of(&cells)) {
        select_truth(alloc, low, cells, index)
    } else {
        select_number(alloc, low, cells, index)
    }
}

fn select_truth_in_grid(
    alloc: Global,
    rows: IndexRange,
    columns: IndexRange,
    cells: Cells,
    row: Placed,
    column: Placed,
) -> Result<Option<Operand>, AllocError>
    ensures { IfOk result (λ x. x ≡ a.chosen (n.element_of_grid rows.low columns.low columns.count (map n.bit (c.conditions_of cells)) row column)) }
{
    let trees = condition_bits(alloc, cells)?;
    let node = element_of_grid(
        alloc,
        rows.low,
        columns.low,
        columns.count,
        trees,
        row,
        column,
    )?;
    chosen(alloc, node)
}

fn select_number_in_grid(
    alloc: Global,
    rows: IndexRange,
    columns: IndexRange,
    cells: Cells,
    row: Placed,
    column: Placed,
) -> Result<Option<Operand>, AllocError>
    ensures { IfOk result (λ x. x ≡ o.integer (n.element_of_grid rows.low columns.low columns.count (c.integers_of cells) row column)) }
{
    let trees = integers_of(alloc, cells)?;
    let node = element_of_grid(
        alloc,
        rows.low,
        columns.low,
        columns.count,
        trees,
        row,
        column,
    )?;
    Ok(integer(node))
}

/// The element of a variable row and a variable column.
pub fn select_in_grid(
    alloc: Global,
    rows: IndexRange,
    columns: IndexRange,
    cells: Cells,
    row: Placed,
    column: Placed,
) -> Result<Option<Operand>, AllocError>
    ensures { IfOk result (λ x. x ≡ a.selected (λ xs. n.element_of_grid rows.low columns.low columns.count xs row column) cells) }
{
    if is_logical_kind(kind_of(&cells)) {
        select_truth_in_grid(alloc, rows, columns, cells, row, column)
    } else {
        select_number_in_grid(alloc, rows, columns, cells, row, column)
    }
}
