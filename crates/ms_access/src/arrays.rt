//! An array, and one index or two.

ghost use Rattle.std.specs.Prelude.{◌≡◌, IfOk, Ok, Some, None, true, false, ◌||◌};
ghost use Rattle.ms_tree_nodes.specs.Nodes as n;
ghost use Rattle.ms_rules.specs.Access as a;
ghost use Rattle.ms_rules.specs.Cells as c;
ghost use Rattle.ms_rules.specs.Operands as r;

use crate::elements::element;
use crate::lines::{column_of, row_of};
use crate::nodes::{select, select_in_grid};
use crate::places::{place_by, place_in_grid, place_of};
use ms_rules::{
    cells_of, count_of, integer_of, is_logical_kind, is_variable, kind_of, no_number, no_truth,
    number_of, undefined_of,
};
use ms_values::{Array, IndexRange, Indices, Kind, Narrow, Operand, Shared};
use std::alloc::{AllocError, Global};

// ---- elements that there are not

fn undefined_variable(alloc: Global, kind: Kind) -> Result<Operand, AllocError>
    ensures { IfOk result (λ x. x ≡ a.undefined_variable kind) }
{
    if is_logical_kind(kind) {
        no_truth(alloc, true)
    } else {
        no_number(alloc, true)
    }
}

fn undefined_by(alloc: Global, variable: bool, kind: Kind) -> Result<Option<Operand>, AllocError>
    ensures { IfOk result (λ x. x ≡ Some (a.undefined_by variable kind)) }
{
    if variable {
        Ok(Some(undefined_variable(alloc, kind)?))
    } else {
        Ok(Some(undefined_of(alloc, kind)?))
    }
}

fn any_variable(i: Operand, j: Option<Operand>) -> bool
    ensures { result ≡ (r.is_variable i || a.is_variable_index j) }
{
    match j {
        Some(j) => is_variable(&i) || is_variable(&j),
        None => is_variable(&i),
    }
}

// The array has another number of dimensions.
fn other_dimensions(
    alloc: Global,
    array: Shared<Array>,
    _i: Operand,
    _j: Option<Operand>,
) -> Result<Option<Operand>, AllocError>
    ensures { IfOk result (λ x. x ≡ Some (r.undefined_of (r.kind_of array.cells))) }
{
    undefined_by(alloc, false, kind_of(&array.get().cells))
}

// One index is outside, and the other one is variable.
fn outside(
    alloc: Global,
    array: Shared<Array>,
    _index: Operand,
) -> Result<Option<Operand>, AllocError>
    ensures { IfOk result (λ x. x ≡ Some (a.undefined_variable (r.kind_of array.cells))) }
{
    undefined_by(alloc, true, kind_of(&array.get().cells))
}

// ---- one dimension

fn element_in_line(
    alloc: Global,
    low: Narrow,
    array: &Array,
    index: Option<Narrow>,
) -> Result<Option<Operand>, AllocError>
    ensures { IfOk result (λ x. x ≡ Some (c.element array.now.cells (a.place_of low (r.count_of array.now.cells) index))) }
{
    let at = place_of(low, count_of(&array.cells), index);
    Ok(Some(element(alloc, &array.cells, at)?))
}

fn known_in_line(
    alloc: Global,
    low: Narrow,
    array: Shared<Array>,
    index: Operand,
) -> Result<Option<Operand>, AllocError>
    ensures { IfOk result (λ x. x ≡ Some (c.element array.cells (a.place_of low (r.count_of array.cells) (r.number_of index)))) }
{
    element_in_line(alloc, low, array.get(), number_of(&index))
}

fn variable_in_line(
    alloc: Global,
    low: Narrow,
    array: Shared<Array>,
    index: Operand,
) -> Result<Option<Operand>, AllocError>
    ensures { IfOk result (λ x. x ≡ a.selected (λ xs. n.element low xs (r.integer_of index)) array.cells) }
{
    let index = integer_of(alloc, index)?;
    let cells = cells_of(alloc, array)?;
    select(alloc, low, cells, index)
}

fn in_line(
    alloc: Global,
    low: Narrow,
    array: Shared<Array>,
    index: Operand,
) -> Result<Option<Operand>, AllocError>
    ensures { IfOk result (λ x. x ≡ a.in_line low array.cells index) }
{
    if is_variable(&index) {
        variable_in_line(alloc, low, array, index)
    } else {
        known_in_line(alloc, low, array, index)
    }
}

fn by_one(
    alloc: Global,
    array: Shared<Array>,
    index: Operand,
) -> Result<Option<Operand>, AllocError>
    ensures { IfOk result (λ x. x ≡ a.access_by array.indices array.cells index None) }
{
    match array.get().indices {
        Indices::Line(low) => in_line(alloc, low, array, index),
        Indices::Grid(_, _) => other_dimensions(alloc, array, index, None),
    }
}

// ---- two dimensions

// Both parts, where both could be made.
fn both<A: Drop, B: Drop>(
    first: Result<A, AllocError>,
    second: Result<B, AllocError>,
) -> Result<(A, B), AllocError>
    ensures { IfOk result (λ pair. (first ≡ Ok pair.0) × (second ≡ Ok pair.1)) }
{
    match (first, second) {
        (Ok(first), Ok(second)) => Ok((first, second)),
        (Err(refused), _) => Err(refused),
        (_, Err(refused)) => Err(refused),
    }
}

fn known_in_grid(
    alloc: Global,
    rows: IndexRange,
    columns: IndexRange,
    array: Shared<Array>,
    i: Operand,
    j: Operand,
) -> Result<Option<Operand>, AllocError>
    ensures { IfOk result (λ x. x ≡ a.in_grid false false rows columns array.cells i j) }
{
    let row = place_by(rows.low, rows.count, i);
    let column = place_by(columns.low, columns.count, j);
    let at = place_in_grid(columns.count, row, column);
    Ok(Some(element(alloc, &array.get().cells, at)?))
}

fn variable_in_row(
    alloc: Global,
    columns: IndexRange,
    array: Shared<Array>,
    row: u32,
    j: Operand,
) -> Result<Option<Operand>, AllocError>
    ensures { IfOk result (λ x. x ≡ a.in_row columns array.cells j (Some row)) }
{
    let index = integer_of(alloc, j)?;
    let cells = row_of(alloc, columns.count, row, &array.get().cells)?;
    select(alloc, columns.low, cells, index)
}

fn in_row(
    alloc: Global,
    columns: IndexRange,
    array: Shared<Array>,
    row: Option<u32>,
    j: Operand,
) -> Result<Option<Operand>, AllocError>
    ensures { IfOk result (λ x. x ≡ a.in_row columns array.cells j row) }
{
    match row {
        Some(row) => variable_in_row(alloc, columns, array, row, j),
        None => outside(alloc, array, j),
    }
}

fn variable_in_column(
    alloc: Global,
    rows: IndexRange,
    columns: IndexRange,
    array: Shared<Array>,
    i: Operand,
    column: u32,
) -> Result<Option<Operand>, AllocError>
    ensures { IfOk result (λ x. x ≡ a.in_column rows columns array.cells i (Some column)) }
{
    let index = integer_of(alloc, i)?;
    let cells = column_of(alloc, columns.count, column, rows.count, &array.get().cells)?;
    select(alloc, rows.low, cells, index)
}

fn in_column(
    alloc: Global,
    rows: IndexRange,
    columns: IndexRange,
    array: Shared<Array>,
    i: Operand,
    column: Option<u32>,
) -> Result<Option<Operand>, AllocError>
    ensures { IfOk result (λ x. x ≡ a.in_column rows columns array.cells i column) }
{
    match column {
        Some(column) => variable_in_column(alloc, rows, columns, array, i, column),
        None => outside(alloc, array, i),
    }
}

fn variable_in_grid(
    alloc: Global,
    rows: IndexRange,
    columns: IndexRange,
    array: Shared<Array>,
    i: Operand,
    j: Operand,
) -> Result<Option<Operand>, AllocError>
    ensures { IfOk result (λ x. x ≡ a.in_grid true true rows columns array.cells i j) }
{
    let (row, column) = both(integer_of(alloc, i), integer_of(alloc, j))?;
    let cells = cells_of(alloc, array)?;
    select_in_grid(alloc, rows, columns, cells, row, column)
}

fn in_grid(
    alloc: Global,
    rows: IndexRange,
    columns: IndexRange,
    array: Shared<Array>,
    i: Operand,
    j: Operand,
) -> Result<Option<Operand>, AllocError>
    ensures { IfOk result (λ x. x ≡ a.in_grid (r.is_variable i) (r.is_variable j) rows columns array.cells i j) }
{
    if is_variable(&i) {
        if is_variable(&j) {
            variable_in_grid(alloc, rows, columns, array, i, j)
        } else {
            let column = place_by(columns.low, columns.count, j);
            in_column(alloc, rows, columns, array, i, column)
        }
    } else if is_variable(&j) {
        let row = place_by(rows.low, rows.count, i);
        in_row(alloc, columns, array, row, j)
    } else {
        known_in_grid(alloc, rows, columns, array, i, j)
    }
}

fn by_two(
    alloc: Global,
    array: Shared<Array>,
    i: Operand,
    j: Operand,
) -> Result<Option<Operand>, AllocError>
    ensures { IfOk result (λ x. x ≡ a.access_by array.indices array.cells i (Some j)) }
{
    match array.get().indices {
        Indices::Line(_) => other_dimensions(alloc, array, i, Some(j)),
        Indices::Grid(rows, columns) => in_grid(alloc, rows, columns, array, i, j),
    }
}

fn by_indices(
    alloc: Global,
    array: Shared<Array>,
    i: Operand,
    j: Option<Operand>,
) -> Result<Option<Operand>, AllocError>
    ensures { IfOk result (λ x. x ≡ a.access_by array.indices array.cells i j) }
{
    match j {
        Some(j) => by_two(alloc, array, i, j),
        None => by_one(alloc, array, i),
    }
}

// What is no array.
fn of_no_array(_i: Operand, _j: Option<Operand>) -> Option<Operand>
    ensures { result ≡ Some (r.no_number false) }
{
    Some(Operand::Number(None))
}

/// The element of an array by one index, or by two.
pub fn access(
    alloc: Global,
    x: Operand,
    i: Operand,
    j: Option<Operand>,
) -> Result<Option<Operand>, AllocError>
    ensures { IfOk result (λ z. z ≡ a.access x i j) }
{
    match x {
        Operand::Array(array) => by_indices(alloc, array, i, j),
        Operand::NoArray(kind) => undefined_by(alloc, any_variable(i, j), kind),
        Operand::Number(_) => Ok(of_no_array(i, j)),
        Operand::Truth(_) => Ok(of_no_array(i, j)),
        Operand::Set(_) => Ok(of_no_array(i, j)),
        Operand::Text(_) => Ok(of_no_array(i, j)),
        Operand::Integer(_) => Ok(of_no_array(i, j)),
        Operand::Condition(_) => Ok(of_no_array(i, j)),
    }
}
