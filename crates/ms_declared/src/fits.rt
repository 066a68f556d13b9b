//! Arrays with the index sets that are declared.

ghost use Rattle.std.specs.Prelude.{◌≡◌, ◌&&◌, ℕ, pos, IfOk};
ghost use Rattle.ms_num.specs.Numbers.{int_eq};
ghost use Rattle.ms_values.specs.declared.operand.Operand.TheVariants as o;
ghost use Rattle.ms_declared.specs.Made.{Gives};
ghost use Rattle.ms_declared.specs.Indexed as i;

use crate::fault::ValueFault;
use ms_rules::{cells_of, count_of};
use ms_syntax::FileNo;
use ms_values::{Array, IndexRange, Indices, Narrow, Operand, Shared};
use std::alloc::{AllocError, Global};

fn begins_at_one(low: Narrow) -> bool
    ensures { result ≡ int_eq low (pos 1) }
{
    low.get() == 1
}

// The same indices.
fn is_side(side: &Option<IndexRange>, low: Narrow, count: usize) -> bool
    ensures { result ≡ i.is_side side.now (record { low = low; count = count }) }
{
    match side {
        None => true,
        Some(side) => side.low.get() == low.get() && side.count as usize == count,
    }
}

// As many indices.
fn is_long(side: &Option<IndexRange>, count: usize) -> bool
    ensures { result ≡ i.is_long side.now count }
{
    match side {
        None => true,
        Some(side) => side.count as usize == count,
    }
}

fn moved(side: &Option<IndexRange>, range: &IndexRange) -> IndexRange
    ensures { result ≡ i.moved side.now range.now }
{
    match side {
        None => *range,
        Some(side) => *side,
    }
}

fn moved_low(side: &Option<IndexRange>, low: Narrow) -> Narrow
    ensures { (n : ℕ) → result ≡ (i.moved side.now (record { low = low; count = n })).low }
{
    match side {
        None => low,
        Some(side) => side.low,
    }
}

fn line_fitted(
    file: FileNo,
    side: &Option<IndexRange>,
    low: Narrow,
    count: usize,
) -> Result<Indices, ValueFault>
    ensures { Gives (i.line_fitted file side.now (record { low = low; count = count })) result }
{
    if begins_at_one(low) && is_long(side, count) {
        Ok(Indices::Line(moved_low(side, low)))
    } else if is_side(side, low, count) {
        Ok(Indices::Line(low))
    } else {
        Err(ValueFault::Shape(file))
    }
}

fn both_moved(
    row: &Option<IndexRange>,
    column: &Option<IndexRange>,
    rows: &IndexRange,
    columns: &IndexRange,
) -> bool
    ensures { result ≡ ((i.begins_at_one rows.now && i.begins_at_one columns.now) && (i.is_long row.now rows.now.count && i.is_long column.now columns.now.count)) }
{
    (begins_at_one(rows.low) && begins_at_one(columns.low))
        && (is_long(row, rows.count as usize) && is_long(column, columns.count as usize))
}

fn both_sides(
    row: &Option<IndexRange>,
    column: &Option<IndexRange>,
    rows: &IndexRange,
    columns: &IndexRange,
) -> bool
    ensures { result ≡ (i.is_side row.now rows.now && i.is_side column.now columns.now) }
{
    is_side(row, rows.low, rows.count as usize)
        && is_side(column, columns.low, columns.count as usize)
}

fn grid_fitted(
    file: FileNo,
    row: &Option<IndexRange>,
    column: &Option<IndexRange>,
    rows: &IndexRange,
    columns: &IndexRange,
) -> Result<Indices, ValueFault>
    ensures { Gives (i.grid_fitted file row.now column.now rows.now columns.now) result }
{
    if both_moved(row, column, rows, columns) {
        Ok(Indices::Grid(moved(row, rows), moved(column, columns)))
    } else if both_sides(row, column, rows, columns) {
        Ok(Indices::Grid(*rows, *columns))
    } else {
        Err(ValueFault::Shape(file))
    }
}

fn indices_fitted(
    file: FileNo,
    sides: &[Option<IndexRange>],
    indices: Indices,
    count: usize,
) -> Result<Indices, ValueFault>
    ensures { Gives (i.indices_fitted file sides.now indices count) result }
{
    match (sides, indices) {
        ([side], Indices::Line(low)) => line_fitted(file, side, low, count),
        ([row, column], Indices::Grid(rows, columns)) => {
            grid_fitted(file, row, column, &rows, &columns)
        }
        _ => Err(ValueFault::Shape(file)),
    }
}

fn arranged(alloc: Global, indices: Indices, array: Shared<Array>) -> Result<Operand, AllocError>
    ensures { IfOk result (λ x. x ≡ i.arranged indices array.cells) }
{
    let cells = cells_of(alloc, array)?;
    Ok(Operand::Array(Shared::new(alloc, Array { indices, cells })?))
}

fn array_fitted(
    alloc: Global,
    file: FileNo,
    sides: &[Option<IndexRange>],
    array: Shared<Array>,
) -> Result<Operand, ValueFault>
    ensures { Gives (i.fitted file sides.now (o.Array array)) result }
{
    let count = count_of(&array.get().cells);
    let indices = indices_fitted(file, sides, array.get().indices, count)?;
    Ok(arranged(alloc, indices, array)?)
}

/// A value with the index sets that its declaration has.
pub fn fitted(
    alloc: Global,
    file: FileNo,
    sides: &[Option<IndexRange>],
    x: Operand,
) -> Result<Operand, ValueFault>
    ensures { Gives (i.fitted file sides.now x) result }
{
    match x {
        Operand::Array(array) => array_fitted(alloc, file, sides, array),
        Operand::Number(n) => Ok(Operand::Number(n)),
        Operand::Truth(b) => Ok(Operand::Truth(b)),
        Operand::Set(s) => Ok(Operand::Set(s)),
        Operand::Text(t) => Ok(Operand::Text(t)),
        Operand::Integer(x) => Ok(Operand::Integer(x)),
        Operand::Condition(x) => Ok(Operand::Condition(x)),
        Operand::NoArray(kind) => Ok(Operand::NoArray(kind)),
    }
}
