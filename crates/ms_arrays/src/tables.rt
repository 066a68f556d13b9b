//! Rows of a table.

ghost use Rattle.std.specs.Prelude.{◌≡◌, ◌==◌, IfOk, Some, map, option_map};
ghost use Rattle.std.specs.List.{list_any};
ghost use Rattle.ms_num.specs.Numbers.{int_eq};
ghost use Rattle.ms_trees.specs.Value.{numeric_meaning, test, is_row as is_row_of};
ghost use Rattle.ms_rules.specs.Operands as r;
ghost use Rattle.ms_rules.specs.Cells as c;
ghost use Rattle.ms_rules.specs.Tables as t;

use crate::arguments::{array_of, has_trees, numbers_in, trees_of, with_numbers};
use crate::truths::false_of;
use ms_rules::{count_of, no_truth};
use ms_tree_nodes::lists;
use ms_trees::{Row, Rows};
use ms_values::{Array, IndexRange, Indices, Narrow, Operand, Shared};
use std::alloc::{AllocError, Global};

/// The elements of `x` are the numbers of one of the rows.
pub fn table(alloc: Global, x: Operand, rows: Operand) -> Result<Operand, AllocError>
    ensures { IfOk result (λ z. z ≡ t.table x rows) }
{
    match array_of(x) {
        Ok(array) => table_of(alloc, array, &rows),
        Err(kind) => false_of(alloc, kind),
    }
}

fn table_of(alloc: Global, array: Shared<Array>, rows: &Operand) -> Result<Operand, AllocError>
    ensures { IfOk result (λ z. z ≡ t.is_in_rows array.cells (t.table_rows (r.count_of array.cells) rows.now)) }
{
    match table_rows(alloc, count_of(&array.get().cells), rows)? {
        Some(rows) => is_in_rows(alloc, array, rows),
        None => no_truth(alloc, has_trees(array.get())),
    }
}

fn is_in_rows(alloc: Global, array: Shared<Array>, rows: Rows) -> Result<Operand, AllocError>
    ensures { IfOk result (λ z. z ≡ t.is_in_rows array.cells (Some rows)) }
{
    if has_trees(array.get()) {
        let trees = trees_of(alloc, array)?;
        Ok(Operand::Condition(lists::rowed(alloc, rows, trees)?))
    } else {
        let array = with_numbers(alloc, array)?;
        Ok(Operand::Truth(is_any_row(numbers_in(&array.get().cells), rows.as_slice())))
    }
}

fn is_any_row(numbers: &[Option<Narrow>], rows: &[Row]) -> bool
    ensures { result ≡ list_any (is_row_of (map numeric_meaning numbers.now)) rows.now }
{
    rows.iter().any(|row| is_row(numbers, row.as_slice()))
}

fn is_row(numbers: &[Option<Narrow>], row: &[i64]) -> bool
    ensures { result ≡ is_row_of (map numeric_meaning numbers.now) row.now }
{
    if numbers.len() != row.len() {
        return false;
    }
    for place in 0..row.len() {
        if !is_number(numbers[place], row[place]) {
            return false;
        }
    }
    true
}

fn is_number(x: Option<Narrow>, z: i64) -> bool
    ensures { result ≡ test (λ x. int_eq x z) x }
{
    match x {
        Some(x) => x.get() == z,
        None => false,
    }
}

// The rows of an array of two dimensions, where they have this width and all their numbers are defined.
fn table_rows(alloc: Global, width: usize, rows: &Operand) -> Result<Option<Rows>, AllocError>
    ensures { IfOk result (λ z. z ≡ t.table_rows width rows.now) }
{
    match rows {
        Operand::Array(array) => rows_of(alloc, width, array),
        _ => Ok(None),
    }
}

fn rows_of(alloc: Global, width: usize, array: &Shared<Array>) -> Result<Option<Rows>, AllocError>
    ensures { IfOk result (λ z. z ≡ t.rows_of width array.now.indices array.now.cells) }
{
    match array.get().indices {
        Indices::Line(_) => Ok(None),
        Indices::Grid(rows, columns) => {
            if has_count(columns, width) {
                numeric_rows(alloc, width, rows.count, array.share()?)
            } else {
                Ok(None)
            }
        }
    }
}

fn has_count(range: IndexRange, count: usize) -> bool
    ensures { result ≡ (range.count == count) }
{
    range.count as usize == count
}

fn numeric_rows(
    alloc: Global,
    width: usize,
    rows: u32,
    array: Shared<Array>,
) -> Result<Option<Rows>, AllocError>
    ensures { IfOk result (λ z. z ≡ option_map (t.in_rows width rows) (t.all_numbers (c.numbers_of array.cells))) }
{
    let array = with_numbers(alloc, array)?;
    match all_numbers(alloc, numbers_in(&array.get().cells))? {
        Some(numbers) => Ok(Some(in_rows(alloc, width, rows, numbers.as_slice())?)),
        None => Ok(None),
    }
}

// The numbers, where all are defined.
fn all_numbers(alloc: Global, numbers: &[Option<Narrow>]) -> Result<Option<Row>, AllocError>
    ensures { IfOk result (λ z. z ≡ t.all_numbers numbers.now) }
{
    let mut found = Vec::new(alloc);
    for number in numbers {
        match number {
            Some(number) => found.push(number.get())?,
            None => return Ok(None),
        }
    }
    Ok(Some(Row::from_vec(found)))
}

fn in_rows(alloc: Global, width: usize, rows: u32, numbers: &[i64]) -> Result<Rows, AllocError>
    ensures { IfOk result (λ z. z ≡ t.in_rows width rows numbers.now) }
{
    let mut made = Vec::new(alloc);
    let mut rest = numbers;
    for turn in 0..rows {
        let (row, behind) = rest.split_at(width.min(rest.len()));
        made.push(Row::from_vec(Vec::from_slice(alloc, row)?))?;
        rest = behind;
    }
    Ok(Rows::from_vec(made))
}
