//! Arrays as such: their lengths, their index sets, and arrays with other indices.

ghost use Rattle.std.specs.Prelude.{◌≡◌, ◌*◌, ◌==◌, IfOk, Some, option_map, pos, ◌+ℤ◌};
ghost use Rattle.ms_num.specs.Span.{if_within};
ghost use Rattle.ms_values.specs.declared.operand.Operand.TheVariants as o;
ghost use Rattle.ms_rules.specs.Operands as r;
ghost use Rattle.ms_rules.specs.Arrays as a;

use crate::arguments::array_of;
use crate::integers::number_of_count;
use ms_num::{Iv, LIMIT, Ranges};
use ms_rules::{cells_of, count_of, kind_of, set_of};
use ms_values::{Array, IndexRange, Indices, Narrow, Operand, Shared};
use std::alloc::{AllocError, Global};

// No two numbers are further apart.
const MOST: u64 = 2 * LIMIT as u64;

/// How many elements there are. None of them is copied, here and below.
pub fn length_of_array(x: Operand) -> Option<Operand>
    ensures { result ≡ a.length_of_array x }
{
    match &x {
        Operand::Array(array) => number_of_count(count_of(&array.get().cells)),
        _ => Some(Operand::Number(None)),
    }
}

// The range of one number and so many behind it.
fn range_from(low: Narrow, more: u64) -> Option<Iv>
    ensures { result ≡ option_map (λ high. record { lo = low; hi = high }) (if_within (low +ℤ pos more)) }
{
    if more <= MOST {
        Iv::narrow(low.get(), low.get() + more as i64)
    } else {
        None
    }
}

// The set of so many indices, from the lowest on.
fn indices_from(alloc: Global, low: Narrow, count: u64) -> Result<Option<Operand>, AllocError>
    ensures { IfOk result (λ z. z ≡ a.indices_from low count) }
{
    if count == 0 {
        return set(alloc, Ranges::empty(alloc));
    }
    match range_from(low, count - 1) {
        Some(range) => set(alloc, Ranges::from_iv(alloc, range)?),
        None => Ok(None),
    }
}

fn range_set(alloc: Global, range: IndexRange) -> Result<Option<Operand>, AllocError>
    ensures { IfOk result (λ z. z ≡ a.indices_from range.low range.count) }
{
    indices_from(alloc, range.low, range.count as u64)
}

fn set(alloc: Global, ranges: Ranges) -> Result<Option<Operand>, AllocError>
    ensures { IfOk result (λ z. z ≡ Some (o.Set (Some ranges))) }
{
    Ok(Some(Operand::Set(Some(Shared::new(alloc, ranges)?))))
}

/// The index set of an array of one dimension.
pub fn index_set(alloc: Global, x: Operand) -> Result<Option<Operand>, AllocError>
    ensures { IfOk result (λ z. z ≡ a.index_set x) }
{
    match &x {
        Operand::Array(array) => line_set(alloc, array.get()),
        _ => Ok(Some(Operand::Set(None))),
    }
}

fn line_set(alloc: Global, array: &Array) -> Result<Option<Operand>, AllocError>
    ensures { IfOk result (λ z. z ≡ a.line_set array.now.indices (r.count_of array.now.cells)) }
{
    match array.indices {
        Indices::Line(low) => indices_from(alloc, low, count_of(&array.cells) as u64),
        Indices::Grid(_, _) => Ok(Some(Operand::Set(None))),
    }
}

/// The index set of the rows of an array of two dimensions.
pub fn row_index_set(alloc: Global, x: Operand) -> Result<Option<Operand>, AllocError>
    ensures { IfOk result (λ z. z ≡ a.row_index_set x) }
{
    match &x {
        Operand::Array(array) => row_set(alloc, array.get().indices),
        _ => Ok(Some(Operand::Set(None))),
    }
}

fn row_set(alloc: Global, indices: Indices) -> Result<Option<Operand>, AllocError>
    ensures { IfOk result (λ z. z ≡ a.row_set indices) }
{
    match indices {
        Indices::Line(_) => Ok(Some(Operand::Set(None))),
        Indices::Grid(rows, _) => range_set(alloc, rows),
    }
}

/// The index set of its columns.
pub fn column_index_set(alloc: Global, x: Operand) -> Result<Option<Operand>, AllocError>
    ensures { IfOk result (λ z. z ≡ a.column_index_set x) }
{
    match &x {
        Operand::Array(array) => column_set(alloc, array.get().indices),
        _ => Ok(Some(Operand::Set(None))),
    }
}

fn column_set(alloc: Global, indices: Indices) -> Result<Option<Operand>, AllocError>
    ensures { IfOk result (λ z. z ≡ a.column_set indices) }
{
    match indices {
        Indices::Line(_) => Ok(Some(Operand::Set(None))),
        Indices::Grid(_, columns) => range_set(alloc, columns),
    }
}

// A set that is a range, as its lowest number and how many it has.
fn as_range(set: Option<Shared<Ranges>>) -> Option<(Narrow, u64)>
    ensures { result ≡ a.as_range set }
{
    match set {
        Some(set) => range_in(set.get().ranges()),
        None => None,
    }
}

fn range_in(ranges: &[Iv]) -> Option<(Narrow, u64)>
    ensures { result ≡ a.as_range (Some ranges.now) }
{
    match ranges {
        [] => Some((Narrow::new(1)?, 0)),
        [range] => Some((Narrow::least(*range), range.size())),
        _ => None,
    }
}

/// So many indices, from the lowest on. The count stands still where there are too many.
pub fn index_range(low: Narrow, count: u64) -> IndexRange
    ensures { result ≡ a.index_range (low, count) }
{
    IndexRange {
        low,
        count: count.min(u32::MAX as u64) as u32,
    }
}

fn no_array(array: Shared<Array>) -> Operand
    ensures { result ≡ o.NoArray (r.kind_of array.cells) }
{
    Operand::NoArray(kind_of(&array.get().cells))
}

// The elements with other indices. They are moved where the array has no other owner.
fn indexed(alloc: Global, indices: Indices, array: Shared<Array>) -> Result<Operand, AllocError>
    ensures { IfOk result (λ z. z ≡ o.Array (record { indices = indices; cells = array.cells })) }
{
    let cells = cells_of(alloc, array)?;
    Ok(Operand::Array(Shared::new(alloc, Array { indices, cells })?))
}

/// The elements of `x` with the index set `s`; undefined unless that is a range of their number.
pub fn array_line(alloc: Global, s: Operand, x: Operand) -> Result<Operand, AllocError>
    ensures { IfOk result (λ z. z ≡ a.array_line s x) }
{
    let range = as_range(set_of(s));
    match array_of(x) {
        Ok(array) => line_by(alloc, range, array),
        Err(kind) => Ok(Operand::NoArray(kind)),
    }
}

fn line_by(
    alloc: Global,
    range: Option<(Narrow, u64)>,
    array: Shared<Array>,
) -> Result<Operand, AllocError>
    ensures { IfOk result (λ z. z ≡ a.line_by range array.cells) }
{
    match range {
        Some((low, count)) => line_of(alloc, low, count, array),
        None => Ok(no_array(array)),
    }
}

fn line_of(
    alloc: Global,
    low: Narrow,
    count: u64,
    array: Shared<Array>,
) -> Result<Operand, AllocError>
    ensures { IfOk result (λ z. z ≡ a.line_by (Some (low, count)) array.cells) }
{
    if count == count_of(&array.get().cells) as u64 {
        indexed(alloc, Indices::Line(low), array)
    } else {
        Ok(no_array(array))
    }
}

/// The elements of `x`, row by row, with the index sets `s` of the rows and `t` of the columns; undefined unless these are
/// ranges whose numbers have their number as product.
pub fn array_grid(alloc: Global, s: Operand, t: Operand, x: Operand) -> Result<Operand, AllocError>
    ensures { IfOk result (λ z. z ≡ a.array_grid s t x) }
{
    let rows = as_range(set_of(s));
    let columns = as_range(set_of(t));
    match array_of(x) {
        Ok(array) => grid_by(alloc, rows, columns, array),
        Err(kind) => Ok(Operand::NoArray(kind)),
    }
}

fn grid_by(
    alloc: Global,
    rows: Option<(Narrow, u64)>,
    columns: Option<(Narrow, u64)>,
    array: Shared<Array>,
) -> Result<Operand, AllocError>
    ensures { IfOk result (λ z. z ≡ a.grid_by rows columns array.cells) }
{
    match (rows, columns) {
        (Some(rows), Some(columns)) => grid_of(alloc, rows, columns, array),
        (Some(_), None) => Ok(no_array(array)),
        (None, _) => Ok(no_array(array)),
    }
}

fn grid_of(
    alloc: Global,
    rows: (Narrow, u64),
    columns: (Narrow, u64),
    array: Shared<Array>,
) -> Result<Operand, AllocError>
    ensures { IfOk result (λ z. z ≡ a.grid_by (Some rows) (Some columns) array.cells) }
{
    if is_product(rows.1, columns.1, count_of(&array.get().cells)) {
        let (rows, columns) = (
            index_range(rows.0, rows.1),
            index_range(columns.0, columns.1),
        );
        indexed(alloc, Indices::Grid(rows, columns), array)
    } else {
        Ok(no_array(array))
    }
}

fn is_product(x: u64, y: u64, count: usize) -> bool
    ensures { result ≡ (x * y == count) }
{
    match x.checked_mul(y) {
        Some(product) => product == count as u64,
        None => false,
    }
}
