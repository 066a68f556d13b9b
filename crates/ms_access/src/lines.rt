//! Rows and columns, which are copied.

ghost use Rattle.std.specs.Prelude.{◌≡◌, ◌++◌, IfOk, OnOk, take, drop, slice_get, option_to_list};
ghost use Rattle.ms_rules.specs.Access as a;

use crate::places::rows_before;
use ms_base::Bytes;
use ms_values::{Cells, Elements, Narrow, Placed, Shared};
use std::alloc::{AllocError, Global};

/// Elements that can be had once more.
pub trait Again: Drop {
    fn again(&self, alloc: Global) -> Result<Self, AllocError>
        ensures { IfOk result (λ x. x ≡ self.now) };
}

impl Again for bool {
    fn again(&self, _alloc: Global) -> Result<bool, AllocError> {
        Ok(*self)
    }
}

impl Again for Option<Narrow> {
    fn again(&self, _alloc: Global) -> Result<Option<Narrow>, AllocError> {
        Ok(*self)
    }
}

impl Again for Option<Shared<Bytes>> {
    fn again(&self, _alloc: Global) -> Result<Option<Shared<Bytes>>, AllocError> {
        match self {
            Some(text) => Ok(Some(text.share()?)),
            None => Ok(None),
        }
    }
}

impl Again for Placed {
    fn again(&self, alloc: Global) -> Result<Placed, AllocError> {
        self.copy(alloc)
    }
}

// The first elements, up to so many.
fn first<T>(elements: &[T], count: usize) -> &[T]
    ensures { result.now ≡ take count elements.now }
{
    let (first, _) = elements.split_at(count.min(elements.len()));
    first
}

// The elements behind so many.
fn behind<T>(elements: &[T], count: usize) -> &[T]
    ensures { result.now ≡ drop count elements.now }
{
    let (_, behind) = elements.split_at(count.min(elements.len()));
    behind
}

fn copy<T: Again>(alloc: Global, elements: &[T]) -> Result<Elements<T>, AllocError>
    ensures { IfOk result (λ copied. copied ≡ elements.now) }
{
    let mut copied = Elements::new(alloc);
    for element in elements {
        copied.push(element.again(alloc)?)?;
    }
    Ok(copied)
}

fn row<T: Again>(
    alloc: Global,
    width: u32,
    at: u32,
    elements: &[T],
) -> Result<Elements<T>, AllocError>
    ensures { IfOk result (λ row. row ≡ a.row width at elements.now) }
{
    copy(
        alloc,
        first(behind(elements, rows_before(width, at)), width as usize),
    )
}

fn push_at<T: Again>(
    alloc: Global,
    copied: &mut Elements<T>,
    elements: &[T],
    at: usize,
) -> Result<(), AllocError>
    ensures { OnOk result (copied.new ≡ copied.old ++ option_to_list (slice_get elements.now at)) }
{
    match elements.get(at) {
        Some(element) => copied.push(element.again(alloc)?),
        None => Ok(()),
    }
}

fn column<T: Again>(
    alloc: Global,
    width: u32,
    at: u32,
    rows: u32,
    elements: &[T],
) -> Result<Elements<T>, AllocError>
    ensures { IfOk result (λ column. column ≡ a.column width at rows elements.now) }
{
    let mut copied = Elements::new(alloc);
    let mut rest = elements;
    for _ in 0..rows {
        push_at(alloc, &mut copied, rest, at as usize)?;
        rest = behind(rest, width as usize);
    }
    Ok(copied)
}

/// The row of a place.
pub fn row_of(alloc: Global, width: u32, at: u32, cells: &Cells) -> Result<Cells, AllocError>
    ensures { IfOk result (λ row. row ≡ a.row_of width at cells.now) }
{
    match cells {
        Cells::Numbers(numbers) => {
            Ok(Cells::Numbers(row(alloc, width, at, numbers.as_slice())?))
        }
        Cells::Truths(truths) => Ok(Cells::Truths(row(alloc, width, at, truths.as_slice())?)),
        Cells::Texts(texts) => Ok(Cells::Texts(row(alloc, width, at, texts.as_slice())?)),
        Cells::Integers(trees) => Ok(Cells::Integers(row(alloc, width, at, trees.as_slice())?)),
        Cells::Conditions(trees) => {
            Ok(Cells::Conditions(row(alloc, width, at, trees.as_slice())?))
        }
    }
}

/// The column of a place in the first of so many rows.
pub fn column_of(
    alloc: Global,
    width: u32,
    at: u32,
    rows: u32,
    cells: &Cells,
) -> Result<Cells, AllocError>
    ensures { IfOk result (λ column. column ≡ a.column_of width at rows cells.now) }
{
    match cells {
        Cells::Numbers(numbers) => {
            Ok(Cells::Numbers(column(alloc, width, at, rows, numbers.as_slice())?))
        }
        Cells::Truths(truths) => {
            Ok(Cells::Truths(column(alloc, width, at, rows, truths.as_slice())?))
        }
        Cells::Texts(texts) => {
            Ok(Cells::Texts(column(alloc, width, at, rows, texts.as_slice())?))
        }
        Cells::Integers(trees) => {
            Ok(Cells::Integers(column(alloc, width, at, rows, trees.as_slice())?))
        }
        Cells::Conditions(trees) => {
            Ok(Cells::Conditions(column(alloc, width, at, rows, trees.as_slice())?))
        }
    }
}
