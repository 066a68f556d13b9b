//! Where the element of an index stands.

ghost use Rattle.std.specs.Prelude.{◌≡◌, ◌+◌, ◌*◌};
ghost use Rattle.ms_rules.specs.Access as a;
ghost use Rattle.ms_rules.specs.Operands as r;

use ms_rules::number;
use ms_values::{Narrow, Operand};

// A distance that is below a count.
fn below(count: usize, distance: i64) -> Option<usize>
    ensures { result ≡ a.below count distance }
{
    if 0 <= distance && (distance as usize) < count {
        Some(distance as usize)
    } else {
        None
    }
}

/// The place of an index among so many from the lowest on.
pub fn place_of(low: Narrow, count: usize, index: Option<Narrow>) -> Option<usize>
    ensures { result ≡ a.place_of low count index }
{
    match index {
        Some(index) => below(count, index.get() - low.get()),
        None => None,
    }
}

// The same of a short range.
fn below_short(count: u32, distance: i64) -> Option<u32>
    ensures { result ≡ a.below count distance }
{
    if 0 <= distance && distance < count as i64 {
        Some(distance as u32)
    } else {
        None
    }
}

fn place_in(low: Narrow, count: u32, index: Option<Narrow>) -> Option<u32>
    ensures { result ≡ a.place_of low count index }
{
    match index {
        Some(index) => below_short(count, index.get() - low.get()),
        None => None,
    }
}

/// The place of a known index.
pub fn place_by(low: Narrow, count: u32, index: Operand) -> Option<u32>
    ensures { result ≡ a.place_of low count (r.number_of index) }
{
    place_in(low, count, number(index))
}

/// How many elements stand before the row.
pub fn rows_before(width: u32, row: u32) -> usize
    ensures { result ≡ row * width }
{
    row as usize * width as usize
}

fn behind_rows(width: u32, row: u32, column: u32) -> usize
    ensures { result ≡ row * width + column }
{
    row as usize * width as usize + column as usize
}

/// The place of an element in whole rows of the width.
pub fn place_in_grid(width: u32, row: Option<u32>, column: Option<u32>) -> Option<usize>
    ensures { result ≡ a.place_in_grid width row column }
{
    match row {
        Some(row) => match column {
            Some(column) => Some(behind_rows(width, row, column)),
            None => None,
        },
        None => None,
    }
}
