//! Whether an access by index may miss all elements.

ghost use Rattle.std.specs.Prelude.{◌≡◌, ◌/◌, ◌||◌, int_lt, int_le};
ghost use Rattle.ms_trees.specs.Enclosure.{leaves as leaves_places};

use ms_num::Iv;
use ms_trees::Enclosure;

/// Whether the index may be undefined, or one that no element has.
pub fn misses(low: i64, count: usize, index: Enclosure) -> bool
    ensures { result ≡ (index.may_be_undefined || leaves_places low count index.interval) }
{
    index.may_be_undefined || leaves(low, count, index.interval)
}

/// The same for a row and a column.
pub fn misses_grid(
    low: i64,
    left: i64,
    width: usize,
    count: usize,
    row: Enclosure,
    column: Enclosure,
) -> bool
    ensures { result ≡ (row.may_be_undefined || column.may_be_undefined || leaves_places low (count / width) row.interval || leaves_places left width column.interval) }
{
    row.may_be_undefined
        || column.may_be_undefined
        || leaves(low, rows(count, width), row.interval)
        || leaves(left, width, column.interval)
}

// The number of whole rows.
fn rows(count: usize, width: usize) -> usize
    ensures { result ≡ count / width }
{
    if width == 0 { 0 } else { count / width }
}

fn leaves(low: i64, count: usize, index: Option<Iv>) -> bool
    ensures { result ≡ leaves_places low count index }
{
    match index {
        Some(range) => is_wider(range, low, low as i128 + count as i128),
        None => false,
    }
}

// The index after the last may pass the end of 64 bits.
fn is_wider(range: Iv, low: i64, end: i128) -> bool
    ensures { result ≡ (int_lt range.lo low || int_le end range.hi) }
{
    range.lo() < low || end <= range.hi() as i128
}
