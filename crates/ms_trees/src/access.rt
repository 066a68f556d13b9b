ghost use Rattle.std.specs.Prelude.{◌≡◌, ◌-ℤ◌, Some};
ghost use Rattle.ms_num.specs.Span.{has};
ghost use Rattle.ms_trees.specs.Value.{is_place, is_place2};
ghost use Rattle.ms_trees.specs.Enclosure.{is_reached};
ghost use Rattle.ms_trees.specs.Access.{reaches as reached_by, FindsPlace};
ghost use Rattle.ms_trees.specs.declared.access.Access.TheVariants.{Line, Grid};

use ms_num::Iv;

/// Which places of a list of elements an access by index takes.
#[derive(Clone, Copy)]
pub enum Access {
    /// The lowest index, and the interval of the index.
    Line(i64, Option<Iv>),
    /// The lowest index of the rows and of the columns, the width, the number of elements, and the intervals of
    /// the two indices.
    Grid(i64, i64, usize, usize, Option<Iv>, Option<Iv>),
}

impl Access {
    /// The elements of an interval of indices.
    pub fn along(low: i64, index: Option<Iv>) -> Access
        ensures { result ≡ Line low index }
    {
        Access::Line(low, index)
    }

    /// The elements of an interval of rows and one of columns.
    pub fn over(
        low: i64,
        left: i64,
        width: usize,
        count: usize,
        row: Option<Iv>,
        column: Option<Iv>,
    ) -> Access
        ensures { result ≡ Grid low left width count row column }
    {
        Access::Grid(low, left, width, count, row, column)
    }
}

/// Whether the access takes the element at the place.
pub fn reaches(access: &Access, place: usize) -> bool
    ensures { result ≡ reached_by access.now place }
{
    match *access {
        Access::Line(low, index) => has_index(low, index, place),
        Access::Grid(low, left, width, count, row, column) => {
            if width == 0 {
                return false;
            }
            let in_row = has_index(low, row, place / width);
            let in_column = has_index(left, column, place % width);
            in_row & in_column & (place / width < count / width)
        }
    }
}

fn has_index(low: i64, index: Option<Iv>, place: usize) -> bool
    ensures { result ≡ is_reached low index place }
{
    match index {
        Some(range) => within(range, low as i128 + place as i128),
        None => false,
    }
}

fn within(range: Iv, index: i128) -> bool
    ensures { result ≡ has range index }
{
    range.lo() as i128 <= index && index <= range.hi() as i128
}

/// The one place below the count whose index it is, where the first place has the lowest index.
pub fn line_place(low: i64, index: i64, count: usize) -> Option<usize>
    ensures { FindsPlace (is_place low (Some index)) count result }
{
    let place = difference(index, low);
    if 0 <= place && place < count as i128 {
        Some(place as usize)
    } else {
        None
    }
}

fn difference(x: i64, y: i64) -> i128
    ensures { result ≡ x -ℤ y }
{
    x as i128 - y as i128
}

/// The one place below the count whose row and column the indices are, in whole rows of the width.
pub fn grid_place(
    low: i64,
    left: i64,
    width: usize,
    count: usize,
    row: i64,
    column: i64,
) -> Option<usize>
    ensures { FindsPlace (is_place2 low left width count (Some row) (Some column)) count result }
{
    if width == 0 {
        return None;
    }
    let row_place = line_place(low, row, count / width)?;
    let column_place = line_place(left, column, width)?;
    Some(row_place * width + column_place)
}
