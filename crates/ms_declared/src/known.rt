//! Known values: whether they are defined, and whether they lie within the declared set.

ghost use Rattle.std.specs.Prelude.{◌≡◌};
ghost use Rattle.std.specs.List.{list_all};
ghost use Rattle.ms_declared.specs.Values as d;

use ms_num::{Iv, Ranges};
use ms_values::{Cells, Narrow, Operand, Shared};

/// A known value, or an array, that is undefined.
pub fn is_undefined(x: &Operand) -> bool
    ensures { result ≡ d.is_undefined x.now }
{
    match x {
        Operand::Number(n) => n.is_none(),
        Operand::Set(set) => set.is_none(),
        Operand::Text(text) => text.is_none(),
        Operand::NoArray(_) => true,
        Operand::Truth(_) | Operand::Integer(_) | Operand::Condition(_) | Operand::Array(_) =>
            false,
    }
}

fn is_number_in(within: &Ranges, n: Option<Narrow>) -> bool
    ensures { result ≡ d.is_number_in within.now n }
{
    match n {
        None => true,
        Some(n) => within.has(n.get()),
    }
}

fn covers(wide: Iv, range: Iv) -> bool
    ensures { result ≡ d.covers range wide }
{
    wide.lo() <= range.lo() && range.hi() <= wide.hi()
}

fn is_covered(within: &Ranges, range: Iv) -> bool
    ensures { result ≡ d.is_covered within.now range }
{
    within.ranges().iter().any(|wide| covers(*wide, range))
}

fn is_subset(within: &Ranges, set: &Ranges) -> bool
    ensures { result ≡ d.is_subset within.now set.now }
{
    set.ranges().iter().all(|range| is_covered(within, *range))
}

fn is_set_in(within: &Ranges, set: &Option<Shared<Ranges>>) -> bool
    ensures { result ≡ d.is_set_in within.now set.now }
{
    match set {
        None => true,
        Some(set) => is_subset(within, set.get()),
    }
}

fn are_numbers_in(within: &Ranges, numbers: &[Option<Narrow>]) -> bool
    ensures { result ≡ list_all (d.is_number_in within.now) numbers.now }
{
    numbers.iter().all(|n| is_number_in(within, *n))
}

fn are_cells_in(within: &Ranges, cells: &Cells) -> bool
    ensures { result ≡ d.are_cells_in within.now cells.now }
{
    match cells {
        Cells::Numbers(numbers) => are_numbers_in(within, numbers.as_slice()),
        Cells::Truths(_) | Cells::Texts(_) | Cells::Integers(_) | Cells::Conditions(_) => true,
    }
}

fn is_in_set(within: &Ranges, x: &Operand) -> bool
    ensures { result ≡ d.is_in_set within.now x.now }
{
    match x {
        Operand::Number(n) => is_number_in(within, *n),
        Operand::Set(set) => is_set_in(within, set),
        Operand::Array(array) => are_cells_in(within, &array.get().cells),
        Operand::Truth(_)
        | Operand::Text(_)
        | Operand::Integer(_)
        | Operand::Condition(_)
        | Operand::NoArray(_) => true,
    }
}

/// Whether a value lies within the declared set, where there is one. Trees lie in each.
pub fn is_allowed(within: &Option<Shared<Ranges>>, x: &Operand) -> bool
    ensures { result ≡ d.is_allowed within.now x.now }
{
    match within {
        None => true,
        Some(within) => is_in_set(within.get(), x),
    }
}
