//! What built-in names make of their arguments, which lie on a pile, the last on top.

ghost use Rattle.std.specs.Prelude.{◌≡◌, IfOk, option_map, reverse, slice_get};
ghost use Rattle.ms_rules.specs.Arrays as a;
ghost use Rattle.ms_rules.specs.Calls as c;
ghost use Rattle.ms_rules.specs.Shown.{show as show_of};
ghost use Rattle.ms_rules.specs.Tables as t;
ghost use Rattle.ms_calls.specs.Arguments.{number_of_maybe};

use ms_arrays::{
    all, array_grid, array_line, column_index_set, count, distinct, extreme_of_array, index_set,
    length_of_array, row_index_set, some, sum, table,
};
use ms_built_ins::BuiltIn;
use ms_functions::{
    bool_to_int, card, extreme_of_two, magnitude, on_incumbent, show, takes_word, uniform,
};
use ms_rules::{number, number_of};
use ms_trees::Extreme;
use ms_values::{Narrow, Operand, Pile};
use std::alloc::{AllocError, Global};

/// The first argument; without a value where there is none.
fn first(arguments: Pile<Operand>) -> Operand
    ensures { result ≡ c.first (reverse arguments) }
{
    let mut rest = arguments;
    let mut first = Operand::Number(None);
    'all: while let Some(x) = rest.pop() {
        first = x;
    }
    first
}

/// The first two.
fn first_two(arguments: Pile<Operand>) -> (Operand, Operand)
    ensures { result ≡ (c.first (reverse arguments), c.second (reverse arguments)) }
{
    let mut rest = arguments;
    let mut found = (Operand::Number(None), Operand::Number(None));
    'all: while let Some(x) = rest.pop() {
        found = (x, found.0);
    }
    found
}

/// The first three.
fn first_three(arguments: Pile<Operand>) -> (Operand, (Operand, Operand))
    ensures { result ≡ (c.first (reverse arguments), (c.second (reverse arguments), c.third (reverse arguments))) }
{
    let mut rest = arguments;
    let mut found = (
        Operand::Number(None),
        (Operand::Number(None), Operand::Number(None)),
    );
    'all: while let Some(x) = rest.pop() {
        found = (x, (found.0, found.1.0));
    }
    found
}

// ---- names that take more than one argument

fn count_of_two(alloc: Global, arguments: Pile<Operand>) -> Result<Option<Operand>, AllocError>
    ensures { IfOk result (λ z. z ≡ a.count (c.first (reverse arguments)) (c.second (reverse arguments))) }
{
    let (x, y) = first_two(arguments);
    count(alloc, x, y)
}

fn table_of_two(alloc: Global, arguments: Pile<Operand>) -> Result<Operand, AllocError>
    ensures { IfOk result (λ z. z ≡ t.table (c.first (reverse arguments)) (c.second (reverse arguments))) }
{
    let (x, rows) = first_two(arguments);
    table(alloc, x, rows)
}

fn line_of_two(alloc: Global, arguments: Pile<Operand>) -> Result<Operand, AllocError>
    ensures { IfOk result (λ z. z ≡ a.array_line (c.first (reverse arguments)) (c.second (reverse arguments))) }
{
    let (set, x) = first_two(arguments);
    array_line(alloc, set, x)
}

fn grid_of_three(alloc: Global, arguments: Pile<Operand>) -> Result<Operand, AllocError>
    ensures { IfOk result (λ z. z ≡ a.array_grid (c.first (reverse arguments)) (c.second (reverse arguments)) (c.third (reverse arguments))) }
{
    let (rows, (columns, x)) = first_three(arguments);
    array_grid(alloc, rows, columns, x)
}

fn extreme_of_both(
    alloc: Global,
    which: Extreme,
    arguments: Pile<Operand>,
) -> Result<Option<Operand>, AllocError>
    ensures { IfOk result (λ z. z ≡ a.extreme_of_two which (c.first (reverse arguments)) (c.second (reverse arguments))) }
{
    let (x, y) = first_two(arguments);
    extreme_of_two(alloc, which, x, y)
}

// The least or the greatest of an array, or of two numbers.
fn extreme(
    alloc: Global,
    which: Extreme,
    arguments: Pile<Operand>,
) -> Result<Option<Operand>, AllocError>
    ensures { IfOk result (λ z. z ≡ c.extreme which (reverse arguments)) }
{
    match arguments.len() {
        0 => Ok(Some(Operand::Number(None))),
        1 => extreme_of_array(alloc, which, first(arguments)),
        _ => extreme_of_both(alloc, which, arguments),
    }
}

// The number that the word gives between both arguments.
fn number_drawn(word: u32, arguments: Pile<Operand>) -> Operand
    ensures { result ≡ c.uniform word (reverse arguments) }
{
    let (low, high) = first_two(arguments);
    uniform(word, number(low), number(high))
}

fn shown(alloc: Global, x: Operand) -> Result<Operand, AllocError>
    ensures { IfOk result (λ z. z ≡ show_of x) }
{
    show(alloc, &x)
}

/// What a built-in name makes of its arguments, with the incumbent and the next word; none where a number leaves the limits.
#[tactic(auto, unfolding(ms_rules::specs::Calls::call))]
pub fn call(
    alloc: Global,
    point: Option<&[Narrow]>,
    word: u32,
    name: BuiltIn,
    arguments: Pile<Operand>,
) -> Result<Option<Operand>, AllocError>
    ensures { IfOk result (λ z. z ≡ c.call (option_map (λ p. p.now) point.entry) word name (reverse arguments)) }
{
    match name {
        BuiltIn::ForAll => Ok(Some(all(alloc, first(arguments))?)),
        BuiltIn::Exists => Ok(Some(some(alloc, first(arguments))?)),
        BuiltIn::Sum => sum(alloc, first(arguments)),
        BuiltIn::Min => extreme(alloc, Extreme::Least, arguments),
        BuiltIn::Max => extreme(alloc, Extreme::Greatest, arguments),
        BuiltIn::Abs => magnitude(alloc, first(arguments)),
        BuiltIn::BoolToInt => Ok(Some(bool_to_int(alloc, first(arguments))?)),
        BuiltIn::Count => count_of_two(alloc, arguments),
        BuiltIn::AllDifferent => Ok(Some(distinct(alloc, first(arguments))?)),
        BuiltIn::Table => Ok(Some(table_of_two(alloc, arguments)?)),
        BuiltIn::Length => Ok(length_of_array(first(arguments))),
        BuiltIn::IndexSet => index_set(alloc, first(arguments)),
        BuiltIn::RowIndexSet => row_index_set(alloc, first(arguments)),
        BuiltIn::ColumnIndexSet => column_index_set(alloc, first(arguments)),
        BuiltIn::Card => Ok(card(first(arguments))),
        BuiltIn::ArrayLine => Ok(Some(line_of_two(alloc, arguments)?)),
        BuiltIn::ArrayGrid => Ok(Some(grid_of_three(alloc, arguments)?)),
        BuiltIn::Show => Ok(Some(shown(alloc, first(arguments))?)),
        BuiltIn::Fix => Ok(Some(first(arguments))),
        BuiltIn::Sol => Ok(Some(on_incumbent(alloc, point, first(arguments))?)),
        BuiltIn::HasSol => Ok(Some(Operand::Truth(point.is_some()))),
        BuiltIn::Uniform => Ok(Some(number_drawn(word, arguments))),
        BuiltIn::Next
        | BuiltIn::Post
        | BuiltIn::Commit
        | BuiltIn::Print
        | BuiltIn::Scope
        | BuiltIn::Repeat
        | BuiltIn::Break
        | BuiltIn::Fail
        | BuiltIn::Skip
        | BuiltIn::TimeLimit
        | BuiltIn::Keep
        | BuiltIn::ClearFront
        | BuiltIn::PrintFront => Ok(Some(Operand::Number(None))),
    }
}

// The number of the argument that has so many before it.
fn number_at(arguments: &Pile<Operand>, before: usize) -> Option<Narrow>
    ensures { result ≡ number_of_maybe (slice_get (reverse arguments.now) before) }
{
    let count = arguments.len();
    if before < count {
        match arguments.get(count - 1 - before) {
            Some(x) => number_of(x),
            None => None,
        }
    } else {
        None
    }
}

/// Whether a name with these arguments takes the next word.
pub fn draws(name: BuiltIn, arguments: &Pile<Operand>) -> bool
    ensures { result ≡ c.draws name (reverse arguments.now) }
{
    match name {
        BuiltIn::Uniform => takes_word(number_at(arguments, 0), number_at(arguments, 1)),
        _ => false,
    }
}
