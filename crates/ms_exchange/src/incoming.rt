//! What callers hand in.

ghost use Rattle.std.specs.Prelude.{◌≡◌, IfOk, IsTrue};
ghost use Rattle.ms_num.specs.Span.{is_within};
ghost use Rattle.ms_trees.specs.WellFormed.{is_well_formed};
ghost use Rattle.ms_placing.specs.Values as v;
ghost use Rattle.ms_exchange.specs.Fit.{are_fit, is_fit, is_fit_as};

use crate::leaves::{numbers_read, truths_read};
use crate::trees::{conditions_read, integers_read, tree_read};
use ms_base::Bytes;
use ms_evaluator::Evaluator;
use ms_num::Intervals;
use ms_rules::{convert, kind_of_type};
use ms_trees::Ground;
use ms_typing::ExprType;
use ms_values::{
    Array, Cells, Elements, IndexRange, Indices, Iv1, Kind, Narrow, Operand, Shared, Value,
};
use std::alloc::{AllocError, Global};

fn tree_in<B: Intervals>(alloc: Global, sets: B, tree: &Ground) -> Result<Operand, AllocError>
    requires { IsTrue (is_well_formed (B.spans sets) tree.now) }
    ensures { IfOk result (λ x. x ≡ v.tree_in (B.spans sets) tree.now) }
{
    let mut evaluator = Evaluator::new(alloc);
    tree_read(alloc, &mut evaluator, sets, tree)
}

// Elements, read as those of the kind.
fn trees_in<B: Intervals>(
    alloc: Global,
    sets: B,
    kind: Kind,
    trees: &[Ground],
) -> Result<Cells, AllocError>
    requires { IsTrue (are_fit (B.spans sets) kind trees.now) }
    ensures { IfOk result (λ cells. cells ≡ v.trees_in (B.spans sets) kind trees.now) }
{
    match kind {
        Kind::Number => Ok(Cells::Numbers(numbers_read(alloc, trees)?)),
        Kind::Truth => Ok(Cells::Truths(truths_read(alloc, trees)?)),
        Kind::Text => Ok(Cells::Texts(Elements::new(alloc))),
        Kind::Integer => Ok(Cells::Integers(integers_read(alloc, sets, trees)?)),
        Kind::Condition => Ok(Cells::Conditions(conditions_read(alloc, sets, trees)?)),
    }
}

fn maybe_text(alloc: Global, text: &Option<Bytes>) -> Result<Option<Shared<Bytes>>, AllocError>
    ensures { IfOk result (λ shared. shared ≡ text.now) }
{
    match text {
        Some(text) => Ok(Some(Shared::new(alloc, text.copy(alloc)?)?)),
        None => Ok(None),
    }
}

fn texts_in(
    alloc: Global,
    texts: &[Option<Bytes>],
) -> Result<Elements<Option<Shared<Bytes>>>, AllocError>
    ensures { IfOk result (λ shared. shared ≡ texts.now) }
{
    let mut shared = Elements::new(alloc);
    for text in texts {
        shared.push(maybe_text(alloc, text)?)?;
    }
    Ok(shared)
}

fn narrow(number: i64) -> Narrow
    requires { IsTrue (is_within number) }
    ensures { result ≡ number }
{
    match Narrow::new(number) {
        Some(narrow) => narrow,
        None => unreachable!(),
    }
}

fn side_in(range: Iv1) -> IndexRange
    requires { IsTrue (is_within range.lo) }
    ensures { result ≡ v.side_in range }
{
    IndexRange {
        low: narrow(range.lo),
        count: range.len,
    }
}

fn line_in(alloc: Global, range: Iv1, cells: Cells) -> Result<Operand, AllocError>
    requires { IsTrue (is_within range.lo) }
    ensures { IfOk result (λ x. x ≡ v.line_in range cells) }
{
    let indices = Indices::Line(narrow(range.lo));
    Ok(Operand::Array(Shared::new(alloc, Array { indices, cells })?))
}

fn grid_in(alloc: Global, rows: Iv1, columns: Iv1, cells: Cells) -> Result<Operand, AllocError>
    requires rows { IsTrue (is_within rows.lo) }
    requires columns { IsTrue (is_within columns.lo) }
    ensures { IfOk result (λ x. x ≡ v.grid_in rows columns cells) }
{
    let indices = Indices::Grid(side_in(rows), side_in(columns));
    Ok(Operand::Array(Shared::new(alloc, Array { indices, cells })?))
}

fn handed_in<B: Intervals>(
    alloc: Global,
    sets: B,
    kind: Kind,
    x: &Value,
) -> Result<Operand, AllocError>
    requires { IsTrue (is_fit_as (B.spans sets) kind x.now) }
    ensures { IfOk result (λ y. y ≡ v.handed_in (B.spans sets) kind x.now) }
{
    match x {
        Value::Number(n) => Ok(Operand::Number(Some(narrow(*n)))),
        Value::Truth(b) => Ok(Operand::Truth(*b)),
        Value::Set(set) => Ok(Operand::Set(Some(Shared::new(alloc, set.copy(alloc)?)?))),
        Value::Text(text) => Ok(Operand::Text(Some(Shared::new(alloc, text.copy(alloc)?)?))),
        Value::Tree(tree) => tree_in(alloc, sets, tree),
        Value::Trees1(range, trees) => {
            let cells = trees_in(alloc, sets, kind, trees.as_slice())?;
            line_in(alloc, *range, cells)
        }
        Value::Trees2(rows, columns, trees) => {
            let cells = trees_in(alloc, sets, kind, trees.as_slice())?;
            grid_in(alloc, *rows, *columns, cells)
        }
        Value::Texts1(range, texts) => {
            let cells = Cells::Texts(texts_in(alloc, texts.as_slice())?);
            line_in(alloc, *range, cells)
        }
        Value::Texts2(rows, columns, texts) => {
            let cells = Cells::Texts(texts_in(alloc, texts.as_slice())?);
            grid_in(alloc, *rows, *columns, cells)
        }
    }
}

/// The operand of a value that is handed in, brought to a type. Its numbers are within -2^50..2^50, its trees may be asked
/// on the intervals of the declared sets, and where the type is known, its elements are.
pub fn entered<B: Intervals>(
    alloc: Global,
    sets: B,
    kind: ExprType,
    x: &Value,
) -> Result<Operand, AllocError>
    requires { IsTrue (is_fit (B.spans sets) kind x.now) }
    ensures { IfOk result (λ y. y ≡ v.entered (B.spans sets) kind x.now) }
{
    let y = handed_in(alloc, sets, kind_of_type(kind), x)?;
    convert(alloc, kind, y)
}
