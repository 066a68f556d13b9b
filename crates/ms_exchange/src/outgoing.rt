//! What callers outside are given.

ghost use Rattle.std.specs.Prelude.{◌≡◌, IfOk, map};
ghost use Rattle.ms_tree_nodes.specs.Nodes.{tree_of};
ghost use Rattle.ms_values.specs.declared.operand.Operand.TheVariants as o;
ghost use Rattle.ms_placing.specs.Values as v;

use ms_base::Bytes;
use ms_num::Ranges;
use ms_rules::cells_of;
use ms_trees::{Ground, Trees};
use ms_values::{
    Array, Cells, Elements, IndexRange, Indices, Iv1, Narrow, Operand, Placed, Shared, Texts, Value,
};
use std::alloc::{AllocError, Global};

fn number_given(number: Option<Narrow>) -> Option<Value>
    ensures { result ≡ v.given (o.Number number) }
{
    match number {
        Some(number) => Some(Value::Number(number.get())),
        None => None,
    }
}

fn ranges_of(alloc: Global, set: Shared<Ranges>) -> Result<Ranges, AllocError>
    ensures { IfOk result (λ ranges. ranges ≡ set) }
{
    match set.into_inner() {
        Ok(ranges) => Ok(ranges),
        Err(shared) => shared.get().copy(alloc),
    }
}

fn set_given(alloc: Global, set: Option<Shared<Ranges>>) -> Result<Option<Value>, AllocError>
    ensures { IfOk result (λ value. value ≡ v.given (o.Set set)) }
{
    match set {
        Some(set) => Ok(Some(Value::Set(ranges_of(alloc, set)?))),
        None => Ok(None),
    }
}

fn bytes_of(alloc: Global, text: Shared<Bytes>) -> Result<Bytes, AllocError>
    ensures { IfOk result (λ bytes. bytes ≡ text) }
{
    match text.into_inner() {
        Ok(bytes) => Ok(bytes),
        Err(shared) => shared.get().copy(alloc),
    }
}

fn maybe_bytes(alloc: Global, text: Option<Shared<Bytes>>) -> Result<Option<Bytes>, AllocError>
    ensures { IfOk result (λ bytes. bytes ≡ text) }
{
    match text {
        Some(text) => Ok(Some(bytes_of(alloc, text)?)),
        None => Ok(None),
    }
}

fn text_given(alloc: Global, text: Option<Shared<Bytes>>) -> Result<Option<Value>, AllocError>
    ensures { IfOk result (λ value. value ≡ v.given (o.Text text)) }
{
    match text {
        Some(text) => Ok(Some(Value::Text(bytes_of(alloc, text)?))),
        None => Ok(None),
    }
}

fn number_tree(number: Option<Narrow>) -> Ground
    ensures { result ≡ v.number_tree number }
{
    match number {
        Some(number) => Ground::Num(number.get()),
        None => Ground::Undef,
    }
}

fn truth_tree(truth: bool) -> Ground
    ensures { result ≡ v.truth_tree truth }
{
    if truth { Ground::True } else { Ground::False }
}

fn number_trees(alloc: Global, numbers: &[Option<Narrow>]) -> Result<Trees, AllocError>
    ensures { IfOk result (λ trees. trees ≡ map v.number_tree numbers.now) }
{
    let mut trees = Trees::new(alloc);
    for number in numbers {
        trees.push(number_tree(*number))?;
    }
    Ok(trees)
}

fn truth_trees(alloc: Global, truths: &[bool]) -> Result<Trees, AllocError>
    ensures { IfOk result (λ trees. trees ≡ map v.truth_tree truths.now) }
{
    let mut trees = Trees::new(alloc);
    for truth in truths {
        trees.push(truth_tree(*truth))?;
    }
    Ok(trees)
}

// The trees alone, which are moved.
fn trees_of(alloc: Global, placed: Elements<Placed>) -> Result<Trees, AllocError>
    ensures { IfOk result (λ trees. trees ≡ map tree_of placed) }
{
    let mut trees = Trees::new(alloc);
    for x in placed.into_vec() {
        trees.push(x.tree.into_inner())?;
    }
    Ok(trees)
}

fn texts_of(alloc: Global, shared: Elements<Option<Shared<Bytes>>>) -> Result<Texts, AllocError>
    ensures { IfOk result (λ texts. texts ≡ shared) }
{
    let mut texts = Vec::new(alloc);
    for text in shared.into_vec() {
        texts.push(maybe_bytes(alloc, text)?)?;
    }
    Ok(Texts::from_vec(texts))
}

// So many indices; no array of an evaluation has as many elements as the count has no room for.
fn range_given(low: Narrow, count: usize) -> Result<Iv1, AllocError>
    ensures { IfOk result (λ range. range ≡ v.range_given low count) }
{
    match u32::try_from(count) {
        Ok(len) => Ok(Iv1 { lo: low.get(), len }),
        Err(_) => Err(AllocError),
    }
}

fn side_given(range: IndexRange) -> Iv1
    ensures { result ≡ v.side_given range }
{
    Iv1 {
        lo: range.low.get(),
        len: range.count,
    }
}

fn line_given(alloc: Global, low: Narrow, cells: Cells) -> Result<Value, AllocError>
    ensures { IfOk result (λ value. value ≡ v.line_given low cells) }
{
    match cells {
        Cells::Numbers(numbers) => {
            let range = range_given(low, numbers.len())?;
            Ok(Value::Trees1(range, number_trees(alloc, numbers.as_slice())?))
        }
        Cells::Truths(truths) => {
            let range = range_given(low, truths.len())?;
            Ok(Value::Trees1(range, truth_trees(alloc, truths.as_slice())?))
        }
        Cells::Texts(texts) => {
            let range = range_given(low, texts.len())?;
            Ok(Value::Texts1(range, texts_of(alloc, texts)?))
        }
        Cells::Integers(trees) => {
            let range = range_given(low, trees.len())?;
            Ok(Value::Trees1(range, trees_of(alloc, trees)?))
        }
        Cells::Conditions(trees) => {
            let range = range_given(low, trees.len())?;
            Ok(Value::Trees1(range, trees_of(alloc, trees)?))
        }
    }
}

fn grid_given(alloc: Global, rows: Iv1, columns: Iv1, cells: Cells) -> Result<Value, AllocError>
    ensures { IfOk result (λ value. value ≡ v.grid_given rows columns cells) }
{
    match cells {
        Cells::Numbers(numbers) => {
            let trees = number_trees(alloc, numbers.as_slice())?;
            Ok(Value::Trees2(rows, columns, trees))
        }
        Cells::Truths(truths) => {
            let trees = truth_trees(alloc, truths.as_slice())?;
            Ok(Value::Trees2(rows, columns, trees))
        }
        Cells::Texts(texts) => Ok(Value::Texts2(rows, columns, texts_of(alloc, texts)?)),
        Cells::Integers(trees) => Ok(Value::Trees2(rows, columns, trees_of(alloc, trees)?)),
        Cells::Conditions(trees) => Ok(Value::Trees2(rows, columns, trees_of(alloc, trees)?)),
    }
}

fn array_given(alloc: Global, array: Shared<Array>) -> Result<Value, AllocError>
    ensures { IfOk result (λ value. value ≡ v.array_given array.indices array.cells) }
{
    let indices = array.get().indices;
    let cells = cells_of(alloc, array)?;
    match indices {
        Indices::Line(low) => line_given(alloc, low, cells),
        Indices::Grid(rows, columns) => {
            grid_given(alloc, side_given(rows), side_given(columns), cells)
        }
    }
}

/// The value that callers outside are given; none where the operand has none. Elements of an array that has no other owner
/// are moved.
pub fn given(alloc: Global, x: Operand) -> Result<Option<Value>, AllocError>
    ensures { IfOk result (λ value. value ≡ v.given x) }
{
    match x {
        Operand::Number(number) => Ok(number_given(number)),
        Operand::Truth(truth) => Ok(Some(Value::Truth(truth))),
        Operand::Set(set) => set_given(alloc, set),
        Operand::Text(text) => text_given(alloc, text),
        Operand::Integer(x) => Ok(Some(Value::Tree(x.tree.into_inner()))),
        Operand::Condition(x) => Ok(Some(Value::Tree(x.tree.into_inner()))),
        Operand::Array(array) => Ok(Some(array_given(alloc, array)?)),
        Operand::NoArray(_) => Ok(None),
    }
}
