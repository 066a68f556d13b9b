//! Elements of arrays: read as others, put at the end, brought to another kind.

ghost use Rattle.std.specs.Prelude.{◌≡◌, IfOk, OnOk, map, replicate, false, None};
ghost use Rattle.ms_tree_nodes.specs.Nodes as n;
ghost use Rattle.ms_rules.specs.Cells as c;

use crate::operands::{bit_number, condition_of, integer_of, number, text_of, truth};
use ms_base::Bytes;
use ms_tree_nodes::leaves::{number_leaf, truth_leaf};
use ms_tree_nodes::truths::bit;
use ms_values::{Array, Cells, Elements, Indices, Kind, Narrow, Operand, Placed, Shared};
use std::alloc::{AllocError, Global};

/// No element yet, of this kind.
pub fn empty(alloc: Global, kind: Kind) -> Cells
    ensures { result ≡ c.empty kind }
{
    match kind {
        Kind::Number => Cells::Numbers(Elements::new(alloc)),
        Kind::Truth => Cells::Truths(Elements::new(alloc)),
        Kind::Text => Cells::Texts(Elements::new(alloc)),
        Kind::Integer => Cells::Integers(Elements::new(alloc)),
        Kind::Condition => Cells::Conditions(Elements::new(alloc)),
    }
}

/// Puts one more element at the end.
pub fn grow(alloc: Global, cells: &mut Cells, x: Operand) -> Result<(), AllocError>
    ensures { OnOk result (cells.new ≡ c.grown cells.old x) }
{
    match cells {
        Cells::Numbers(numbers) => numbers.push(number(x)),
        Cells::Truths(truths) => truths.push(truth(x)),
        Cells::Texts(texts) => texts.push(text_of(x)),
        Cells::Integers(trees) => trees.push(integer_of(alloc, x)?),
        Cells::Conditions(trees) => trees.push(condition_of(alloc, x)?),
    }
}

fn copy_texts(
    alloc: Global,
    texts: &[Option<Shared<Bytes>>],
) -> Result<Elements<Option<Shared<Bytes>>>, AllocError>
    ensures { IfOk result (λ copied. copied ≡ texts.now) }
{
    let mut copied = Elements::new(alloc);
    for text in texts {
        copied.push(share_text(text)?)?;
    }
    Ok(copied)
}

fn share_text(text: &Option<Shared<Bytes>>) -> Result<Option<Shared<Bytes>>, AllocError>
    ensures { IfOk result (λ shared. shared ≡ text.now) }
{
    match text {
        Some(text) => Ok(Some(text.share()?)),
        None => Ok(None),
    }
}

fn copy_trees(alloc: Global, trees: &[Placed]) -> Result<Elements<Placed>, AllocError>
    ensures { IfOk result (λ copied. copied ≡ trees.now) }
{
    let mut copied = Elements::new(alloc);
    for tree in trees {
        copied.push(tree.copy(alloc)?)?;
    }
    Ok(copied)
}

fn copy_cells(alloc: Global, cells: &Cells) -> Result<Cells, AllocError>
    ensures { IfOk result (λ copied. copied ≡ cells.now) }
{
    match cells {
        Cells::Numbers(numbers) => {
            let copied = Vec::from_slice(alloc, numbers.as_slice())?;
            Ok(Cells::Numbers(Elements::from_vec(copied)))
        }
        Cells::Truths(truths) => {
            let copied = Vec::from_slice(alloc, truths.as_slice())?;
            Ok(Cells::Truths(Elements::from_vec(copied)))
        }
        Cells::Texts(texts) => Ok(Cells::Texts(copy_texts(alloc, texts.as_slice())?)),
        Cells::Integers(trees) => Ok(Cells::Integers(copy_trees(alloc, trees.as_slice())?)),
        Cells::Conditions(trees) => Ok(Cells::Conditions(copy_trees(alloc, trees.as_slice())?)),
    }
}

/// The elements of an array, which are copied where it has other owners.
pub fn cells_of(alloc: Global, array: Shared<Array>) -> Result<Cells, AllocError>
    ensures { IfOk result (λ cells. cells ≡ array.cells) }
{
    match array.into_inner() {
        Ok(array) => Ok(array.cells),
        Err(shared) => copy_cells(alloc, &shared.get().cells),
    }
}

fn bit_numbers(alloc: Global, truths: &[bool]) -> Result<Elements<Option<Narrow>>, AllocError>
    ensures { IfOk result (λ numbers. numbers ≡ map c.bit_number truths.now) }
{
    let mut numbers = Elements::new(alloc);
    for truth in truths {
        numbers.push(bit_number(*truth))?;
    }
    Ok(numbers)
}

fn number_leaves(alloc: Global, numbers: &[Option<Narrow>]) -> Result<Elements<Placed>, AllocError>
    ensures { IfOk result (λ trees. trees ≡ map n.number_leaf numbers.now) }
{
    let mut trees = Elements::new(alloc);
    for number in numbers {
        trees.push(number_leaf(alloc, *number)?)?;
    }
    Ok(trees)
}

fn bit_leaves(alloc: Global, truths: &[bool]) -> Result<Elements<Placed>, AllocError>
    ensures { IfOk result (λ trees. trees ≡ map c.bit_leaf truths.now) }
{
    let mut trees = Elements::new(alloc);
    for truth in truths {
        trees.push(number_leaf(alloc, bit_number(*truth))?)?;
    }
    Ok(trees)
}

fn truth_leaves(alloc: Global, truths: &[bool]) -> Result<Elements<Placed>, AllocError>
    ensures { IfOk result (λ trees. trees ≡ map n.truth_leaf truths.now) }
{
    let mut trees = Elements::new(alloc);
    for truth in truths {
        trees.push(truth_leaf(alloc, *truth)?)?;
    }
    Ok(trees)
}

fn false_leaves(alloc: Global, count: usize) -> Result<Elements<Placed>, AllocError>
    ensures { IfOk result (λ trees. trees ≡ replicate count (n.truth_leaf false)) }
{
    let mut trees = Elements::new(alloc);
    for _ in 0..count {
        trees.push(truth_leaf(alloc, false)?)?;
    }
    Ok(trees)
}

/// Each Boolean tree as a number.
pub fn bits(alloc: Global, trees: Elements<Placed>) -> Result<Elements<Placed>, AllocError>
    ensures { IfOk result (λ bits. bits ≡ map n.bit trees) }
{
    let mut all = Elements::new(alloc);
    for tree in trees.into_vec() {
        all.push(bit(alloc, tree)?)?;
    }
    Ok(all)
}

/// Elements that are known integers or Booleans, as numbers.
pub fn numbers_of(alloc: Global, cells: Cells) -> Result<Elements<Option<Narrow>>, AllocError>
    ensures { IfOk result (λ numbers. numbers ≡ c.numbers_of cells) }
{
    match cells {
        Cells::Numbers(numbers) => Ok(numbers),
        Cells::Truths(truths) => bit_numbers(alloc, truths.as_slice()),
        Cells::Texts(_) => Ok(Elements::new(alloc)),
        Cells::Integers(_) => Ok(Elements::new(alloc)),
        Cells::Conditions(_) => Ok(Elements::new(alloc)),
    }
}

fn no_truths(alloc: Global, count: usize) -> Result<Elements<bool>, AllocError>
    ensures { IfOk result (λ truths. truths ≡ replicate count false) }
{
    let truths = vec![in alloc; false; count]?;
    Ok(Elements::from_vec(truths))
}

/// Elements that are known Booleans.
pub fn truths_of(alloc: Global, cells: Cells) -> Result<Elements<bool>, AllocError>
    ensures { IfOk result (λ truths. truths ≡ c.truths_of cells) }
{
    match cells {
        Cells::Numbers(numbers) => no_truths(alloc, numbers.len()),
        Cells::Truths(truths) => Ok(truths),
        Cells::Texts(_) => Ok(Elements::new(alloc)),
        Cells::Integers(_) => Ok(Elements::new(alloc)),
        Cells::Conditions(_) => Ok(Elements::new(alloc)),
    }
}

fn no_texts(alloc: Global, count: usize) -> Result<Elements<Option<Shared<Bytes>>>, AllocError>
    ensures { IfOk result (λ texts. texts ≡ replicate count None) }
{
    let mut texts = Elements::new(alloc);
    for _ in 0..count {
        texts.push(None)?;
    }
    Ok(texts)
}

/// Elements that are strings.
pub fn texts_of(alloc: Global, cells: Cells) -> Result<Elements<Option<Shared<Bytes>>>, AllocError>
    ensures { IfOk result (λ texts. texts ≡ c.texts_of cells) }
{
    match cells {
        Cells::Numbers(numbers) => no_texts(alloc, numbers.len()),
        Cells::Texts(texts) => Ok(texts),
        Cells::Truths(_) => Ok(Elements::new(alloc)),
        Cells::Integers(_) => Ok(Elements::new(alloc)),
        Cells::Conditions(_) => Ok(Elements::new(alloc)),
    }
}

/// Elements that are integers or Booleans, known or variable, as integer trees.
pub fn integers_of(alloc: Global, cells: Cells) -> Result<Elements<Placed>, AllocError>
    ensures { IfOk result (λ trees. trees ≡ c.integers_of cells) }
{
    match cells {
        Cells::Numbers(numbers) => number_leaves(alloc, numbers.as_slice()),
        Cells::Truths(truths) => bit_leaves(alloc, truths.as_slice()),
        Cells::Texts(_) => Ok(Elements::new(alloc)),
        Cells::Integers(trees) => Ok(trees),
        Cells::Conditions(trees) => bits(alloc, trees),
    }
}

/// Elements that are Booleans, known or variable, as Boolean trees.
pub fn conditions_of(alloc: Global, cells: Cells) -> Result<Elements<Placed>, AllocError>
    ensures { IfOk result (λ trees. trees ≡ c.conditions_of cells) }
{
    match cells {
        Cells::Numbers(numbers) => false_leaves(alloc, numbers.len()),
        Cells::Truths(truths) => truth_leaves(alloc, truths.as_slice()),
        Cells::Texts(_) => Ok(Elements::new(alloc)),
        Cells::Integers(trees) => false_leaves(alloc, trees.len()),
        Cells::Conditions(trees) => Ok(trees),
    }
}

/// The elements of an array, brought to a kind.
pub fn converted(alloc: Global, kind: Kind, array: Shared<Array>) -> Result<Cells, AllocError>
    ensures { IfOk result (λ cells. cells ≡ c.converted kind array.cells) }
{
    let cells = cells_of(alloc, array)?;
    match kind {
        Kind::Number => Ok(Cells::Numbers(numbers_of(alloc, cells)?)),
        Kind::Truth => Ok(Cells::Truths(truths_of(alloc, cells)?)),
        Kind::Text => Ok(Cells::Texts(texts_of(alloc, cells)?)),
        Kind::Integer => Ok(Cells::Integers(integers_of(alloc, cells)?)),
        Kind::Condition => Ok(Cells::Conditions(conditions_of(alloc, cells)?)),
    }
}

/// An array with indices from 1.
pub fn line_from_one(alloc: Global, cells: Cells) -> Result<Operand, AllocError>
    ensures { IfOk result (λ x. x ≡ c.line_from_one cells) }
{
    match Narrow::new(1) {
        Some(low) => {
            let indices = Indices::Line(low);
            Ok(Operand::Array(Shared::new(alloc, Array { indices, cells })?))
        }
        None => Err(AllocError),
    }
}
