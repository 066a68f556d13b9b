//! Texts of operands.

ghost use Rattle.std.specs.Prelude.{◌≡◌, IfOk, Some, map};
ghost use Rattle.ms_show.specs.Texts.{list_text_of, truth_text_of};
ghost use Rattle.ms_rules.specs.Shown as s;

use ms_base::Bytes;
use ms_num::Ranges;
use ms_show::{list_text, number_text, set_text, truth_text};
use ms_values::{Array, Cells, Narrow, Operand, Placed, Shared};
use std::alloc::{AllocError, Global};

// ---- single values

fn undefined_text(alloc: Global) -> Result<Bytes, AllocError>
    ensures { IfOk result (λ text. text ≡ s.undefined_text) }
{
    Ok(Bytes::from_vec(Vec::from_slice(alloc, b"<undefined>")?))
}

fn number_shown(alloc: Global, number: Option<Narrow>) -> Result<Bytes, AllocError>
    ensures { IfOk result (λ text. text ≡ s.number_shown number) }
{
    match number {
        Some(number) => number_text(alloc, number.get()),
        None => undefined_text(alloc),
    }
}

fn set_shown(alloc: Global, set: &Option<Shared<Ranges>>) -> Result<Bytes, AllocError>
    ensures { IfOk result (λ text. text ≡ s.set_shown set.now) }
{
    match set {
        Some(set) => set_text(alloc, set.get()),
        None => undefined_text(alloc),
    }
}

fn text_shown(alloc: Global, text: &Option<Shared<Bytes>>) -> Result<Bytes, AllocError>
    ensures { IfOk result (λ shown. shown ≡ s.text_shown text.now) }
{
    match text {
        Some(text) => text.get().copy(alloc),
        None => undefined_text(alloc),
    }
}

fn tree_shown(alloc: Global, _: &Placed) -> Result<Bytes, AllocError>
    ensures { IfOk result (λ text. text ≡ s.undefined_text) }
{
    undefined_text(alloc)
}

// ---- elements of arrays

fn numbers_shown(alloc: Global, numbers: &[Option<Narrow>]) -> Result<Vec<Bytes>, AllocError>
    ensures { IfOk result (λ texts. texts.items ≡ map s.number_shown numbers.now) }
{
    let mut texts = Vec::new(alloc);
    for number in numbers {
        texts.push(number_shown(alloc, *number)?)?;
    }
    Ok(texts)
}

fn truths_shown(alloc: Global, truths: &[bool]) -> Result<Vec<Bytes>, AllocError>
    ensures { IfOk result (λ texts. texts.items ≡ map truth_text_of truths.now) }
{
    let mut texts = Vec::new(alloc);
    for truth in truths {
        texts.push(truth_text(alloc, *truth)?)?;
    }
    Ok(texts)
}

fn texts_shown(alloc: Global, all: &[Option<Shared<Bytes>>]) -> Result<Vec<Bytes>, AllocError>
    ensures { IfOk result (λ texts. texts.items ≡ map s.text_shown all.now) }
{
    let mut texts = Vec::new(alloc);
    for text in all {
        texts.push(text_shown(alloc, text)?)?;
    }
    Ok(texts)
}

fn trees_shown(alloc: Global, trees: &[Placed]) -> Result<Vec<Bytes>, AllocError>
    ensures { IfOk result (λ texts. texts.items ≡ map s.tree_shown trees.now) }
{
    let mut texts = Vec::new(alloc);
    for tree in trees {
        texts.push(tree_shown(alloc, tree)?)?;
    }
    Ok(texts)
}

fn parts_shown(alloc: Global, cells: &Cells) -> Result<Vec<Bytes>, AllocError>
    ensures { IfOk result (λ texts. texts.items ≡ s.parts_shown cells.now) }
{
    match cells {
        Cells::Numbers(numbers) => numbers_shown(alloc, numbers.as_slice()),
        Cells::Truths(truths) => truths_shown(alloc, truths.as_slice()),
        Cells::Texts(texts) => texts_shown(alloc, texts.as_slice()),
        Cells::Integers(trees) => trees_shown(alloc, trees.as_slice()),
        Cells::Conditions(trees) => trees_shown(alloc, trees.as_slice()),
    }
}

fn array_shown(alloc: Global, array: &Array) -> Result<Bytes, AllocError>
    ensures { IfOk result (λ text. text ≡ list_text_of (s.parts_shown array.now.cells)) }
{
    let parts = parts_shown(alloc, &array.cells)?;
    list_text(alloc, &parts)
}

// ---- any operand

fn as_text(alloc: Global, text: Bytes) -> Result<Operand, AllocError>
    ensures { IfOk result (λ x. x ≡ Operand.Text (Some text)) }
{
    Ok(Operand::Text(Some(Shared::new(alloc, text)?)))
}

fn shown(alloc: Global, x: &Operand) -> Result<Bytes, AllocError>
    ensures { IfOk result (λ text. text ≡ s.shown x.now) }
{
    match x {
        Operand::Number(number) => number_shown(alloc, *number),
        Operand::Truth(truth) => truth_text(alloc, *truth),
        Operand::Set(set) => set_shown(alloc, set),
        Operand::Text(text) => text_shown(alloc, text),
        Operand::Array(array) => array_shown(alloc, array.get()),
        Operand::Integer(_) => undefined_text(alloc),
        Operand::Condition(_) => undefined_text(alloc),
        Operand::NoArray(_) => undefined_text(alloc),
    }
}

/// The text of the operand. A set shows all of its numbers, unless it is one range.
pub fn show(alloc: Global, x: &Operand) -> Result<Operand, AllocError>
    ensures { IfOk result (λ z. z ≡ s.show x.now) }
{
    let text = shown(alloc, x)?;
    as_text(alloc, text)
}
