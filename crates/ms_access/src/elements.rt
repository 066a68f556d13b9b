//! One element of an array, which is only read.

ghost use Rattle.std.specs.Prelude.{◌≡◌, IfOk};
ghost use Rattle.ms_rules.specs.Cells as c;

use ms_base::Bytes;
use ms_rules::{kind_of, undefined_of};
use ms_tree_nodes::leaves::{number_leaf, truth_leaf};
use ms_values::{Cells, Narrow, Operand, Placed, Shared};
use std::alloc::{AllocError, Global};

fn number_at(numbers: &[Option<Narrow>], at: usize) -> Operand
    ensures { result ≡ c.cell (Cells.Numbers numbers.now) at }
{
    match numbers.get(at) {
        Some(number) => Operand::Number(*number),
        None => Operand::Number(None),
    }
}

fn truth_at(truths: &[bool], at: usize) -> Operand
    ensures { result ≡ c.cell (Cells.Truths truths.now) at }
{
    match truths.get(at) {
        Some(truth) => Operand::Truth(*truth),
        None => Operand::Truth(false),
    }
}

fn shared_text(text: &Option<Shared<Bytes>>) -> Result<Operand, AllocError>
    ensures { IfOk result (λ x. x ≡ Operand.Text text.now) }
{
    match text {
        Some(text) => Ok(Operand::Text(Some(text.share()?))),
        None => Ok(Operand::Text(None)),
    }
}

fn text_at(texts: &[Option<Shared<Bytes>>], at: usize) -> Result<Operand, AllocError>
    ensures { IfOk result (λ x. x ≡ c.cell (Cells.Texts texts.now) at) }
{
    match texts.get(at) {
        Some(text) => shared_text(text),
        None => Ok(Operand::Text(None)),
    }
}

fn integer_at(alloc: Global, trees: &[Placed], at: usize) -> Result<Operand, AllocError>
    ensures { IfOk result (λ x. x ≡ c.cell (Cells.Integers trees.now) at) }
{
    match trees.get(at) {
        Some(tree) => Ok(Operand::Integer(tree.copy(alloc)?)),
        None => Ok(Operand::Integer(number_leaf(alloc, None)?)),
    }
}

fn condition_at(alloc: Global, trees: &[Placed], at: usize) -> Result<Operand, AllocError>
    ensures { IfOk result (λ x. x ≡ c.cell (Cells.Conditions trees.now) at) }
{
    match trees.get(at) {
        Some(tree) => Ok(Operand::Condition(tree.copy(alloc)?)),
        None => Ok(Operand::Condition(truth_leaf(alloc, false)?)),
    }
}

fn cell(alloc: Global, cells: &Cells, at: usize) -> Result<Operand, AllocError>
    ensures { IfOk result (λ x. x ≡ c.cell cells.now at) }
{
    match cells {
        Cells::Numbers(numbers) => Ok(number_at(numbers.as_slice(), at)),
        Cells::Truths(truths) => Ok(truth_at(truths.as_slice(), at)),
        Cells::Texts(texts) => text_at(texts.as_slice(), at),
        Cells::Integers(trees) => integer_at(alloc, trees.as_slice(), at),
        Cells::Conditions(trees) => condition_at(alloc, trees.as_slice(), at),
    }
}

/// The element at the place, from 0.
pub fn element(alloc: Global, cells: &Cells, at: Option<usize>) -> Result<Operand, AllocError>
    ensures { IfOk result (λ x. x ≡ c.element cells.now at) }
{
    match at {
        Some(at) => cell(alloc, cells, at),
        None => undefined_of(alloc, kind_of(cells)),
    }
}
