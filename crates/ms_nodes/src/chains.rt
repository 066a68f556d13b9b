//! Chains of operators.

ghost use Rattle.std.specs.Prelude.{◌≡◌, ◌∷◌, [], ◌++◌, ◌&&◌, ◌≤◌, nat_lt, vec_len, IfOk};
ghost use Rattle.ms_typing.specs.Meaning.{is_search as searches};
ghost use Rattle.ms_typing.specs.Row as row;
ghost use Rattle.ms_code.specs.Code as code;
ghost use Rattle.ms_nodes.specs.Nodes as spec;
ghost use Rattle.ms_nodes.specs.Parts.{made as made_of};

use crate::conversions::bring;
use crate::parts::{Elaborated, Operand, made};
use ms_code::{Code, Link};
use ms_rows::{is_search, truths};
use ms_syntax::Operator;
use ms_typing::{ExprType, Shape};
use sqlite_items::{Boxed, Items};
use std::alloc::{AllocError, Global};

fn is_array_shape(shape: Shape) -> bool
    ensures { result ≡ row.is_array shape }
{
    match shape {
        Shape::Single => false,
        Shape::Line => true,
        Shape::Grid => true,
    }
}

fn is_array(t: ExprType) -> bool
    ensures { result ≡ row.is_array_type t }
{
    match t {
        ExprType::Plain(_, shape, _) => is_array_shape(shape),
        ExprType::Text(shape) => is_array_shape(shape),
        ExprType::Set => false,
        ExprType::Search => false,
    }
}

/// What an operand of a chain of this type is to be.
fn asked_operand(whole: ExprType, own: ExprType) -> ExprType
    ensures { result ≡ code.asked_operand whole own }
{
    if is_search(whole) || is_array(whole) {
        whole
    } else {
        own
    }
}

fn is_xor(operator: Operator) -> bool
    ensures { result ≡ code.is_xor operator }
{
    match operator {
        Operator::Xor => true,
        _ => false,
    }
}

/// How many operands there are through the last `xor`.
#[tactic(auto, using(crate::proofs::Xors::xor_last))]
fn through_xor(operands: &[Operand]) -> usize
    ensures { result ≡ spec.through_xor operands.now }
{
    let mut rest = operands;
    while let Some((last, others)) = rest.split_last() {
        if is_xor(last.operator) {
            return rest.len();
        }
        rest = others;
    }
    0
}

/// An operand of a chain of this type.
fn operand(alloc: Global, whole: ExprType, part: Elaborated) -> Result<Boxed<Code>, AllocError>
    ensures { IfOk result (λ e. e ≡ code.operand whole part.kind part.code) }
{
    bring(alloc, asked_operand(whole, part.kind), part)
}

/// Adds an operand to the links of a chain of this type.
fn add(
    alloc: Global,
    links: &mut Items<Link>,
    whole: ExprType,
    next: Operand,
) -> Result<(), AllocError>
    ensures { IfOk result (λ _. links.new ≡ links.old ++ spec.link_of whole next ∷ []) }
{
    let operator = next.operator;
    let place = next.place;
    links.push(Link {
        operator,
        place,
        operand: operand(alloc, whole, next.operand)?.into_inner(),
    })?;
    Ok(())
}

/// The links of a chain of this type.
fn links(alloc: Global, whole: ExprType, operands: Vec<Operand>) -> Result<Items<Link>, AllocError>
    ensures { IfOk result (λ list. list ≡ spec.linked whole operands.items) }
{
    let mut list = Items::new(alloc);
    for next in operands {
        add(alloc, &mut list, whole, next)?;
    }
    Ok(list)
}

/// A chain whose operands are each brought to what it asks.
fn plain_chain(
    alloc: Global,
    whole: ExprType,
    first: Elaborated,
    operands: Vec<Operand>,
) -> Result<Elaborated, AllocError>
    ensures { IfOk result (λ m. m ≡ made_of whole (spec.plain_chain whole first operands.items)) }
{
    let links = links(alloc, whole, operands)?;
    let first = operand(alloc, whole, first)?;
    made(alloc, whole, Code::Chain(first, links))
}

/// A chain whose operands through the last `xor`, so many, are one operand of the whole.
#[tactic(auto, using(crate::proofs::Xors::front_links, crate::proofs::Xors::back_links))]
fn split_chain(
    alloc: Global,
    whole: ExprType,
    count: usize,
    first: Elaborated,
    mut operands: Vec<Operand>,
) -> Result<Elaborated, AllocError>
    requires { count ≤ vec_len operands }
    ensures { IfOk result (λ m. m ≡ made_of whole (spec.split_chain whole count first operands.items)) }
{
    let others = operands.split_off(count)?;
    let front = links(alloc, truths(true), operands)?;
    let test = Boxed::new(alloc, Code::Chain(first.code, front))?;
    let test = Boxed::new(alloc, Code::Convert(ExprType::Search, test))?;
    let links = links(alloc, whole, others)?;
    made(alloc, whole, Code::Chain(test, links))
}

/// Whether so many operands are one operand of a chain of this type.
fn is_split(whole: ExprType, count: usize) -> bool
    ensures { result ≡ (searches whole && nat_lt 0 count) }
{
    is_search(whole) && count > 0
}

/// A chain of this type from its first operand and the others.
#[tactic(auto, using(crate::proofs::Xors::xor_within))]
pub fn chain(
    alloc: Global,
    whole: ExprType,
    first: Elaborated,
    operands: Vec<Operand>,
) -> Result<Elaborated, AllocError>
    ensures { IfOk result (λ m. m ≡ made_of whole (spec.chain whole first operands.items)) }
{
    let count = through_xor(operands.as_slice());
    if is_split(whole, count) {
        return split_chain(alloc, whole, count, first, operands);
    }
    plain_chain(alloc, whole, first, operands)
}
