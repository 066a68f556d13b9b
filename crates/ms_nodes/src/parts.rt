//! Parts of nodes, with their types.

ghost use Rattle.std.specs.Prelude.{◌≡◌, ◌∷◌, [], ◌++◌, map, IfOk};
ghost use Rattle.ms_nodes.specs.Parts as spec;

use ms_code::Code;
use ms_syntax::{Operator, Place};
use ms_typing::ExprType;
use sqlite_items::Boxed;
use std::alloc::{AllocError, Global};

/// An expression's least type, and its typed tree.
#[derive(Drop)]
pub struct Elaborated {
    pub kind: ExprType,
    pub code: Boxed<Code>,
}

/// An operand of a chain, with the operator before it and that operator's place.
#[derive(Drop)]
pub struct Operand {
    pub operator: Operator,
    pub place: Place,
    pub operand: Elaborated,
}

/// The set of a generator, with the place of the first name that runs through it and the number of these names.
#[derive(Drop)]
pub struct Source {
    pub place: Place,
    pub names: usize,
    pub set: Elaborated,
}

/// Generators, and what stands after `where`.
#[derive(Drop)]
pub struct Sources {
    pub list: Vec<Source>,
    pub condition: Option<Elaborated>,
}

/// A condition with its branch.
#[derive(Drop)]
pub struct Choice {
    pub condition: Elaborated,
    pub branch: Elaborated,
}

/// A node of this type.
pub fn made(alloc: Global, kind: ExprType, code: Code) -> Result<Elaborated, AllocError>
    ensures { IfOk result (λ m. m ≡ spec.made kind code) }
{
    Ok(Elaborated {
        kind,
        code: Boxed::new(alloc, code)?,
    })
}

/// Adds to the end of a list.
pub fn push<T: Drop>(list: &mut Vec<T>, item: T) -> Result<(), AllocError>
    ensures { IfOk result (λ _. list.new.items ≡ list.old.items ++ item ∷ []) }
{
    list.push(item)?;
    Ok(())
}

/// The types of parts.
pub fn kinds(alloc: Global, parts: &[Elaborated]) -> Result<Vec<ExprType>, AllocError>
    ensures { IfOk result (λ v. v.items ≡ spec.kinds_of parts.now) }
{
    let mut types = Vec::new(alloc);
    for part in parts {
        push(&mut types, part.kind)?;
    }
    Ok(types)
}

/// The types of parts, and then another type.
pub fn kinds_and(
    alloc: Global,
    parts: &[Elaborated],
    last: ExprType,
) -> Result<Vec<ExprType>, AllocError>
    ensures { IfOk result (λ v. v.items ≡ spec.kinds_of parts.now ++ last ∷ []) }
{
    let mut types = kinds(alloc, parts)?;
    push(&mut types, last)?;
    Ok(types)
}

/// The types of operands.
pub fn operand_kinds(alloc: Global, operands: &[Operand]) -> Result<Vec<ExprType>, AllocError>
    ensures { IfOk result (λ v. v.items ≡ spec.operand_kinds operands.now) }
{
    let mut types = Vec::new(alloc);
    for next in operands {
        push(&mut types, next.operand.kind)?;
    }
    Ok(types)
}

/// The types of conditions and branches in the order of the text, and then that of the last branch.
pub fn choice_kinds(
    alloc: Global,
    first: &Choice,
    more: &[Choice],
    last: ExprType,
) -> Result<Vec<ExprType>, AllocError>
    ensures { IfOk result (λ v. v.items ≡ first.now.condition.kind ∷ first.now.branch.kind ∷ (spec.choice_kinds more.now ++ last ∷ [])) }
{
    let mut types = Vec::from_slice(alloc, &[first.condition.kind, first.branch.kind])?;
    push_choices(&mut types, more)?;
    push(&mut types, last)?;
    Ok(types)
}

/// Adds the types of conditions and branches.
fn push_choices(types: &mut Vec<ExprType>, choices: &[Choice]) -> Result<(), AllocError>
    ensures { IfOk result (λ _. types.new.items ≡ types.old.items ++ spec.choice_kinds choices.now) }
{
    for choice in choices {
        types.extend_from_slice(&[choice.condition.kind, choice.branch.kind])?;
    }
    Ok(())
}

/// Adds the types of parts.
fn push_kinds(types: &mut Vec<ExprType>, parts: &[Elaborated]) -> Result<(), AllocError>
    ensures { IfOk result (λ _. types.new.items ≡ types.old.items ++ spec.kinds_of parts.now) }
{
    for part in parts {
        push(types, part.kind)?;
    }
    Ok(())
}

/// The types of the elements of rows.
pub fn row_kinds(alloc: Global, rows: &[Vec<Elaborated>]) -> Result<Vec<ExprType>, AllocError>
    ensures { IfOk result (λ v. v.items ≡ spec.row_kinds (map (λ r. r.items) rows.now)) }
{
    let mut types = Vec::new(alloc);
    for row in rows {
        push_kinds(&mut types, row.as_slice())?;
    }
    Ok(types)
}

/// The types of sets.
fn set_kinds(alloc: Global, sets: &[Source]) -> Result<Vec<ExprType>, AllocError>
    ensures { IfOk result (λ v. v.items ≡ spec.set_kinds sets.now) }
{
    let mut types = Vec::new(alloc);
    for next in sets {
        push(&mut types, next.set.kind)?;
    }
    Ok(types)
}

/// The types of the sets of generators, and then that of their condition.
pub fn source_kinds(alloc: Global, sources: &Sources) -> Result<Vec<ExprType>, AllocError>
    ensures { IfOk result (λ v. v.items ≡ spec.source_kinds (sources.now.list.items, sources.now.condition)) }
{
    let mut types = set_kinds(alloc, sources.list.as_slice())?;
    match &sources.condition {
        Some(condition) => {
            push(&mut types, condition.kind)?;
            Ok(types)
        }
        None => Ok(types),
    }
}
