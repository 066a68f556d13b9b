//! Generators, rows, branches and subscripts.

ghost use Rattle.std.specs.Prelude.{◌≡◌, ◌∷◌, [], ◌++◌, map, IfOk};
ghost use Rattle.ms_code.specs.Code as code;
ghost use Rattle.ms_nodes.specs.Nodes as spec;

use crate::conversions::{bring, bring_all};
use crate::parts::{Choice, Elaborated, Source, Sources};
use ms_code::{Arm, Code, Condition, Generator, Generators, Row, Subscript};
use ms_rows::{is_search, known_of};
use ms_typing::ExprType;
use sqlite_items::{Boxed, Items};
use std::alloc::{AllocError, Global};

fn sets(alloc: Global, sources: Vec<Source>) -> Result<Items<Generator>, AllocError>
    ensures { IfOk result (λ list. list ≡ map spec.source sources.items) }
{
    let mut list = Items::new(alloc);
    for next in sources {
        list.push(Generator {
            place: next.place,
            names: next.names,
            set: next.set.code.into_inner(),
        })?;
    }
    Ok(list)
}

/// Generators with their condition.
pub fn generators(alloc: Global, sources: Sources) -> Result<Generators, AllocError>
    ensures { IfOk result (λ g. g ≡ spec.sources (sources.list.items, sources.condition)) }
{
    let list = sets(alloc, sources.list)?;
    Ok(match sources.condition {
        Some(condition) => Generators {
            list,
            condition: Some(condition.code),
        },
        None => Generators {
            list,
            condition: None,
        },
    })
}

/// Adds a row whose elements are brought to this type.
fn add_row(
    alloc: Global,
    list: &mut Items<Row>,
    asked: ExprType,
    elements: Vec<Elaborated>,
) -> Result<(), AllocError>
    ensures { IfOk result (λ _. list.new ≡ list.old ++ spec.row_of asked elements.items ∷ []) }
{
    list.push(Row {
        elements: bring_all(alloc, asked, elements)?,
    })?;
    Ok(())
}

/// Rows whose elements are brought to this type.
pub fn rows(
    alloc: Global,
    asked: ExprType,
    parts: Vec<Vec<Elaborated>>,
) -> Result<Items<Row>, AllocError>
    ensures { IfOk result (λ list. list ≡ map (spec.row_of asked) (map (λ r. r.items) parts.items)) }
{
    let mut list = Items::new(alloc);
    for elements in parts {
        add_row(alloc, &mut list, asked, elements)?;
    }
    Ok(list)
}

/// What a condition of this type is.
fn condition_of(kind: ExprType) -> Condition
    ensures { result ≡ code.condition_of kind }
{
    if is_search(kind) {
        return Condition::Search;
    }
    if known_of(kind) {
        Condition::Known
    } else {
        Condition::Variable
    }
}

/// Adds a condition with a branch that is brought to this type.
fn add_arm(
    alloc: Global,
    list: &mut Items<Arm>,
    asked: ExprType,
    next: Choice,
) -> Result<(), AllocError>
    ensures { IfOk result (λ _. list.new ≡ list.old ++ spec.arm_of asked next ∷ []) }
{
    let Choice { condition, branch } = next;
    let kind = condition_of(condition.kind);
    let branch = bring(alloc, asked, branch)?;
    list.push(Arm {
        kind,
        condition: condition.code.into_inner(),
        branch: branch.into_inner(),
    })?;
    Ok(())
}

/// Conditions with branches that are brought to this type.
pub fn arms(
    alloc: Global,
    asked: ExprType,
    first: Choice,
    more: Vec<Choice>,
) -> Result<Items<Arm>, AllocError>
    ensures { IfOk result (λ list. list ≡ spec.arms asked (first ∷ more.items)) }
{
    let mut list = Items::new(alloc);
    add_arm(alloc, &mut list, asked, first)?;
    for next in more {
        add_arm(alloc, &mut list, asked, next)?;
    }
    Ok(list)
}

/// Adds a subscript to those of an access.
pub fn add_subscript(
    list: &mut Items<Subscript>,
    first: Boxed<Code>,
    second: Option<Boxed<Code>>,
) -> Result<(), AllocError>
    ensures { IfOk result (λ _. list.new ≡ list.old ++ code.subscript first second ∷ []) }
{
    list.push(Subscript {
        first: first.into_inner(),
        second,
    })?;
    Ok(())
}
