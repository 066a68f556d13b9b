//! What nodes ask of their parts.

ghost use Rattle.std.specs.Prelude.{◌≡◌, ◌++◌, ◌∷◌, [], map, IfOk};
ghost use Rattle.ms_syntax.specs.Tree.{absent, decls_view, exs_view, gens_view, generators_view, rows_of, row_view};
ghost use Rattle.ms_typing.specs.Term as f;

use ms_names::{seen, type_of_kind};
use ms_nodes::push;
use ms_rows::truths;
use ms_syntax::{Declaration, Expr, Generator, Generators, Row};
use ms_typing::{ExprType, Surroundings};
use std::alloc::{AllocError, Global};

/// What the sets of generators are to be.
fn asked_of_sets(alloc: Global, list: &[Generator]) -> Result<Vec<ExprType>, AllocError>
    ensures { IfOk result (λ v. v.items ≡ f.gens_sets (gens_view list.now)) }
{
    let mut asked = Vec::new(alloc);
    for _generator in list {
        asked.push(ExprType::Set)?;
    }
    Ok(asked)
}

/// What the sets and the condition of generators are to be.
pub(crate) fn asked_of(alloc: Global, generators: &Generators) -> Result<Vec<ExprType>, AllocError>
    ensures { IfOk result (λ v. v.items ≡ f.generator_types (generators_view generators.now).0
        (generators_view generators.now).1) }
{
    let mut asked = asked_of_sets(alloc, generators.list.as_slice())?;
    match &generators.condition {
        Some(_) => {
            push(&mut asked, truths(true))?;
            Ok(asked)
        }
        None => Ok(asked),
    }
}

/// Whether there is one generator with one name.
#[tactic(auto, using(crate::proofs::Counts::one_name, crate::proofs::Counts::more_gens))]
fn has_one_name(list: &[Generator]) -> bool
    ensures { result ≡ f.is_one_name (gens_view list.now) absent }
{
    match list.split_first() {
        Some((first, others)) => match others.split_first() {
            Some(_) => false,
            None => first.names.as_slice().len() == 1,
        },
        None => false,
    }
}

/// Whether there is one generator with one name, and no condition.
#[tactic(auto, using(crate::proofs::Counts::not_one))]
pub(crate) fn is_one_name(generators: &Generators) -> bool
    ensures { result ≡ f.is_one_name (generators_view generators.now).0
        (generators_view generators.now).1 }
{
    match &generators.condition {
        Some(_) => false,
        None => has_one_name(generators.list.as_slice()),
    }
}

/// How many elements there are.
#[tactic(auto, using(crate::proofs::Counts::exs_counted))]
fn count_all(elements: &[Expr]) -> usize
    ensures { result ≡ f.exs_count (exs_view elements.now) }
{
    elements.len()
}

/// How many elements a row has.
fn count(row: &Row) -> usize
    ensures { result ≡ f.exs_count (row_view row.now) }
{
    count_all(row.elements.as_slice())
}

/// Whether all rows have so many elements.
fn are_long(length: usize, rows: &[Row]) -> bool
    ensures { result ≡ f.are_long length (rows_of (map row_view rows.now)) }
{
    for row in rows {
        if count(row) != length {
            return false;
        }
    }
    true
}

/// Whether rows have one length.
pub(crate) fn are_even(rows: &[Row]) -> bool
    ensures { result ≡ f.are_even (rows_of (map row_view rows.now)) }
{
    match rows.split_first() {
        Some((first, others)) => are_long(count(first), others),
        None => true,
    }
}

/// What locals are declared as.
pub(crate) fn local_types(
    alloc: Global,
    around: Surroundings,
    locals: &[Declaration],
) -> Result<Vec<ExprType>, AllocError>
    ensures { IfOk result (λ v. v.items ≡ f.local_types around (decls_view locals.now)) }
{
    let mut types = Vec::new(alloc);
    for local in locals {
        types.push(seen(around, type_of_kind(&local.kind)))?;
    }
    Ok(types)
}
