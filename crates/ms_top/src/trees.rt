//! The ground trees and the domains of a model of the plain form.

ghost use Rattle.std.specs.Prelude.{◌≡◌, ◌≤◌, IsTrue, IfOk, is_some, length, map, unwrap_or};
ghost use Rattle.std.specs.List.{list_all};
ghost use Rattle.ms_top.specs.Plain as plain;
ghost use Rattle.ms_top.specs.Solution as spec;

use crate::domain::Domain;
use crate::limits::place_of;
use crate::plain::{Comparison, Number, PlainDeclaration, PlainModel, Relation, Term, Total};
use ms_ground::Ground;
use sqlite_items::Boxed;
use std::alloc::{AllocError, Global};

fn integer_of(number: Number) -> i64
    requires { IsTrue (plain.is_small_number number) }
    ensures { result ≡ spec.integer_of number }
{
    let magnitude = number.magnitude as i64;
    if number.negative {
        -magnitude
    } else {
        magnitude
    }
}

fn term_tree(declarations: &[PlainDeclaration], term: &Term) -> Ground
    requires few { length declarations.now ≤ 8 }
    requires small { IsTrue (plain.is_small_term declarations.now term.now) }
    ensures { result ≡ spec.term_tree declarations.now term.now }
{
    match term {
        Term::Number(number) => Ground::Num(integer_of(*number)),
        Term::Name(name) => {
            let place = place_of(declarations, name.as_slice());
            Ground::Var(place.unwrap_or(0) as u32)
        }
    }
}

fn total_tree(
    alloc: Global,
    declarations: &[PlainDeclaration],
    total: &Total,
) -> Result<Ground, AllocError>
    requires few { length declarations.now ≤ 8 }
    requires small { IsTrue (plain.is_small_total declarations.now total.now) }
    ensures { IfOk result (λ g. g ≡ spec.total_tree declarations.now total.now) }
{
    let mut sum = term_tree(declarations, &total.first);
    for term in total.others.as_slice() {
        let added = term_tree(declarations, term);
        sum = Ground::Add(Boxed::new(alloc, sum)?, Boxed::new(alloc, added)?);
    }
    Ok(sum)
}

fn comparison_tree(
    alloc: Global,
    declarations: &[PlainDeclaration],
    comparison: &Comparison,
) -> Result<Ground, AllocError>
    requires few { length declarations.now ≤ 8 }
    requires small { IsTrue (plain.is_small_comparison declarations.now comparison.now) }
    ensures { IfOk result (λ g. g ≡ spec.comparison_tree declarations.now comparison.now) }
{
    let left = Boxed::new(alloc, total_tree(alloc, declarations, &comparison.left)?)?;
    let right = Boxed::new(alloc, total_tree(alloc, declarations, &comparison.right)?)?;
    match comparison.relation {
        Relation::Equal => Ok(Ground::Eq(left, right)),
        Relation::NotEqual => Ok(Ground::Ne(left, right)),
        Relation::Less => Ok(Ground::Lt(left, right)),
        Relation::AtMost => Ok(Ground::Le(left, right)),
        Relation::Greater => Ok(Ground::Lt(right, left)),
        Relation::AtLeast => Ok(Ground::Le(right, left)),
    }
}

fn trees_of(
    alloc: Global,
    declarations: &[PlainDeclaration],
    comparisons: &[Comparison],
) -> Result<Vec<Ground>, AllocError>
    requires few { length declarations.now ≤ 8 }
    requires small { IsTrue (list_all (plain.is_small_comparison declarations.now) comparisons.now) }
    ensures { IfOk result (λ v. v.items ≡ map (spec.comparison_tree declarations.now) comparisons.now) }
{
    let mut trees = Vec::new(alloc);
    for comparison in comparisons {
        trees.push(comparison_tree(alloc, declarations, comparison)?)?;
    }
    Ok(trees)
}

/// The tree of each constraint.
pub fn constraint_trees(alloc: Global, model: &PlainModel) -> Result<Vec<Ground>, AllocError>
    requires { IsTrue (plain.is_small model.now) }
    ensures { IfOk result (λ v. v.items ≡ spec.constraint_trees model.now) }
{
    trees_of(
        alloc,
        model.declarations.as_slice(),
        model.constraints.as_slice(),
    )
}

fn domain_of(declaration: &PlainDeclaration) -> Domain
    requires { IsTrue (plain.is_small_declaration declaration.now) }
    ensures { result ≡ spec.domain_of declaration.now }
{
    Domain {
        lowest: integer_of(declaration.lowest),
        highest: integer_of(declaration.highest),
    }
}

/// The domain of each declaration.
pub fn domains(alloc: Global, model: &PlainModel) -> Result<Vec<Domain>, AllocError>
    requires { IsTrue (plain.is_small model.now) }
    ensures { IfOk result (λ v. v.items ≡ spec.domains model.now) }
{
    let mut domains = Vec::new(alloc);
    for declaration in model.declarations.as_slice() {
        domains.push(domain_of(declaration))?;
    }
    Ok(domains)
}
