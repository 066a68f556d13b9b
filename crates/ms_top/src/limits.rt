//! What is allowed of models of the plain form.

ghost use Rattle.std.specs.Prelude.{◌≡◌, length, nat_lt, nat_le};
ghost use Rattle.std.specs.List.{list_all, list_any};
ghost use Rattle.std.specs.Str.{bytes_eq};
ghost use Rattle.ms_top.specs.Plain as spec;

use crate::plain::{Comparison, Number, PlainDeclaration, PlainModel, Term, Total};

/// The greatest magnitude of a number.
const MAX_MAGNITUDE: u64 = 1000000;

const MAX_DECLARATIONS: usize = 8;

/// How many terms a total may have.
const MAX_TERMS: usize = 100;

/// The place of the declaration of a name.
pub fn place_of(declarations: &[PlainDeclaration], name: &[u8]) -> Option<usize>
    ensures { result ≡ spec.place_of declarations.now name.now }
{
    declarations.iter().position(|d| d.name.as_slice() == name)
}

fn is_small_number(number: Number) -> bool
    ensures { result ≡ spec.is_small_number number }
{
    number.magnitude <= MAX_MAGNITUDE
}

fn is_small_term(declarations: &[PlainDeclaration], term: &Term) -> bool
    ensures { result ≡ spec.is_small_term declarations.now term.now }
{
    match term {
        Term::Number(number) => is_small_number(*number),
        Term::Name(name) => place_of(declarations, name.as_slice()).is_some(),
    }
}

fn are_small_terms(declarations: &[PlainDeclaration], terms: &[Term]) -> bool
    ensures { result ≡ list_all (spec.is_small_term declarations.now) terms.now }
{
    terms.iter().all(|term| is_small_term(declarations, term))
}

fn is_short(total: &Total) -> bool
    ensures { result ≡ nat_lt (length total.now.others) 100 }
{
    total.others.len() < MAX_TERMS
}

fn is_small_total(declarations: &[PlainDeclaration], total: &Total) -> bool
    ensures { result ≡ spec.is_small_total declarations.now total.now }
{
    is_short(total)
        && is_small_term(declarations, &total.first)
        && are_small_terms(declarations, total.others.as_slice())
}

fn is_small_comparison(declarations: &[PlainDeclaration], comparison: &Comparison) -> bool
    ensures { result ≡ spec.is_small_comparison declarations.now comparison.now }
{
    is_small_total(declarations, &comparison.left)
        && is_small_total(declarations, &comparison.right)
}

fn are_small_comparisons(declarations: &[PlainDeclaration], comparisons: &[Comparison]) -> bool
    ensures { result ≡ list_all (spec.is_small_comparison declarations.now) comparisons.now }
{
    comparisons
        .iter()
        .all(|comparison| is_small_comparison(declarations, comparison))
}

fn is_small_declaration(declaration: &PlainDeclaration) -> bool
    ensures { result ≡ spec.is_small_declaration declaration.now }
{
    is_small_number(declaration.lowest) && is_small_number(declaration.highest)
}

fn are_small_declarations(declarations: &[PlainDeclaration]) -> bool
    ensures { result ≡ list_all spec.is_small_declaration declarations.now }
{
    declarations.iter().all(|d| is_small_declaration(d))
}

fn are_few(declarations: &[PlainDeclaration]) -> bool
    ensures { result ≡ nat_le (length declarations.now) 8 }
{
    declarations.len() <= MAX_DECLARATIONS
}

fn declares(declarations: &[PlainDeclaration], name: &[u8]) -> bool
    ensures { result ≡ list_any (λ d. bytes_eq d.name name.now) declarations.now }
{
    declarations.iter().any(|d| d.name.as_slice() == name)
}

/// Whether no name is declared twice.
fn differ(declarations: &[PlainDeclaration]) -> bool
    ensures { result ≡ spec.differ declarations.now }
{
    match declarations {
        [] => true,
        [first, others @ ..] => !declares(others, first.name.as_slice()) && differ(others),
    }
}

/// Whether the model keeps to all limits.
pub fn is_small(model: &PlainModel) -> bool
    ensures { result ≡ spec.is_small model.now }
{
    let declarations = model.declarations.as_slice();
    are_few(declarations)
        && are_small_declarations(declarations)
        && differ(declarations)
        && are_small_comparisons(declarations, model.constraints.as_slice())
}
