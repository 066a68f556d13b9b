//! The plain form, read from a tree.

ghost use Rattle.std.specs.Prelude.{◌≡◌, map};
ghost use Rattle.ms_syntax.specs.Tree.{base_view, ex_view, links_view, declaration_view, goal_view, indices_view, item_view, kind_view, notes_view, tree_view};
ghost use Rattle.ms_top.specs.Plain as spec;
ghost use Rattle.ms_top.specs.Reading.{Gives, Declares};

use crate::plain::{Comparison, Number, PlainDeclaration, PlainModel, Relation, Term, Total};
use ms_syntax::{
    Base, Declaration, Expr, Goal, Index, Item, Kind, Link, Mode, Note, Operator, Sign, Tree,
};
use sqlite_items::Items;
use std::alloc::{AllocError, AllocFailed, Global};

/// Why a tree is not read as a model of the plain form.
#[derive(Clone, Copy)]
pub enum Unread {
    NotPlain,
    Memory,
}

impl From<AllocError> for Unread {
    ghost use Rattle.std.specs.Prelude.{◌≡◌};
    ghost use Rattle.ms_top.specs.declared.form.Unread.TheVariants.{Memory};

    ghost from_gives = { λ _ e. e ≡ Memory };

    fn from(_: AllocError) -> Unread {
        Unread::Memory
    }
}

impl<T: Drop> From<AllocFailed<T>> for Unread {
    ghost use Rattle.std.specs.Prelude.{◌≡◌};
    ghost use Rattle.ms_top.specs.declared.form.Unread.TheVariants.{Memory};

    ghost from_gives = { λ _ e. e ≡ Memory };

    fn from(_: AllocFailed<T>) -> Unread {
        Unread::Memory
    }
}

/// A number without a sign.
fn magnitude(expr: &Expr) -> Option<u64>
    ensures { result ≡ spec.magnitude_of (ex_view expr.now) }
{
    match expr {
        Expr::Number(_, n) => Some(*n),
        _ => None,
    }
}

fn number(expr: &Expr) -> Option<Number>
    ensures { result ≡ spec.number_of (ex_view expr.now) }
{
    match expr {
        Expr::Number(_, n) => Some(Number {
            negative: false,
            magnitude: *n,
        }),
        Expr::Prefix(_, Sign::Minus, operand) => Some(Number {
            negative: true,
            magnitude: magnitude(operand)?,
        }),
        _ => None,
    }
}

fn term(alloc: Global, expr: &Expr) -> Result<Term, Unread>
    ensures { Gives (λ t. t) (spec.term_of (ex_view expr.now)) result }
{
    match expr {
        Expr::Name(_, word) => Ok(Term::Name(word.copy(alloc)?)),
        _ => Ok(Term::Number(number(expr).ok_or(Unread::NotPlain)?)),
    }
}

/// The terms behind the first.
fn added(alloc: Global, links: &[Link]) -> Result<Items<Term>, Unread>
    ensures { Gives (λ ts. ts) (spec.added_of (links_view links.now)) result }
{
    let mut found = Items::new(alloc);
    for link in links {
        let Operator::Plus = link.operator else {
            return Err(Unread::NotPlain);
        };
        found.push(term(alloc, &link.operand)?)?;
    }
    Ok(found)
}

fn total(alloc: Global, expr: &Expr) -> Result<Total, Unread>
    ensures { Gives (λ t. t) (spec.total_of (ex_view expr.now)) result }
{
    match expr {
        Expr::Sum(first, links) => Ok(Total {
            first: term(alloc, first)?,
            others: added(alloc, links)?,
        }),
        _ => Ok(Total {
            first: term(alloc, expr)?,
            others: Items::new(alloc),
        }),
    }
}

fn relation(operator: Operator) -> Option<Relation>
    ensures { result ≡ spec.relation_of operator }
{
    match operator {
        Operator::Equal => Some(Relation::Equal),
        Operator::NotEqual => Some(Relation::NotEqual),
        Operator::Less => Some(Relation::Less),
        Operator::AtMost => Some(Relation::AtMost),
        Operator::Greater => Some(Relation::Greater),
        Operator::AtLeast => Some(Relation::AtLeast),
        _ => None,
    }
}

/// A comparison of two totals.
fn compared(alloc: Global, expr: &Expr) -> Result<Comparison, Unread>
    ensures { Gives (λ c. c) (spec.compared_of (ex_view expr.now)) result }
{
    match expr {
        Expr::Comparison(first, link) => {
            let relation = relation(link.operator).ok_or(Unread::NotPlain)?;
            let left = total(alloc, first)?;
            let right = total(alloc, &link.operand)?;
            Ok(Comparison {
                left,
                relation,
                right,
            })
        }
        _ => Err(Unread::NotPlain),
    }
}

fn has_no_notes(notes: &[Note]) -> bool
    ensures { result ≡ spec.has_no_notes (notes_view notes.now) }
{
    notes.is_empty()
}

fn comparison(alloc: Global, item: &Item) -> Result<Comparison, Unread>
    ensures { Gives (λ c. c) (spec.comparison_of (item_view item.now)) result }
{
    match item {
        Item::Constraint(_, expr, notes) => {
            if !has_no_notes(notes) {
                return Err(Unread::NotPlain);
            }
            compared(alloc, expr)
        }
        _ => Err(Unread::NotPlain),
    }
}

/// The lowest and the highest number of a range.
fn range(expr: &Expr) -> Option<(Number, Number)>
    ensures { result ≡ spec.range_of (ex_view expr.now) }
{
    match expr {
        Expr::Range(first, link) => match link.operator {
            Operator::To => Some((number(first)?, number(&link.operand)?)),
            _ => None,
        },
        _ => None,
    }
}

/// The range of the values of a variable.
fn range_of_base(mode: Mode, base: &Base) -> Option<(Number, Number)>
    ensures { result ≡ spec.range_of_base mode (base_view base.now) }
{
    match mode {
        Mode::Var => match base {
            Base::Within(expr) => range(expr),
            _ => None,
        },
        _ => None,
    }
}

fn has_no_indices(indices: &[Index]) -> bool
    ensures { result ≡ spec.has_no_indices (indices_view indices.now) }
{
    indices.is_empty()
}

fn range_of_kind(kind: &Kind) -> Option<(Number, Number)>
    ensures { result ≡ spec.range_of_kind (kind_view kind.now) }
{
    if has_no_indices(&kind.indices) {
        range_of_base(kind.mode, &kind.base)
    } else {
        None
    }
}

/// Whether a declaration has neither notes nor a value.
fn is_bare(declaration: &Declaration) -> bool
    ensures { result ≡ spec.is_bare (declaration_view declaration.now) }
{
    has_no_notes(&declaration.notes) && declaration.value.is_none()
}

fn declaration(alloc: Global, declaration: &Declaration) -> Result<PlainDeclaration, Unread>
    ensures { Gives (λ d. d) (spec.declaration_of (declaration_view declaration.now)) result }
{
    if !is_bare(declaration) {
        return Err(Unread::NotPlain);
    }
    let (lowest, highest) = range_of_kind(&declaration.kind).ok_or(Unread::NotPlain)?;
    Ok(PlainDeclaration {
        lowest,
        highest,
        name: declaration.name.copy(alloc)?,
    })
}

fn asks_to_satisfy(goal: &Goal) -> bool
    ensures { result ≡ spec.asks_to_satisfy (goal_view goal.now) }
{
    match goal {
        Goal::Satisfy(_) => true,
        _ => false,
    }
}

/// Whether an item is `solve satisfy`.
fn is_satisfy(item: &Item) -> bool
    ensures { result ≡ spec.is_satisfy (item_view item.now) }
{
    match item {
        Item::Solve(_, notes, goal) => has_no_notes(notes) && asks_to_satisfy(goal),
        _ => false,
    }
}

/// The declarations that the items begin with.
fn declarations(alloc: Global, items: &[Item]) -> Result<Items<PlainDeclaration>, Unread>
    ensures { Declares (map item_view items.now) result }
{
    let mut found = Items::new(alloc);
    for item in items {
        let Item::Declare(declared) = item else {
            return Ok(found);
        };
        found.push(declaration(alloc, declared)?)?;
    }
    Ok(found)
}

fn comparisons(alloc: Global, items: &[Item]) -> Result<Items<Comparison>, Unread>
    ensures { Gives (λ cs. cs) (spec.all_of spec.comparison_of (map item_view items.now)) result }
{
    let mut found = Items::new(alloc);
    for item in items {
        found.push(comparison(alloc, item)?)?;
    }
    Ok(found)
}

/// The constraints before the item that solves.
fn constraints(alloc: Global, items: &[Item]) -> Result<Items<Comparison>, Unread>
    ensures { Gives (λ cs. cs) (spec.constraints_of (map item_view items.now)) result }
{
    match items.split_last() {
        Some((last, others)) if is_satisfy(last) => comparisons(alloc, others),
        _ => Err(Unread::NotPlain),
    }
}

/// The declarations and the constraints that all items are.
fn parts(
    alloc: Global,
    items: &[Item],
) -> Result<(Items<PlainDeclaration>, Items<Comparison>), Unread>
    ensures { Gives (λ r. r) (spec.parts_of (map item_view items.now)) result }
{
    let declarations = declarations(alloc, items)?;
    let constraints = constraints(alloc, &items[declarations.len()..])?;
    Ok((declarations, constraints))
}

/// The model that a tree is.
pub fn plain_model(alloc: Global, tree: &Tree) -> Result<PlainModel, Unread>
    ensures { Gives (λ m. m) (spec.plain_of (tree_view tree.now)) result }
{
    let (declarations, constraints) = parts(alloc, &tree.items)?;
    Ok(PlainModel {
        declarations,
        constraints,
    })
}
