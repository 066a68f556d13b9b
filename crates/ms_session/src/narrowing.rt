ghost use Rattle.std.specs.Prelude.{◌≡◌, ◌≢◌, ◌&&◌, [], ℤ, true, IfOk, IfSome, All, MatchOption};
ghost use Rattle.ms_num.specs.Ranges.{is_member, IsRanges};
ghost use Rattle.ms_trees.specs.declared.tree.Ground.TheVariants.{Var};
ghost use Rattle.ms_trees.specs.WellFormed.{IsTruth, is_well_formed, is_numeric};
ghost use Rattle.ms_num.specs.Sets.{spans_of, set_of};
ghost use Rattle.ms_boxes.specs.Boxes.{box_of, IsProper};
ghost use Rattle.ms_boxes.specs.Trees.{HoldsNone};
ghost use Rattle.ms_session.specs.Narrowing.{is_kept, IsTied, Bounds, CutsAway, CutsTo, Narrows, MeetsNone, NarrowsBy};

use crate::plain_node::hull_on;
use ms_evaluator::Evaluator;
use ms_ground::{Ground, Hull, hull_laws};
use ms_num::{Ranges, Sets};
use std::alloc::{AllocError, Global};

/// How a constraint ties a variable to a tree.
#[derive(Clone, Copy, Debug)]
pub enum Relation {
    Equal,
    AtMost,
    Less,
    AtLeast,
    Greater,
}

/// A variable, how a constraint ties it to a tree, and what the tree may mean.
#[derive(Clone, Copy, Debug)]
pub struct Bound {
    pub variable: u32,
    pub relation: Relation,
    pub hull: Hull,
}

/// Cuts the set of each variable that an equality or an order ties to a tree, by what the tree may mean on the box so far.
/// Nothing is left where no assignment of the box meets the constraints, as far as that tells.
pub fn narrow(
    alloc: Global,
    evaluator: &mut Evaluator,
    sets: Sets,
    constraints: &[Ground],
) -> Result<Option<Sets>, AllocError>
    requires proper { IsProper (box_of sets) }
    requires fit { All (IsTruth (spans_of (box_of sets))) constraints.now }
    ensures { IfOk result (λ narrowed. MatchOption narrowed (HoldsNone constraints.now (box_of sets)) (λ n. Narrows constraints.now (box_of sets) (box_of n))) }
{
    hull_laws();
    let mut current = sets;
    for constraint in constraints {
        match narrow_by(alloc, evaluator, current, constraint)? {
            Some(narrowed) => current = narrowed,
            None => return Ok(None),
        }
    }
    Ok(Some(current))
}

// The same by one constraint: its left part is cut, and then its right part on what is left.
fn narrow_by(
    alloc: Global,
    evaluator: &mut Evaluator,
    sets: Sets,
    constraint: &Ground,
) -> Result<Option<Sets>, AllocError>
    requires proper { IsProper (box_of sets) }
    requires fit { IsTruth (spans_of (box_of sets)) constraint.now }
    ensures { IfOk result (λ narrowed. MatchOption narrowed (MeetsNone constraint.now (box_of sets)) (λ n. NarrowsBy constraint.now (box_of sets) (box_of n))) }
{
    if !is_comparison(constraint) {
        return Ok(Some(sets));
    }
    hull_laws();
    match narrow_left(alloc, evaluator, sets, constraint)? {
        Some(narrowed) => narrow_right(alloc, evaluator, narrowed, constraint),
        None => Ok(None),
    }
}

fn is_comparison(constraint: &Ground) -> bool {
    matches!(
        constraint,
        Ground::Eq(_, _) | Ground::Le(_, _) | Ground::Lt(_, _)
    )
}

// Cuts the left part of a comparison, where it is a variable.
fn narrow_left(
    alloc: Global,
    evaluator: &mut Evaluator,
    sets: Sets,
    constraint: &Ground,
) -> Result<Option<Sets>, AllocError>
    requires proper { IsProper (box_of sets) }
    requires fit { IsTruth (spans_of (box_of sets)) constraint.now }
    ensures { IfOk result (λ narrowed. MatchOption narrowed (MeetsNone constraint.now (box_of sets)) (λ n. NarrowsBy constraint.now (box_of sets) (box_of n))) }
{
    match left_bound(evaluator, constraint, sets.as_slice())? {
        Some(bound) => cut(alloc, sets, bound),
        None => Ok(Some(sets)),
    }
}

// The same of the right part.
fn narrow_right(
    alloc: Global,
    evaluator: &mut Evaluator,
    sets: Sets,
    constraint: &Ground,
) -> Result<Option<Sets>, AllocError>
    requires proper { IsProper (box_of sets) }
    requires fit { IsTruth (spans_of (box_of sets)) constraint.now }
    ensures { IfOk result (λ narrowed. MatchOption narrowed (MeetsNone constraint.now (box_of sets)) (λ n. NarrowsBy constraint.now (box_of sets) (box_of n))) }
{
    match right_bound(evaluator, constraint, sets.as_slice())? {
        Some(bound) => cut(alloc, sets, bound),
        None => Ok(Some(sets)),
    }
}

fn left_bound(
    evaluator: &mut Evaluator,
    constraint: &Ground,
    sets: &[Ranges],
) -> Result<Option<Bound>, AllocError>
    requires proper { IsProper (box_of sets.now) }
    requires fit { IsTruth (spans_of (box_of sets.now)) constraint.now }
    ensures { IfOk result (λ bound. IfSome bound (Bounds (spans_of (box_of sets.now)) constraint.now)) }
{
    match constraint {
        Ground::Eq(a, b) => tied(evaluator, a.get(), Relation::Equal, b.get(), sets),
        Ground::Le(a, b) => tied(evaluator, a.get(), Relation::AtMost, b.get(), sets),
        Ground::Lt(a, b) => tied(evaluator, a.get(), Relation::Less, b.get(), sets),
        _ => Ok(None),
    }
}

fn right_bound(
    evaluator: &mut Evaluator,
    constraint: &Ground,
    sets: &[Ranges],
) -> Result<Option<Bound>, AllocError>
    requires proper { IsProper (box_of sets.now) }
    requires fit { IsTruth (spans_of (box_of sets.now)) constraint.now }
    ensures { IfOk result (λ bound. IfSome bound (Bounds (spans_of (box_of sets.now)) constraint.now)) }
{
    match constraint {
        Ground::Eq(a, b) => tied(evaluator, b.get(), Relation::Equal, a.get(), sets),
        Ground::Le(a, b) => tied(evaluator, b.get(), Relation::AtLeast, a.get(), sets),
        Ground::Lt(a, b) => tied(evaluator, b.get(), Relation::Greater, a.get(), sets),
        _ => Ok(None),
    }
}

// The bound of a part that is a variable, by the other part.
fn tied(
    evaluator: &mut Evaluator,
    part: &Ground,
    relation: Relation,
    tree: &Ground,
    sets: &[Ranges],
) -> Result<Option<Bound>, AllocError>
    requires proper { IsProper (box_of sets.now) }
    requires fit { is_well_formed (spans_of (box_of sets.now)) tree.now ≡ true }
    requires number { is_numeric tree.now ≡ true }
    ensures { IfOk result (λ bound. IfSome bound (IsTied (spans_of (box_of sets.now)) part.now relation tree.now)) }
{
    hull_laws();
    let Some(variable) = variable_of(part) else {
        return Ok(None);
    };
    let hull = hull_on(evaluator, tree, sets)?;
    Ok(Some(Bound {
        variable,
        relation,
        hull,
    }))
}

fn variable_of(tree: &Ground) -> Option<u32>
    ensures { IfSome result (λ v. tree.now ≡ Var v) }
{
    match tree {
        Ground::Var(v) => Some(*v),
        _ => None,
    }
}

// Cuts the set of the variable to the bound; nothing is left where it has no number there, and the sets are not
// touched where all its numbers are.
fn cut(alloc: Global, sets: Sets, bound: Bound) -> Result<Option<Sets>, AllocError>
    requires { IsProper (box_of sets) }
    ensures { IfOk result (λ cut. MatchOption cut (CutsAway bound (box_of sets)) (λ n. CutsTo bound (box_of sets) (box_of n))) }
{
    let at = bound.variable as usize;
    if at >= sets.as_slice().len() {
        return Ok(Some(sets));
    }
    if is_within(&sets.as_slice()[at], bound) {
        return Ok(Some(sets));
    }
    let kept = kept_of(alloc, &sets.as_slice()[at], bound)?;
    if kept.ranges().is_empty() {
        return Ok(None);
    }
    let mut cut = sets.into_vec();
    cut[at] = kept;
    Ok(Some(Sets::from_vec(cut)))
}

// Whether both ends of the set pass, and so all its numbers.
fn is_within(set: &Ranges, bound: Bound) -> bool
    requires { set.now ≢ [] }
    ensures { result ≡ (is_kept bound.relation bound.hull (set_of set.now).lo && is_kept bound.relation bound.hull (set_of set.now).hi) }
{
    let whole = set.ends();
    passes(bound, whole.lo()) && passes(bound, whole.hi())
}

// Whether the number may be so related to one between the ends of the hull.
fn passes(bound: Bound, number: i64) -> bool
    ensures { result ≡ is_kept bound.relation bound.hull number }
{
    let (lo, hi) = (bound.hull.lo, bound.hull.hi);
    match bound.relation {
        Relation::Equal => lo <= number && number <= hi,
        Relation::AtMost => number <= hi,
        Relation::Less => number <= hi && number != hi,
        Relation::AtLeast => lo <= number,
        Relation::Greater => lo <= number && number != lo,
    }
}

// The numbers of the set that pass.
fn kept_of(alloc: Global, set: &Ranges, bound: Bound) -> Result<Ranges, AllocError>
    ensures members { IfOk result (λ kept. (z : ℤ) → is_member kept z ≡ (is_member set.now z && is_kept bound.relation bound.hull z)) }
    ensures proper { IfOk result IsRanges }
{
    let (lo, hi) = (bound.hull.lo, bound.hull.hi);
    match bound.relation {
        Relation::Equal => {
            let above = set.at_least(alloc, lo)?;
            above.at_most(alloc, hi)
        }
        Relation::AtMost => set.at_most(alloc, hi),
        Relation::Less => {
            let below = set.at_most(alloc, hi)?;
            below.without(alloc, hi)
        }
        Relation::AtLeast => set.at_least(alloc, lo),
        Relation::Greater => {
            let above = set.at_least(alloc, lo)?;
            above.without(alloc, lo)
        }
    }
}
