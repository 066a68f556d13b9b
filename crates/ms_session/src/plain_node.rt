ghost use Rattle.std.specs.Prelude.{◌≡◌, ◌<◌, true, All, IfOk, MatchBool, length};
ghost use Rattle.ms_trees.specs.WellFormed.{IsTruth, is_well_formed};
ghost use Rattle.ms_trees.specs.Enclosure.{enclosure, hull_of};
ghost use Rattle.ms_num.specs.Sets.{spans_of};
ghost use Rattle.ms_boxes.specs.Boxes.{box_of, IsProper, least_point};
ghost use Rattle.ms_boxes.specs.Branchings.{is_unfixed as unfixed_in};
ghost use Rattle.ms_boxes.specs.Trees.{HoldsNone, NoneRefuted};
ghost use Rattle.ms_session.specs.Plain.{Halves, IsBoxStep, IsNarrowedStep};

use crate::cuts::{values_left, values_tried};
use crate::narrowing::narrow;
use crate::picks::pick;
use ms_base::Point;
use ms_evaluator::Evaluator;
use ms_ground::{Branching, Ground, Hull, ValueChoice, hull_laws};
use ms_num::{Ranges, Sets};
use std::alloc::{AllocError, Global};

/// What one node makes of a box.
#[derive(Drop)]
pub enum BoxStep {
    Dropped,
    Answered(Point),
    /// The part that is tried first, and the other.
    Split(Sets, Sets),
}

/// Takes one node: the box is narrowed by the equalities and orders of which a variable is one part. What is left is
/// dropped where a constraint is refuted on it, else answered where it has one assignment, and else split.
pub fn box_step(
    alloc: Global,
    evaluator: &mut Evaluator,
    sets: Sets,
    constraints: &[Ground],
    branching: &Branching,
) -> Result<BoxStep, AllocError>
    requires proper { IsProper (box_of sets) }
    requires fit { All (IsTruth (spans_of (box_of sets))) constraints.now }
    ensures { IfOk result (IsBoxStep branching.now constraints.now (box_of sets)) }
{
    hull_laws();
    match narrow(alloc, evaluator, sets, constraints)? {
        Some(narrowed) => narrowed_step(alloc, evaluator, narrowed, constraints, branching),
        None => Ok(BoxStep::Dropped),
    }
}

// What is made of a box that is narrowed no further. On a box of one assignment reasoning by intervals is exact.
fn narrowed_step(
    alloc: Global,
    evaluator: &mut Evaluator,
    sets: Sets,
    constraints: &[Ground],
    branching: &Branching,
) -> Result<BoxStep, AllocError>
    requires proper { IsProper (box_of sets) }
    requires fit { All (IsTruth (spans_of (box_of sets))) constraints.now }
    ensures { IfOk result (IsNarrowedStep branching.now constraints.now (box_of sets)) }
{
    hull_laws();
    if is_refuted(evaluator, sets.as_slice(), constraints)? {
        return Ok(BoxStep::Dropped);
    }
    match pick(sets.as_slice(), branching) {
        None => Ok(BoxStep::Answered(least(alloc, sets.as_slice())?)),
        Some((variable, choice)) => {
            let (first, second) = halves(alloc, sets, variable, choice)?;
            Ok(BoxStep::Split(first, second))
        }
    }
}

// Whether a constraint is refuted on the box, so that no assignment of it meets them all.
fn is_refuted(
    evaluator: &mut Evaluator,
    sets: &[Ranges],
    constraints: &[Ground],
) -> Result<bool, AllocError>
    requires proper { IsProper (box_of sets.now) }
    requires fit { All (IsTruth (spans_of (box_of sets.now))) constraints.now }
    ensures { IfOk result (λ refuted. MatchBool refuted (HoldsNone constraints.now (box_of sets.now)) (NoneRefuted constraints.now (box_of sets.now))) }
{
    hull_laws();
    for constraint in constraints {
        let hull = hull_on(evaluator, constraint, sets)?;
        if !hull.may_be_true {
            return Ok(true);
        }
    }
    Ok(false)
}

// The part of a box that is tried first, and the other.
fn halves(
    alloc: Global,
    sets: Sets,
    variable: usize,
    choice: ValueChoice,
) -> Result<(Sets, Sets), AllocError>
    requires proper { IsProper (box_of sets) }
    requires unfixed { unfixed_in (box_of sets) variable ≡ true }
    requires within { variable < length sets }
    ensures { IfOk result (λ parts. Halves (box_of sets) variable choice (box_of parts.0) (box_of parts.1)) }
{
    let tried = values_tried(alloc, &sets.as_slice()[variable], choice)?;
    let left = values_left(alloc, &sets.as_slice()[variable], choice)?;
    let mut first = sets.copy(alloc)?.into_vec();
    first[variable] = tried;
    let mut second = sets.into_vec();
    second[variable] = left;
    Ok((Sets::from_vec(first), Sets::from_vec(second)))
}

// The least number of each set.
fn least(alloc: Global, sets: &[Ranges]) -> Result<Point, AllocError>
    requires { IsProper (box_of sets.now) }
    ensures { IfOk result (λ point. point ≡ least_point (box_of sets.now)) }
{
    let mut numbers = Vec::with_capacity(alloc, sets.len())?;
    for set in sets {
        numbers.push(set.ends().lo())?;
    }
    Ok(Point::from_vec(numbers))
}

/// What the tree may mean on the box.
pub fn hull_on(
    evaluator: &mut Evaluator,
    tree: &Ground,
    sets: &[Ranges],
) -> Result<Hull, AllocError>
    requires proper { IsProper (box_of sets.now) }
    requires fit { is_well_formed (spans_of (box_of sets.now)) tree.now ≡ true }
    ensures { IfOk result (λ hull. hull ≡ hull_of (enclosure (spans_of (box_of sets.now)) tree.now)) }
{
    evaluator.hull(tree, sets)
}
