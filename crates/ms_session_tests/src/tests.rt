//! Sessions as a caller drives them: scopes by a table of calls, and the answers of small models beside those that
//! enumeration finds.
ghost use Rattle.std.specs.Prelude.{◌≡◌, ◌<◌, ◌^◌, ◌≤ℤ◌, pos, List, All, IfOk, OnOk, IsTrue};
ghost use Rattle.ms_trees.specs.declared.tree.Ground.{Ground};
ghost use Rattle.ms_trees.specs.WellFormed.{IsTruth};
ghost use Rattle.ms_session.specs.declared.budget.Frame.{Frame};
ghost use Rattle.ms_session.specs.Frames.{outer_left};
ghost use Rattle.ms_boxes.specs.Trees.{IsConstraint};
ghost use Rattle.ms_session.specs.Laws.{AllHaveRoom};
ghost use Rattle.ms_boxes.specs.Boxes.{box_of};
ghost use Rattle.ms_session.specs.Stored.{state_of};
ghost use Rattle.ms_session_tests.specs.Samples.{line, square, Admits, IsFree};

mod trees;

use self::trees::{Posted, family_tree, posted_tree, triple};
use ms_ground::{Branching, Ground, Order, ValueChoice, holds, hull_laws, size, truth};
use ms_num::{Iv, Ranges};
use ms_session::{Budget, PlainSession, Session, Step, room_laws};
use std::alloc::{AllocError, Global};
use std::process::Abort;
use std::test::Fail;

fn declared_order(alloc: Global) -> Branching {
    Branching {
        order: Order::from_vec(Vec::new(alloc)),
        by_size: false,
        value: ValueChoice::Least,
    }
}

/// A call, with what is expected of it.
#[derive(Drop)]
enum Call {
    Enter,
    Leave,
    Post(Posted),
    /// `next` answers with this number.
    Found(i64),
    NoneLeft,
    Spent,
    /// How many scopes stand, the sizes of the constraints together, and the last answer.
    Stands(usize, u64, Option<i64>),
}

/// What is expected of `next`.
#[derive(Clone, Copy)]
enum Expected<'a> {
    Found(&'a [i64]),
    NoneLeft,
    Spent,
}

fn is_as_expected(step: &Step, expected: Expected) -> bool {
    match (step, expected) {
        (Step::Found(point), Expected::Found(numbers)) => point.as_slice() == numbers,
        (Step::NoneLeft, Expected::NoneLeft) => true,
        (Step::Spent, Expected::Spent) => true,
        _ => false,
    }
}

fn next_is<S: Session>(
    rt: &impl Abort,
    session: &mut S,
    budget: &mut Budget,
    expected: Expected,
) -> Result<(), Fail>
    requires { AllHaveRoom budget.old (S.state session.old) }
    ensures room { OnOk result (AllHaveRoom budget.new (S.state session.new)) }
    ensures sets { OnOk result ((S.state session.new).sets ≡ (S.state session.old).sets) }
{
    room_laws();
    assert!(rt; !session.failed());
    let _frames = budget.len();
    let step = session.next(budget)?;
    assert!(rt; is_as_expected(&step, expected));
    Ok(())
}

fn enter<S: Session>(rt: &impl Abort, session: &mut S) -> Result<(), Fail>
    ensures { OnOk result (IsFree (S.state session.old) (S.state session.new)) }
{
    room_laws();
    assert!(rt; !session.failed());
    assert!(rt; session.depth() < 200);
    session.enter()?;
    Ok(())
}

fn leave<S: Session>(rt: &impl Abort, session: &mut S)
    ensures { IsFree (S.state session.old) (S.state session.new) }
{
    room_laws();
    assert!(rt; session.depth() > 1);
    session.leave();
}

fn post<S: Session>(rt: &impl Abort, session: &mut S, constraint: &Ground) -> Result<(), Fail>
    requires { IsConstraint (S.state session.old).sets constraint.now }
    ensures { OnOk result (IsFree (S.state session.old) (S.state session.new)) }
{
    room_laws();
    assert!(rt; !session.failed());
    let live = session.live();
    assert!(rt; live <= 1000 && size(constraint) <= 1000);
    session.post(constraint)?;
    Ok(())
}

fn stands<S: Session>(rt: &impl Abort, session: &S, depth: usize, live: u64, last: Option<i64>) {
    assert!(rt; session.depth() == depth);
    assert!(rt; session.live() == live);
    let first = match session.last() {
        Some(numbers) => numbers.first().copied(),
        None => None,
    };
    assert!(rt; first == last);
}

fn take_call<S: Session>(
    rt: &impl Abort,
    alloc: Global,
    session: &mut S,
    budget: &mut Budget,
    call: &Call,
) -> Result<(), Fail>
    requires room { AllHaveRoom budget.old (S.state session.old) }
    requires admits { Admits line (S.state session.old) }
    ensures room { OnOk result (AllHaveRoom budget.new (S.state session.new)) }
    ensures admits { OnOk result (Admits line (S.state session.new)) }
{
    match call {
        Call::Enter => enter(rt, session),
        Call::Leave => {
            leave(rt, session);
            Ok(())
        }
        Call::Post(posted) => {
            let constraint = posted_tree(alloc, posted)?;
            post(rt, session, &constraint)
        }
        Call::Found(number) => next_is(rt, session, budget, Expected::Found(&[*number])),
        Call::NoneLeft => next_is(rt, session, budget, Expected::NoneLeft),
        Call::Spent => next_is(rt, session, budget, Expected::Spent),
        Call::Stands(depth, live, last) => {
            stands(rt, session, *depth, *live, *last);
            Ok(())
        }
    }
}

/// A session over one variable of 1 to `high`.
fn open_line(alloc: Global, high: i64) -> Result<PlainSession, AllocError>
    requires low { pos 1 ≤ℤ high }
    requires high { high ≤ℤ pos 4 }
    ensures room { IfOk result (λ s. (fr : List Frame) → outer_left fr < 2 ^ 64 → AllHaveRoom fr (state_of s)) }
    ensures admits { IfOk result (λ s. Admits line (state_of s)) }
{
    room_laws();
    hull_laws();
    let sets = [Ranges::from_iv(alloc, Iv::new(1, high))?];
    PlainSession::open(alloc, &sets, &[], declared_order(alloc))
}

fn run_calls(
    rt: &impl Abort,
    alloc: Global,
    high: i64,
    nodes: u64,
    calls: &[Call],
) -> Result<(), Fail> {
    assert!(rt; 1 <= high && high <= 4);
    let mut session = open_line(alloc, high)?;
    let mut budget = Budget::new(alloc, nodes)?;
    for call in calls {
        take_call(rt, alloc, &mut session, &mut budget, call)?;
    }
    Ok(())
}

#[test]
fn scopes_nest(rt: HostRuntime) -> Result<(), Fail> {
    use Call::{Enter, Found, Leave, NoneLeft, Post, Spent, Stands};
    let alloc = rt.alloc();
    let rows: [(i64, u64, &[Call]); 7] = [
        (
            3,
            100,
            &[Enter, Post(Posted::IsThree), Found(3), Leave, Found(1)],
        ),
        (
            4,
            100,
            &[
                Found(1),
                Enter,
                Post(Posted::AboveTwo),
                Found(3),
                Leave,
                Found(2),
            ],
        ),
        (4, 100, &[Found(1), Post(Posted::NotTwo), Found(3)]),
        (4, 100, &[Found(1), Enter, Leave, Found(2)]),
        (
            3,
            100,
            &[
                Found(1),
                Found(2),
                Found(3),
                NoneLeft,
                NoneLeft,
                Enter,
                Found(1),
            ],
        ),
        (4, 0, &[Spent, Enter, Spent, Leave, Spent]),
        (
            4,
            100,
            &[
                Stands(1, 0, None),
                Found(1),
                Enter,
                Stands(2, 0, None),
                Post(Posted::NotTwo),
                Post(Posted::AboveTwo),
                Stands(2, 6, None),
                Found(3),
                Stands(2, 6, Some(3)),
                Leave,
                Stands(1, 0, Some(1)),
            ],
        ),
    ];
    for (high, nodes, calls) in rows {
        run_calls(&rt, alloc, high, nodes, calls)?;
    }
    Ok(())
}

fn all_hold(constraints: &[Ground], x: u8, y: u8) -> bool
    requires fit { All (IsTruth square) constraints.now }
    requires x { x < 4 }
    requires y { y < 4 }
{
    hull_laws();
    let point = [i64::from(x), i64::from(y)];
    for constraint in constraints {
        if !holds(constraint, &point) {
            return false;
        }
    }
    true
}

/// The answers come in the order of enumeration, and are those whose constraints hold.
fn answers_are_enumerated(
    rt: &impl Abort,
    session: &mut PlainSession,
    budget: &mut Budget,
    sets: &[Ranges],
    constraints: &[Ground],
) -> Result<(), Fail>
    requires room { AllHaveRoom budget.old (state_of session.old) }
    requires fit { All (IsTruth square) constraints.now }
{
    assert!(rt; sets.len() == 2);
    for x in 0..4u8 {
        for y in 0..4u8 {
            if sets[0].has(i64::from(x))
                && sets[1].has(i64::from(y))
                && all_hold(constraints, x, y)
            {
                let point = [i64::from(x), i64::from(y)];
                next_is(rt, session, budget, Expected::Found(&point))?;
            }
        }
    }
    next_is(rt, session, budget, Expected::NoneLeft)
}

fn family_sets(alloc: Global) -> Result<Vec<Ranges>, AllocError>
    ensures { IfOk result (λ sets. (g : Ground) → IsTruth square g → IsConstraint (box_of sets.items) g) }
{
    hull_laws();
    let xs = Ranges::from_iv(alloc, Iv::new(0, 2))?;
    let ys = Ranges::from_iv(alloc, Iv::new(0, 3))?.without(alloc, 1)?;
    Ok(vec![in alloc; xs, ys]?)
}

fn check_model(rt: &impl Abort, alloc: Global, first: u8, second: u8) -> Result<(), Fail> {
    room_laws();
    let sets = family_sets(alloc)?;
    let constraints = [family_tree(alloc, first)?, family_tree(alloc, second)?];
    assert!(rt; size(&constraints[0]) <= 1000 && size(&constraints[1]) <= 1000);
    let mut session = PlainSession::open(alloc, &sets, &constraints, declared_order(alloc))?;
    let mut budget = Budget::new(alloc, 1000)?;
    answers_are_enumerated(rt, &mut session, &mut budget, &sets, &constraints)
}

#[test]
fn answers_are_those_of_enumeration(rt: HostRuntime) -> Result<(), Fail> {
    for first in 0..9u8 {
        for second in first..9u8 {
            check_model(&rt, rt.alloc(), first, second)?;
        }
    }
    Ok(())
}

/// A session without constraints.
fn open_free(
    alloc: Global,
    sets: &[Ranges],
    branching: Branching,
) -> Result<PlainSession, AllocError>
    ensures { IfOk result (λ s. (fr : List Frame) → outer_left fr < 2 ^ 64 → AllHaveRoom fr (state_of s)) }
{
    room_laws();
    PlainSession::open(alloc, sets, &[], branching)
}

#[test]
fn ends_of_boxes(rt: HostRuntime) -> Result<(), Fail> {
    let alloc = rt.alloc();
    let mut session = open_free(alloc, &[Ranges::empty(alloc)], declared_order(alloc))?;
    let mut budget = Budget::new(alloc, 0)?;
    next_is(&rt, &mut session, &mut budget, Expected::NoneLeft)?;
    let mut session = open_free(alloc, &[], declared_order(alloc))?;
    let mut budget = Budget::new(alloc, 1)?;
    next_is(&rt, &mut session, &mut budget, Expected::Found(&[]))?;
    next_is(&rt, &mut session, &mut budget, Expected::NoneLeft)
}

#[test]
fn the_smallest_set_is_split_first(rt: HostRuntime) -> Result<(), Fail> {
    let alloc = rt.alloc();
    let sets = [
        Ranges::from_iv(alloc, Iv::new(0, 2))?,
        Ranges::from_iv(alloc, Iv::new(5, 6))?,
    ];
    let branching = Branching {
        order: Order::from_vec(vec![in alloc; 0, 1]?),
        by_size: true,
        value: ValueChoice::Greatest,
    };
    let mut session = open_free(alloc, &sets, branching)?;
    let mut budget = Budget::new(alloc, 100)?;
    let answers = [[2, 6], [1, 6], [0, 6], [2, 5], [1, 5], [0, 5]];
    for answer in answers.iter() {
        next_is(&rt, &mut session, &mut budget, Expected::Found(answer))?;
    }
    next_is(&rt, &mut session, &mut budget, Expected::NoneLeft)
}

/// Whether the tree is a constraint over variables of these sets.
fn is_constraint(tree: &Ground, sets: &[Ranges]) -> bool
    ensures { IsTrue result → IsConstraint (box_of sets.now) tree.now }
{
    truth(tree, sets).is_some()
}

// Twenty million numbers of the second variable are cut away in a few nodes.
#[test]
fn a_defined_variable_is_narrowed(rt: HostRuntime) -> Result<(), Fail> {
    room_laws();
    let alloc = rt.alloc();
    let sets = [
        Ranges::from_iv(alloc, Iv::new(1, 3))?,
        Ranges::from_iv(alloc, Iv::new(-10_000_000, 10_000_000))?,
    ];
    let constraints = [triple(alloc)?];
    assert!(rt; is_constraint(&constraints[0], &sets) && size(&constraints[0]) <= 1000);
    let mut session = PlainSession::open(alloc, &sets, &constraints, declared_order(alloc))?;
    let mut budget = Budget::new(alloc, 10)?;
    next_is(&rt, &mut session, &mut budget, Expected::Found(&[1, 3]))?;
    next_is(&rt, &mut session, &mut budget, Expected::Found(&[2, 6]))?;
    next_is(&rt, &mut session, &mut budget, Expected::Found(&[3, 9]))?;
    next_is(&rt, &mut session, &mut budget, Expected::NoneLeft)
}

// The second variable is halved once and the first twice before the first answer; each of the seven splits and eight
// answers is a node.
#[test]
fn the_lower_half_is_tried_first(rt: HostRuntime) -> Result<(), Fail> {
    let alloc = rt.alloc();
    let sets = [
        Ranges::from_iv(alloc, Iv::new(-1, 2))?,
        Ranges::from_iv(alloc, Iv::new(5, 6))?,
    ];
    let branching = Branching {
        order: Order::from_vec(vec![in alloc; 1, 0]?),
        by_size: false,
        value: ValueChoice::LowerHalf,
    };
    let mut session = open_free(alloc, &sets, branching)?;
    let mut budget = Budget::new(alloc, 15)?;
    next_is(&rt, &mut session, &mut budget, Expected::Found(&[-1, 5]))?;
    let _frames = budget.len();
    assert_eq!(rt; budget.left(0), 11);
    let answers = [[0, 5], [1, 5], [2, 5], [-1, 6], [0, 6], [1, 6], [2, 6]];
    for answer in answers.iter() {
        next_is(&rt, &mut session, &mut budget, Expected::Found(answer))?;
    }
    next_is(&rt, &mut session, &mut budget, Expected::NoneLeft)
}
