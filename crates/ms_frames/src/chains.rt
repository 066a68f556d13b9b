//! Chains of operators.

ghost use Rattle.std.specs.Prelude.{◌≡◌, ℕ, List, Some};
ghost use Rattle.ms_placing.specs.Outside.{Outside as OutsideOf};
ghost use Rattle.ms_placing.specs.Placing as p;
ghost use Rattle.ms_rules.specs.Operators as r;
ghost use Rattle.ms_operators.specs.Connectives.{truth_by, node_by, no_operands};
ghost use Rattle.ms_frames.specs.declared.frame.Here.{Here as HereOf};
ghost use Rattle.ms_frames.specs.declared.frame.ChainFrame.TheVariants as l;
ghost use Rattle.ms_frames.specs.Frames.{Goes, resume, calls, links as links_of, befores, back_chain as back_chain_of};

use crate::frame::{Before, ChainFrame, Frame, Task};
use crate::nodes::{is_shallow, tick, visit};
use ms_base::Count;
use ms_code::Link;
use ms_operators::{Connective, Junction, join};
use ms_placing::{Grouping, PlaceFault};
use ms_syntax::{Operator, Place};
use ms_values::{Operand, Pile};
use std::alloc::Global;

fn is_or(link: &Link) -> bool
    ensures { (out : OutsideOf) → (d : ℕ) → result ≡ p.is_or (p.run_link out (calls out d) link.now) }
{
    match link.operator {
        Operator::Or => true,
        _ => false,
    }
}

fn are_or(links: &[Link]) -> bool
    ensures { (out : OutsideOf) → (d : ℕ) → result ≡ p.are_or (links_of out d links.now) }
{
    for link in links {
        if !is_or(link) {
            return false;
        }
    }
    true
}

/// How a chain groups.
fn grouping(links: &[Link]) -> Grouping
    ensures { (out : OutsideOf) → (d : ℕ) → result ≡ p.grouping (links_of out d links.now) }
{
    match links.split_first() {
        None => Grouping::Left,
        Some((first, rest)) => grouping_by(first.operator, are_or(rest)),
    }
}

fn grouping_by(operator: Operator, others_are_or: bool) -> Grouping
    ensures { result ≡ p.grouping_by operator others_are_or }
{
    match operator {
        Operator::Or => {
            if others_are_or {
                Grouping::Disjunction
            } else {
                Grouping::Left
            }
        }
        Operator::And => Grouping::Conjunction,
        Operator::Concat => Grouping::Right,
        _ => Grouping::Left,
    }
}

/// The pairs that are still to come.
#[inline(always)]
fn paired<'a>(
    frames: &mut Pile<Frame<'a>>,
    links: &'a [Link],
    place: Place,
    x: Operand,
) -> Result<Task<'a>, PlaceFault>
    ensures { (out : OutsideOf) → (here : HereOf) → (n : ℕ) → (ws : List ℕ) → Goes out (p.paired (links_of out here.calls links.now) here.names place x (resume out frames.old here) n ws) result frames.new here n ws }
{
    match links.split_first() {
        None => Ok(Task::Give(place, x)),
        Some((link, rest)) => {
            let operand = &link.operand;
            let frame = ChainFrame::Right(link.place, link.operator, x, rest);
            frames.push(Frame::Chain(frame))?;
            Ok(Task::Enter(operand))
        }
    }
}

/// The right operand of a pair is placed.
#[inline(always)]
fn pair<'a>(
    alloc: Global,
    frames: &mut Pile<Frame<'a>>,
    place: Place,
    operator: Operator,
    x: Operand,
    y: Operand,
    links: &'a [Link],
    left: &mut u64,
) -> Result<Task<'a>, PlaceFault>
    ensures { (out : OutsideOf) → (here : HereOf) → (ws : List ℕ) → Goes out (back_chain_of out (l.Right place operator x links.entry) here place y (resume out frames.old) left.old ws) result frames.new here left.new ws }
{
    let z = join(alloc, operator, x, y)?;
    match links.split_first() {
        None => visit(place, z, left),
        Some(_) => {
            frames.push(Frame::Chain(ChainFrame::Pairs(links)))?;
            visit(place, z, left)
        }
    }
}

/// The operands that are still to come of a chain of `/\` or `\/`.
#[inline(never)]
fn connected<'a>(
    alloc: Global,
    frames: &mut Pile<Frame<'a>>,
    connective: Connective,
    junction: Junction,
    links: &'a [Link],
    place: Place,
) -> Result<Task<'a>, PlaceFault>
    ensures { (out : OutsideOf) → (here : HereOf) → (n : ℕ) → (ws : List ℕ) → Goes out (p.connected (truth_by connective) (node_by connective) (links_of out here.calls links.now) here.names place junction (resume out frames.old here) n ws) result frames.new here n ws }
{
    match links.split_first() {
        None => Ok(Task::Give(place, junction.into_operand(alloc, connective)?)),
        Some((link, rest)) => {
            let operand = &link.operand;
            let frame = ChainFrame::Operand(connective, link.place, junction, rest);
            frames.push(Frame::Chain(frame))?;
            Ok(Task::Enter(operand))
        }
    }
}

/// The first operand of a chain of `/\` or `\/` is placed.
#[inline(never)]
fn connect<'a>(
    alloc: Global,
    frames: &mut Pile<Frame<'a>>,
    connective: Connective,
    links: &'a [Link],
    place: Place,
    x: Operand,
) -> Result<Task<'a>, PlaceFault>
    ensures { (out : OutsideOf) → (here : HereOf) → (n : ℕ) → (ws : List ℕ) → Goes out (p.connected (truth_by connective) (node_by connective) (links_of out here.calls links.now) here.names place (r.with_operand (truth_by connective) (no_operands connective) x) (resume out frames.old here) n ws) result frames.new here n ws }
{
    let mut junction = Junction::new(alloc, connective);
    junction.push(alloc, connective, x)?;
    connected(alloc, frames, connective, junction, links, place)
}

/// A further operand of a chain of `/\` or `\/` is placed: its operator is visited, of which no tree is made yet.
#[tactic(auto, unfolding(crate::specs::Frames::back_chain))]
#[inline(never)]
fn junction<'a>(
    alloc: Global,
    frames: &mut Pile<Frame<'a>>,
    connective: Connective,
    place: Place,
    junction: Junction,
    y: Operand,
    links: &'a [Link],
    left: &mut u64,
) -> Result<Task<'a>, PlaceFault>
    ensures { (out : OutsideOf) → (here : HereOf) → (ws : List ℕ) → Goes out (back_chain_of out (l.Operand connective place junction links.entry) here place y (resume out frames.old) left.old ws) result frames.new here left.new ws }
{
    let mut junction = junction;
    junction.push(alloc, connective, y)?;
    tick(place, left)?;
    if is_shallow(junction.nesting()) {
        connected(alloc, frames, connective, junction, links, place)
    } else {
        Err(PlaceFault::Big(Count::Nesting, place))
    }
}

/// The operands to the left of what is placed, the latest first.
#[inline(never)]
fn unwound<'a>(
    alloc: Global,
    frames: &mut Pile<Frame<'a>>,
    before: Pile<Before>,
    place: Place,
    y: Operand,
    left: &mut u64,
) -> Result<Task<'a>, PlaceFault>
    ensures { (out : OutsideOf) → (here : HereOf) → (ws : List ℕ) → Goes out (p.unwound (befores before) place y (resume out frames.old here) left.old ws) result frames.new here left.new ws }
{
    let mut before = before;
    match before.pop() {
        None => Ok(Task::Give(place, y)),
        Some(last) => {
            let z = join(alloc, Operator::Concat, last.operand, y)?;
            frames.push(Frame::Chain(ChainFrame::Whole(before)))?;
            visit(last.place, z, left)
        }
    }
}

/// The operands that are still to come of a chain of `++`.
#[inline(never)]
fn concatenated<'a>(
    alloc: Global,
    frames: &mut Pile<Frame<'a>>,
    before: Pile<Before>,
    links: &'a [Link],
    place: Place,
    x: Operand,
    left: &mut u64,
) -> Result<Task<'a>, PlaceFault>
    ensures { (out : OutsideOf) → (here : HereOf) → (ws : List ℕ) → Goes out (p.concatenated (links_of out here.calls links.now) here.names (befores before) place x (resume out frames.old here) left.old ws) result frames.new here left.new ws }
{
    match links.split_first() {
        None => unwound(alloc, frames, before, place, x, left),
        Some((link, rest)) => {
            let operand = &link.operand;
            let mut before = before;
            before.push(Before {
                place: link.place,
                operand: x,
            })?;
            frames.push(Frame::Chain(ChainFrame::Behind(before, rest)))?;
            Ok(Task::Enter(operand))
        }
    }
}

/// The first operand of a chain is placed.
#[inline(always)]
fn linked<'a>(
    alloc: Global,
    frames: &mut Pile<Frame<'a>>,
    links: &'a [Link],
    place: Place,
    x: Operand,
    left: &mut u64,
) -> Result<Task<'a>, PlaceFault>
    ensures { (out : OutsideOf) → (here : HereOf) → (ws : List ℕ) → Goes out (back_chain_of out (l.First links.entry) here place x (resume out frames.old) left.old ws) result frames.new here left.new ws }
{
    match grouping(links) {
        Grouping::Left => paired(frames, links, place, x),
        Grouping::Right => { concatenated(alloc, frames, Pile::new(alloc), links, place, x, left) }
        Grouping::Conjunction => {
            connect(alloc, frames, Connective::Conjunction, links, place, x)
        }
        Grouping::Disjunction => {
            connect(alloc, frames, Connective::Disjunction, links, place, x)
        }
    }
}

#[inline(always)]
pub fn back_chain<'a>(
    alloc: Global,
    frames: &mut Pile<Frame<'a>>,
    frame: ChainFrame<'a>,
    place: Place,
    x: Operand,
    left: &mut u64,
) -> Result<Task<'a>, PlaceFault>
    ensures { (out : OutsideOf) → (here : HereOf) → (ws : List ℕ) → Goes out (back_chain_of out frame.entry here place x (resume out frames.old) left.old ws) result frames.new here left.new ws }
{
    match frame {
        ChainFrame::First(links) => linked(alloc, frames, links, place, x, left),
        ChainFrame::Pairs(links) => paired(frames, links, place, x),
        ChainFrame::Right(p, operator, y, links) => {
            pair(alloc, frames, p, operator, y, x, links, left)
        }
        ChainFrame::Operand(connective, p, so_far, links) => {
            junction(alloc, frames, connective, p, so_far, x, links, left)
        }
        ChainFrame::Behind(before, links) => {
            concatenated(alloc, frames, before, links, place, x, left)
        }
        ChainFrame::Whole(before) => unwound(alloc, frames, before, place, x, left),
    }
}
