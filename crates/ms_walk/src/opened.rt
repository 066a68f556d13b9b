//! Calls.

ghost use Rattle.std.specs.Prelude.{◌≡◌, ℕ, List, IfOk, reverse, option_map, true, if◌then◌else◌};
ghost use Rattle.std.specs.Option.{option_copied};
ghost use Rattle.ms_placing.specs.Outside.{Outside as OutsideOf};
ghost use Rattle.ms_placing.specs.Placing as p;
ghost use Rattle.ms_rules.specs.Calls as c;
ghost use Rattle.ms_frames.specs.declared.frame.Here.{Here as HereOf};
ghost use Rattle.ms_frames.specs.declared.frame.Frame.{Frame as FrameOf};
ghost use Rattle.ms_walk.specs.Around.{Around as AroundOf, outside_of};
ghost use Rattle.ms_frames.specs.Frames.{Goes, resume, calls};

use crate::surroundings::Surroundings;
use ms_base::Count;
use ms_built_ins::BuiltIn;
use ms_calls::{call, draws};
use ms_code::{Code, Reference};
use ms_draws::Words;
use ms_frames::{Frame, Here, Task, settle, tick, visit};
use ms_placing::PlaceFault;
use ms_syntax::Place;
use ms_values::{Narrow, Operand, Pile};
use std::alloc::{AllocError, Global};
use std::mem;

/// The body of a function is opened, if there is one.
fn open<'a>(
    frames: &mut Pile<Frame<'a>>,
    here: &mut Here,
    place: Place,
    body: Option<&'a Code>,
    arguments: Pile<Operand>,
    left: &mut u64,
) -> Result<Task<'a>, PlaceFault>
    ensures { (out : OutsideOf) → (ws : List ℕ) → Goes out (p.opened (p.opener out here.old.calls) place (option_copied body.entry) arguments (resume out frames.old here.old) left.old ws) result frames.new here.new left.new ws }
{
    match body {
        None => visit(place, Some(Operand::Number(None)), left),
        Some(body) => {
            if here.calls == 0 {
                return Err(PlaceFault::Big(Count::Nesting, place));
            }
            let inner = Here {
                calls: here.calls - 1,
                names: arguments,
            };
            let outer = mem::replace(here, inner);
            frames.push(Frame::Return(place, outer))?;
            Ok(Task::Enter(body))
        }
    }
}

/// The next word, where one is taken.
fn word_for<W: Words>(words: &mut W, takes: bool) -> u32
    ensures word { takes ≡ true → result ≡ W.word_of (W.state words.old) }
    ensures after { W.state words.new ≡ (if takes then W.after (W.state words.old) else W.state words.old) }
{
    if takes { words.word() } else { 0 }
}

/// What a built-in name makes, with a word where it takes one.
fn evaluate<W: Words>(
    alloc: Global,
    point: Option<&[Narrow]>,
    words: &mut W,
    name: BuiltIn,
    arguments: Pile<Operand>,
) -> Result<Option<Operand>, AllocError>
    ensures value { IfOk result (λ z. z ≡ c.call (option_map (λ p. p.now) point.entry) (W.word_of (W.state words.old)) name (reverse arguments)) }
    ensures after { (a : AroundOf) → W.state words.new ≡ p.words_after (outside_of a W.word_of W.after) (c.draws name (reverse arguments)) (W.state words.old) }
{
    let takes = draws(name, &arguments);
    let word = word_for(words, takes);
    call(alloc, point, word, name, arguments)
}

/// A built-in name: its step, and then a draw, where it is one.
fn call_built_in<'a, O: Surroundings, W: Words>(
    alloc: Global,
    outside: &O,
    words: &mut W,
    place: Place,
    name: BuiltIn,
    arguments: Pile<Operand>,
    left: &mut u64,
) -> Result<Task<'a>, PlaceFault>
    ensures { (frames : List FrameOf) → (here : HereOf) → Goes (outside_of (O.around outside.now) W.word_of W.after) (p.built_in (outside_of (O.around outside.now) W.word_of W.after) place name (reverse arguments) (resume (outside_of (O.around outside.now) W.word_of W.after) frames here) left.old (W.state words.old)) result frames here left.new (W.state words.new) }
{
    tick(place, left)?;
    let x = evaluate(alloc, outside.point(), words, name, arguments)?;
    settle(place, x)
}

/// A call whose arguments are placed.
#[inline(never)]
pub fn call_name<'a, O: Surroundings, W: Words>(
    alloc: Global,
    outside: &'a O,
    words: &mut W,
    frames: &mut Pile<Frame<'a>>,
    here: &mut Here,
    place: Place,
    name: Reference,
    arguments: Pile<Operand>,
    left: &mut u64,
) -> Result<Task<'a>, PlaceFault>
    ensures { Goes (outside_of (O.around outside.now) W.word_of W.after) (calls (outside_of (O.around outside.now) W.word_of W.after) here.old.calls place name arguments (resume (outside_of (O.around outside.now) W.word_of W.after) frames.old here.old) left.old (W.state words.old)) result frames.new here.new left.new (W.state words.new) }
{
    match name {
        Reference::Local(_) => visit(place, Some(Operand::Number(None)), left),
        Reference::Model(at) => {
            let body = outside.body(Reference::Model(at));
            open(frames, here, place, body, arguments, left)
        }
        Reference::Library(at) => {
            let body = outside.body(Reference::Library(at));
            open(frames, here, place, body, arguments, left)
        }
        Reference::BuiltIn(name) => {
            call_built_in(alloc, outside, words, place, name, arguments, left)
        }
    }
}
