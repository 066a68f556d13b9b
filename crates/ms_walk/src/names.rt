//! Names.

ghost use Rattle.std.specs.Prelude.{◌≡◌, ℕ, List, ◌-◌, IfOk, length, slice_get};
ghost use Rattle.ms_placing.specs.Placing as p;
ghost use Rattle.ms_frames.specs.declared.frame.Frame.{Frame as FrameOf};
ghost use Rattle.ms_frames.specs.declared.frame.Task.TheVariants as t;
ghost use Rattle.ms_frames.specs.Frames.{Goes, goes};
ghost use Rattle.ms_walk.specs.Around.{outside_of};

use crate::surroundings::Surroundings;
use ms_code::Reference;
use ms_frames::{Here, Task, visit};
use ms_placing::PlaceFault;
use ms_syntax::Place;
use ms_values::{Operand, Pile};
use std::alloc::{AllocError, Global};

#[inline(always)]
fn local<O: Surroundings>(
    alloc: Global,
    outside: &O,
    names: &Pile<Operand>,
    at: usize,
) -> Result<Operand, AllocError>
    ensures { (w : List ℕ → ℕ) → (f : List ℕ → List ℕ) → IfOk result (λ x. x ≡ p.local (outside_of (O.around outside.now) w f) (at - length names.now) (slice_get names.now at)) }
{
    match names.get(at) {
        Some(x) => x.share(alloc),
        None => outside.value(alloc, Reference::Local(at.saturating_sub(names.len()))),
    }
}

/// What a name is placed to.
#[inline(always)]
fn named<O: Surroundings>(
    alloc: Global,
    outside: &O,
    names: &Pile<Operand>,
    name: Reference,
) -> Result<Operand, AllocError>
    ensures { (w : List ℕ → ℕ) → (f : List ℕ → List ℕ) → IfOk result (λ x. x ≡ p.named (outside_of (O.around outside.now) w f) names.now name) }
{
    match name {
        Reference::Local(at) => local(alloc, outside, names, at),
        Reference::Model(at) => outside.value(alloc, Reference::Model(at)),
        Reference::Library(at) => outside.value(alloc, Reference::Library(at)),
        Reference::BuiltIn(_) => Ok(Operand::Number(None)),
    }
}

#[inline(always)]
pub fn look<'a, O: Surroundings>(
    alloc: Global,
    outside: &O,
    here: &Here,
    place: Place,
    name: Reference,
    left: &mut u64,
) -> Result<Task<'a>, PlaceFault>
    ensures { (w : List ℕ → ℕ) → (f : List ℕ → List ℕ) → (frames : List FrameOf) → (ws : List ℕ) → Goes (outside_of (O.around outside.now) w f) (goes (outside_of (O.around outside.now) w f) frames here.now (t.Look place name) left.old ws) result frames here.now left.new ws }
{
    let x = named(alloc, outside, &here.names, name)?;
    visit(place, Some(x), left)
}
