ghost use Rattle.std.specs.Prelude.{IfOk, MatchBool};
ghost use Rattle.ms_boxes.specs.Boxes.{box_of, IsProper};
ghost use Rattle.ms_session.specs.Stored.{AreOpening, IsVoid};

use crate::plain_node::BoxStep;
use ms_base::Point;
use ms_num::{Ranges, Sets};
use std::alloc::{AllocError, Global};

/// A scope whose frontier is a list of boxes. Its constraints are kept beside it.
#[derive(Drop)]
pub struct PlainScope {
    /// The sizes of all its constraints together.
    pub live: u64,
    pub given: Vec<Point>,
    /// The frontier, its first box last.
    pub boxes: Vec<Sets>,
    pub spent: u64,
    pub closed: bool,
}

/// A scope below the current one. Its constraints are the first so many of those of the scope above it.
#[derive(Drop)]
pub struct Parent {
    pub scope: PlainScope,
    pub posted: usize,
}

impl PlainScope {
    ghost use Rattle.std.specs.Prelude.{◌+◌, ◌<◌, ◌^◌, IfOk, OnErr};
    ghost use Rattle.ms_session.specs.Stored.{IsOpened, Applies, KeepsBoxes};

    /// A fresh scope whose constraints have this size together.
    pub fn open(alloc: Global, declared: &Sets, live: u64) -> Result<PlainScope, AllocError>
        ensures { IfOk result (IsOpened declared.now live) }
    {
        Ok(PlainScope {
            live,
            given: Vec::new(alloc),
            boxes: opening_boxes(alloc, declared)?,
            spent: 0,
            closed: false,
        })
    }

    /// Counts a node, and puts what it has made of the first box in its place.
    pub fn apply(&mut self, alloc: Global, step: BoxStep) -> Result<Option<Point>, AllocError>
        requires { self.old.spent + 1 < 2 ^ 64 }
        ensures ok { IfOk result (λ answer. Applies self.old step answer self.new) }
        ensures err { OnErr result (KeepsBoxes self.old self.new) }
    {
        self.spent += 1;
        match step {
            BoxStep::Dropped => Ok(None),
            BoxStep::Answered(point) => {
                self.given.push(point.copy(alloc)?)?;
                Ok(Some(point))
            }
            BoxStep::Split(first, second) => {
                self.boxes.reserve(2)?;
                self.boxes.push_reserved(second);
                self.boxes.push_reserved(first);
                Ok(None)
            }
        }
    }
}

// The frontier with which a scope begins: the box of the declared sets, unless one of these is empty.
fn opening_boxes(alloc: Global, declared: &Sets) -> Result<Vec<Sets>, AllocError>
    ensures { IfOk result (λ boxes. AreOpening declared.now boxes.items) }
{
    if !are_proper(declared.as_slice()) {
        return Ok(Vec::new(alloc));
    }
    let mut boxes = Vec::with_capacity(alloc, 1)?;
    boxes.push(declared.copy(alloc)?)?;
    Ok(boxes)
}

// Whether no set is empty.
fn are_proper(sets: &[Ranges]) -> bool
    ensures { MatchBool result (IsProper (box_of sets.now)) (IsVoid (box_of sets.now)) }
{
    for set in sets {
        if set.ranges().is_empty() {
            return false;
        }
    }
    true
}
