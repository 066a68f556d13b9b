ghost use Rattle.std.specs.Prelude.{◌≡◌, ◌<◌, [], ◌∷◌, ◌++◌, length, IfOk, OnOk, OnErr, Some, None, slice_get, option_map};
ghost use Rattle.ms_session.specs.Frames.{new_frame, empty_frame, spend_one, left_in, number_in};

use std::alloc::{AllocError, Global};
use std::marker::Model;

/// A limit on nodes, and what is left of it.
#[derive(Clone, Copy, Debug, PartialEq, Eq)]
pub struct Frame {
    /// With how many nodes it began.
    pub number: u64,
    /// How many of them are left.
    pub left: u64,
}

impl Frame {
    /// A frame from which nothing was taken yet.
    pub fn new(nodes: u64) -> Frame
        ensures { result ≡ new_frame nodes }
    {
        Frame {
            number: nodes,
            left: nodes,
        }
    }
}

/// The frames of a run, which nest: the outermost, with the node limit of the run, has the place 0.
///
/// A node is taken from each of them.
#[derive(Debug, Drop)]
pub struct Budget {
    frames: Vec<Frame>,
}

impl Model for Budget {
    ghost use Rattle.std.specs.Prelude.{List, ◌<◌, length};
    ghost use Rattle.ms_session.specs.declared.budget.Frame.{Frame};

    ghost Value = { List Frame };

    ghost view = { λ b. b.frames.items };

    ghost invariant = { λ b. 0 < length b.frames.items };
}

impl Budget {
    /// One frame with this many nodes.
    pub fn new(alloc: Global, nodes: u64) -> Result<Budget, AllocError>
        ensures { IfOk result (λ b. b ≡ new_frame nodes ∷ []) }
    {
        let mut frames = Vec::with_capacity(alloc, 1)?;
        frames.push(Frame::new(nodes))?;
        Ok(Budget { frames })
    }

    /// Adds an innermost frame.
    pub fn push(&mut self, nodes: u64) -> Result<(), AllocError>
        ensures ok { OnOk result (self.new ≡ self.old ++ new_frame nodes ∷ []) }
        ensures err { OnErr result (self.new ≡ self.old) }
    {
        self.frames.push(Frame::new(nodes))?;
        Ok(())
    }

    /// Takes the innermost frame away.
    pub fn pop(&mut self)
        requires { 1 < length self.old }
        ensures { (f : _) × (self.old ≡ self.new ++ f ∷ []) }
    {
        let _ = self.frames.pop();
    }

    /// How many frames there are.
    pub fn len(&self) -> usize
        ensures value { result ≡ length self.now }
        ensures some { 0 < result }
    {
        self.frames.len()
    }

    /// What is left of the frame.
    pub fn left(&self, frame: usize) -> u64
        requires { frame < length self.now }
        ensures { option_map left_in (slice_get self.now frame) ≡ Some result }
    {
        self.frames[frame].left
    }

    /// With how many nodes the frame began.
    pub fn number(&self, frame: usize) -> u64
        requires { frame < length self.now }
        ensures { option_map number_in (slice_get self.now frame) ≡ Some result }
    {
        self.frames[frame].number
    }

    /// The outermost frame of which nothing is left.
    pub fn empty_frame(&self) -> Option<usize>
        ensures value { result ≡ empty_frame self.now }
        ensures some { 0 < length self.now }
    {
        for (i, frame) in self.frames.iter().enumerate() {
            if frame.left == 0 {
                return Some(i);
            }
        }
        None
    }

    /// Takes a node from each frame.
    pub fn spend(&mut self)
        requires { empty_frame self.old ≡ None }
        ensures { self.new ≡ spend_one self.old }
    {
        spend_all(&mut self.frames)
    }
}

fn spend_all(frames: &mut [Frame])
    ensures { frames.new ≡ spend_one frames.old }
{
    for frame in frames.iter_mut() {
        frame.left = frame.left.saturating_sub(1);
    }
}
