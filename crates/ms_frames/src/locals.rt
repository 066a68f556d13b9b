//! Locals.

ghost use Rattle.std.specs.Prelude.{◌≡◌, ◌∷◌, ℕ, List};
ghost use Rattle.ms_frames.specs.Frames.{Goes, leave as leave_of, part, parts, resume};
ghost use Rattle.ms_frames.specs.declared.frame.Here.{Here as HereOf};
ghost use Rattle.ms_placing.specs.Outside.{Outside as OutsideOf};
ghost use Rattle.ms_placing.specs.Placing as p;

use crate::frame::{Frame, Here, Task};
use ms_code::Code;
use ms_placing::PlaceFault;
use ms_values::{Operand, Pile};

/// The latest name is gone.
pub fn leave(here: &mut Here)
    ensures { here.new ≡ leave_of here.old }
{
    let _last = here.names.pop();
}

/// The values of locals that are still to come, and then the body.
pub fn bind<'a>(
    frames: &mut Pile<Frame<'a>>,
    values: &'a [Code],
    body: &'a Code,
) -> Result<Task<'a>, PlaceFault>
    ensures { (out : OutsideOf) → (here : HereOf) → (n : ℕ) → (ws : List ℕ) → Goes out (p.bound (parts out here.calls values.entry.now) here.names (λ names. part out here.calls body.entry.now names (resume out frames.old here)) n ws) result frames.new here n ws }
{
    match values.split_first() {
        None => Ok(Task::Enter(body)),
        Some((first, rest)) => {
            frames.push(Frame::Bound(rest, body))?;
            Ok(Task::Enter(first))
        }
    }
}

/// The value of a local is placed.
pub fn bound<'a>(
    frames: &mut Pile<Frame<'a>>,
    here: &mut Here,
    values: &'a [Code],
    body: &'a Code,
    x: Operand,
) -> Result<Task<'a>, PlaceFault>
    ensures { (out : OutsideOf) → (n : ℕ) → (ws : List ℕ) → Goes out (p.bound (parts out here.old.calls values.entry.now) (x ∷ here.old.names) (λ names. part out here.old.calls body.entry.now names (resume out frames.old here.old)) n ws) result frames.new here.new n ws }
{
    here.names.push(x)?;
    frames.push(Frame::Unbound)?;
    bind(frames, values, body)
}
