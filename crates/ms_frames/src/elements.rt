//! Elements of arrays and sets, and arguments.

ghost use Rattle.std.specs.Prelude.{◌≡◌, ℕ, List, Some, IfOk, ◌∷◌, length};
ghost use Rattle.ms_placing.specs.Outside.{Outside as OutsideOf};
ghost use Rattle.ms_placing.specs.Placing as p;
ghost use Rattle.ms_placing.specs.Steps.{visit as visit_of};
ghost use Rattle.ms_rules.specs.Conversions as c;
ghost use Rattle.ms_rules.specs.Cells as r;
ghost use Rattle.ms_rules.specs.Sets as s;
ghost use Rattle.ms_rules.specs.Arrays as q;
ghost use Rattle.ms_values.specs.declared.operand.Operand.TheVariants as v;
ghost use Rattle.ms_frames.specs.declared.frame.Here.{Here as HereOf};
ghost use Rattle.ms_frames.specs.declared.frame.Frame.{Frame as FrameOf};
ghost use Rattle.ms_frames.specs.Frames.{Goes, resume, calls, parts, ended as ended_of, filled_in, rows_in};

use crate::frame::{End, Frame, Task};
use crate::held::Held;
use crate::nodes::visit;
use ms_code::{Code, Reference, Row};
use ms_operators::ranges_of;
use ms_placing::PlaceFault;
use ms_rules::{empty, kind_of_type, line_from_one, numbers_of};
use ms_syntax::Place;
use ms_typing::ExprType;
use ms_values::{Array, Cells, IndexRange, Indices, Narrow, Operand, Pile, Shared};
use sqlite_items::Boxed;
use std::alloc::{AllocError, Global};

fn set_of(alloc: Global, cells: Cells) -> Result<Operand, AllocError>
    ensures { IfOk result (λ x. x ≡ v.Set (s.ranges_of (r.numbers_of cells))) }
{
    let numbers = numbers_of(alloc, cells)?;
    match ranges_of(alloc, numbers.as_slice())? {
        Some(set) => Ok(Operand::Set(Some(Shared::new(alloc, set)?))),
        None => Ok(Operand::Set(None)),
    }
}

/// So many indices from 1.
fn indices_from_one(low: Narrow, count: usize) -> IndexRange
    ensures { result ≡ q.index_range (low, count) }
{
    IndexRange {
        low,
        count: count.min(u32::MAX as usize) as u32,
    }
}

fn grid_from_one(
    alloc: Global,
    rows: usize,
    width: usize,
    cells: Cells,
) -> Result<Operand, AllocError>
    ensures { IfOk result (λ x. x ≡ p.grid_from_one rows width cells) }
{
    match Narrow::new(1) {
        Some(one) => {
            let indices = Indices::Grid(indices_from_one(one, rows), indices_from_one(one, width));
            Ok(Operand::Array(Shared::new(alloc, Array { indices, cells })?))
        }
        None => Err(AllocError),
    }
}

/// Begins with elements, which are put behind these cells.
pub fn begin<'a>(
    alloc: Global,
    end: End<'a>,
    cells: Cells,
    elements: &'a [Code],
) -> Result<Task<'a>, PlaceFault>
    ensures { (out : OutsideOf) → (frames : List FrameOf) → (here : HereOf) → (n : ℕ) → (ws : List ℕ) → Goes out (filled_in out end.entry here cells elements.entry.now (resume out frames here) n ws) result frames here n ws }
{
    let cells = Held::new(alloc, cells)?;
    let end = Boxed::new(alloc, end)?;
    Ok(Task::Fill(end, cells, elements))
}

/// The rows that are still to come.
fn next_row<'a>(
    alloc: Global,
    place: Place,
    count: usize,
    width: usize,
    rows: &'a [Row],
    cells: Cells,
    left: &mut u64,
) -> Result<Task<'a>, PlaceFault>
    ensures { (out : OutsideOf) → (frames : List FrameOf) → (here : HereOf) → (ws : List ℕ) → Goes out (p.filled_rows (rows_in out here.calls rows.now) here.names cells (λ more. visit_of place (Some (p.grid_from_one count width more)) (resume out frames here)) left.old ws) result frames here left.new ws }
{
    match rows.split_first() {
        None => {
            let x = grid_from_one(alloc, count, width, cells)?;
            visit(place, Some(x), left)
        }
        Some((row, rest)) => {
            let end = End::Rows(place, count, width, rest);
            begin(alloc, end, cells, row.elements.as_slice())
        }
    }
}

/// All elements are placed.
fn ended<'a>(
    alloc: Global,
    end: End<'a>,
    cells: Cells,
    left: &mut u64,
) -> Result<Task<'a>, PlaceFault>
    ensures { (out : OutsideOf) → (frames : List FrameOf) → (here : HereOf) → (ws : List ℕ) → Goes out (ended_of out end.entry here cells (resume out frames here) left.old ws) result frames here left.new ws }
{
    match end {
        End::Array(p) => {
            let x = line_from_one(alloc, cells)?;
            visit(p, Some(x), left)
        }
        End::Set(p) => {
            let x = set_of(alloc, cells)?;
            visit(p, Some(x), left)
        }
        End::Rows(p, count, width, rows) => next_row(alloc, p, count, width, rows, cells, left),
    }
}

/// The elements that are still to come.
#[inline(never)]
pub fn fill<'a>(
    alloc: Global,
    frames: &mut Pile<Frame<'a>>,
    end: Boxed<End<'a>>,
    cells: Held<Cells>,
    elements: &'a [Code],
    left: &mut u64,
) -> Result<Task<'a>, PlaceFault>
    ensures { (out : OutsideOf) → (here : HereOf) → (ws : List ℕ) → Goes out (filled_in out end.entry here cells elements.now (resume out frames.old here) left.old ws) result frames.new here left.new ws }
{
    match elements.split_first() {
        None => ended(alloc, end.into_inner(), cells.into_inner(), left),
        Some((first, rest)) => {
            frames.push(Frame::Element(end, cells, rest))?;
            Ok(Task::Enter(first))
        }
    }
}

/// An element is placed.
#[inline(never)]
pub fn gain<'a>(
    alloc: Global,
    end: Boxed<End<'a>>,
    cells: Held<Cells>,
    x: Operand,
    elements: &'a [Code],
) -> Result<Task<'a>, PlaceFault>
    ensures { (out : OutsideOf) → (frames : List FrameOf) → (here : HereOf) → (n : ℕ) → (ws : List ℕ) → Goes out (filled_in out end.entry here (r.grown cells x) elements.entry.now (resume out frames here) n ws) result frames here n ws }
{
    let mut cells = cells;
    cells.gain(alloc, x)?;
    Ok(Task::Fill(end, cells, elements))
}

fn width_of(rows: &[Row]) -> usize
    ensures { (out : OutsideOf) → (d : ℕ) → result ≡ p.width_of (rows_in out d rows.now) }
{
    match rows.split_first() {
        None => 0,
        Some((row, _)) => row.elements.len(),
    }
}

/// An array of two dimensions.
#[inline(never)]
pub fn begin_rows<'a>(
    alloc: Global,
    place: Place,
    kind: ExprType,
    rows: &'a [Row],
    left: &mut u64,
) -> Result<Task<'a>, PlaceFault>
    ensures { (out : OutsideOf) → (frames : List FrameOf) → (here : HereOf) → (ws : List ℕ) → Goes out (p.filled_rows (rows_in out here.calls rows.entry.now) here.names (r.empty (c.kind_of_type kind)) (λ more. visit_of place (Some (p.grid_from_one (length (rows_in out here.calls rows.entry.now)) (p.width_of (rows_in out here.calls rows.entry.now)) more)) (resume out frames here)) left.old ws) result frames here left.new ws }
{
    let cells = empty(alloc, kind_of_type(kind));
    next_row(alloc, place, rows.len(), width_of(rows), rows, cells, left)
}

/// The arguments that are still to come.
#[inline(never)]
pub fn gather<'a>(
    frames: &mut Pile<Frame<'a>>,
    place: Place,
    name: Reference,
    arguments: Pile<Operand>,
    elements: &'a [Code],
) -> Result<Task<'a>, PlaceFault>
    ensures { (out : OutsideOf) → (here : HereOf) → (n : ℕ) → (ws : List ℕ) → Goes out (p.gathered (parts out here.calls elements.now) here.names arguments (λ xs. calls out here.calls place name xs (resume out frames.old here)) n ws) result frames.new here n ws }
{
    match elements.split_first() {
        None => Ok(Task::Call(place, name, arguments)),
        Some((first, rest)) => {
            frames.push(Frame::Argument(place, name, arguments, rest))?;
            Ok(Task::Enter(first))
        }
    }
}

/// An argument is placed.
#[inline(never)]
pub fn argue<'a>(
    frames: &mut Pile<Frame<'a>>,
    place: Place,
    name: Reference,
    arguments: Pile<Operand>,
    x: Operand,
    elements: &'a [Code],
) -> Result<Task<'a>, PlaceFault>
    ensures { (out : OutsideOf) → (here : HereOf) → (n : ℕ) → (ws : List ℕ) → Goes out (p.gathered (parts out here.calls elements.entry.now) here.names (x ∷ arguments) (λ xs. calls out here.calls place name xs (resume out frames.old here)) n ws) result frames.new here n ws }
{
    let mut arguments = arguments;
    arguments.push(x)?;
    gather(frames, place, name, arguments, elements)
}
