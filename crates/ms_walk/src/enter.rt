//! Into an expression.

ghost use Rattle.std.specs.Prelude.{◌≡◌, ℕ, List, Some, IfOk, pos, option_map};
ghost use Rattle.ms_placing.specs.Outside.{Outside as OutsideOf};
ghost use Rattle.ms_rules.specs.Operands as r;
ghost use Rattle.ms_values.specs.declared.operand.Operand.TheVariants as v;
ghost use Rattle.ms_code.specs.declared.code.Generators.{out-Generators};
ghost use Rattle.ms_frames.specs.declared.frame.Here.{Here as HereOf};
ghost use Rattle.ms_frames.specs.Frames.{Goes, resume, run_in};

use ms_base::Bytes;
use ms_code::{Code, Generators};
use ms_frames::{
    AccessFrame, ChainFrame, End, Frame, Plan, Task, begin, begin_rows, bind, choose_arm, gather,
    generate, visit,
};
use ms_num::LIMIT;
use ms_placing::PlaceFault;
use ms_rules::{empty, kind_of_type, known_number};
use ms_syntax::Word;
use ms_values::{Cells, Elements, Operand, Pile, Shared};
use std::alloc::{AllocError, Global};

/// A number as it is written; none where it leaves the limits.
fn literal(n: u64) -> Option<Operand>
    ensures { result ≡ r.known_number (Some (pos n)) }
{
    if n <= LIMIT as u64 {
        known_number(Some(n as i64))
    } else {
        None
    }
}

fn text(alloc: Global, word: &Word) -> Result<Operand, AllocError>
    ensures { IfOk result (λ x. x ≡ v.Text (Some word.now)) }
{
    let bytes = Bytes::from_vec(Vec::from_slice(alloc, word.as_slice())?);
    Ok(Operand::Text(Some(Shared::new(alloc, bytes)?)))
}

fn condition<'a>(generators: &'a Generators) -> Option<&'a Code>
    ensures { option_map (λ p. p.now) result ≡ (out-Generators generators.now).condition }
{
    match &generators.condition {
        None => None,
        Some(condition) => Some(condition.get()),
    }
}

#[inline(always)]
pub fn enter<'a>(
    alloc: Global,
    frames: &mut Pile<Frame<'a>>,
    e: &'a Code,
    left: &mut u64,
) -> Result<Task<'a>, PlaceFault>
    ensures { (out : OutsideOf) → (here : HereOf) → (ws : List ℕ) → Goes out (run_in out here e.now (resume out frames.old here) left.old ws) result frames.new here left.new ws }
{
    match e {
        Code::Number(p, n) => visit(*p, literal(*n), left),
        Code::Truth(p, b) => visit(*p, Some(Operand::Truth(*b)), left),
        Code::Text(p, word) => {
            let x = text(alloc, word)?;
            visit(*p, Some(x), left)
        }
        Code::Name(p, name) => Ok(Task::Look(*p, *name)),
        Code::Chain(a, links) => {
            let first = a.get();
            frames.push(Frame::Chain(ChainFrame::First(links.as_slice())))?;
            Ok(Task::Enter(first))
        }
        Code::Prefix(p, sign, a) => {
            let first = a.get();
            frames.push(Frame::Prefix(*p, *sign))?;
            Ok(Task::Enter(first))
        }
        Code::Parenthesis(p, a) => {
            let first = a.get();
            frames.push(Frame::Node(*p))?;
            Ok(Task::Enter(first))
        }
        Code::Access(p, a, subscripts) => {
            let first = a.get();
            frames.push(Frame::Access(AccessFrame::Array(*p, subscripts.as_slice())))?;
            Ok(Task::Enter(first))
        }
        Code::Call(p, name, es) => gather(frames, *p, *name, Pile::new(alloc), es.as_slice()),
        Code::Gathered(p, kind, generators, a) => {
            let plan = Plan {
                place: *p,
                is_node: false,
                condition: condition(generators),
                body: a.get(),
            };
            generate(alloc, frames, plan, *kind, generators.list.as_slice())
        }
        Code::RepeatEach(p, _, _) => visit(*p, Some(Operand::Number(None)), left),
        Code::Array(p, kind, es) => {
            let cells = empty(alloc, kind_of_type(*kind));
            begin(alloc, End::Array(*p), cells, es.as_slice())
        }
        Code::Rows(p, kind, rows) => begin_rows(alloc, *p, *kind, rows.as_slice(), left),
        Code::Set(p, es) => {
            let cells = Cells::Numbers(Elements::new(alloc));
            begin(alloc, End::Set(*p), cells, es.as_slice())
        }
        Code::Comprehension(p, kind, generators, a) => {
            let plan = Plan {
                place: *p,
                is_node: true,
                condition: condition(generators),
                body: a.get(),
            };
            generate(alloc, frames, plan, *kind, generators.list.as_slice())
        }
        Code::If(p, arms, last) => {
            let other = last.get();
            frames.push(Frame::Node(*p))?;
            choose_arm(frames, arms.as_slice(), other)
        }
        Code::Let(p, values, a) => {
            let body = a.get();
            frames.push(Frame::Node(*p))?;
            bind(frames, values.as_slice(), body)
        }
        Code::Convert(kind, a) => {
            let first = a.get();
            frames.push(Frame::Convert(*kind))?;
            Ok(Task::Enter(first))
        }
    }
}
