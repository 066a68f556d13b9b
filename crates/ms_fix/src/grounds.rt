//! Values of expressions.

ghost use Rattle.std.specs.Prelude.{◌≡◌, List, ℤ, Some, IsTrue, option_map};
ghost use Rattle.std.specs.List.{list_all};
ghost use Rattle.ms_num.specs.Span.{is_within};
ghost use Rattle.ms_syntax.specs.Tree.{ex_view};
ghost use Rattle.ms_placing.specs.Placing.{placed_from};
ghost use Rattle.ms_types.specs.Texts.{names_among};
ghost use Rattle.ms_instance.specs.Views.{spans_of, text_of};
ghost use Rattle.ms_env.specs.Entries.{are_entries, entries_of};
ghost use Rattle.ms_env.specs.Envs.{IsTypedIn};
ghost use Rattle.ms_walk.specs.Around.{outside_of};
ghost use Rattle.ms_fix.specs.Answers.{Grounds};
ghost use Rattle.ms_fix.specs.Around.{around_of, grounded};

use crate::fault::GroundFault;
use crate::names::Names;
use ms_code::Code;
use ms_draws::Words;
use ms_env::{Env, elaborated};
use ms_exchange::given;
use ms_instance::{Instance, narrow_numbers};
use ms_syntax::Expr;
use ms_values::{Narrow, Operand, Pile, Value};
use ms_walk::{Surroundings, placed};
use std::alloc::Global;

/// The value of a typed tree, among these operands and with what stands around it.
pub fn ground_code<O: Surroundings, W: Words>(
    alloc: Global,
    outside: &O,
    names: Pile<Operand>,
    e: &Code,
    words: &mut W,
) -> Result<Value, GroundFault>
    ensures { Grounds (placed_from (outside_of (O.around outside.now) W.word_of W.after) names e.now (W.state words.old)) result (W.state words.new) }
{
    let (_, x) = placed(alloc, outside, words, names, e)?;
    match given(alloc, x)? {
        Some(value) => Ok(value),
        None => Err(GroundFault::Undefined),
    }
}

fn ground_with<W: Words>(
    alloc: Global,
    instance: &Instance,
    e: &Expr,
    env: &Env,
    point: Option<&[Narrow]>,
    words: &mut W,
) -> Result<Value, GroundFault>
    requires typed { IsTypedIn (names_among (text_of instance.now)) (entries_of env.now) (ex_view e.now) }
    requires values { IsTrue (are_entries (spans_of instance.now) (entries_of env.now)) }
    ensures { Grounds (grounded instance.now (entries_of env.now) (option_map (λ p. p.now) point.entry) W.word_of W.after (ex_view e.now) (W.state words.old)) result (W.state words.new) }
{
    let typed = elaborated(alloc, instance.typed(), e, env)?;
    let operands = env.operands(alloc, instance.sets())?;
    let names = Names { instance, point };
    ground_code(alloc, &names, operands, typed.code.get(), words)
}

/// The value of an expression of a search, among the names of an env.
pub fn ground<W: Words>(
    alloc: Global,
    instance: &Instance,
    e: &Expr,
    env: &Env,
    incumbent: Option<&[i64]>,
    words: &mut W,
) -> Result<Value, GroundFault>
    requires typed { IsTypedIn (names_among (text_of instance.now)) (entries_of env.now) (ex_view e.now) }
    requires values { IsTrue (are_entries (spans_of instance.now) (entries_of env.now)) }
    requires incumbent { (p : List ℤ) → option_map (λ p. p.now) incumbent ≡ Some p → IsTrue (list_all is_within p) }
    ensures { Grounds (grounded instance.now (entries_of env.now) (option_map (λ p. p.now) incumbent.entry) W.word_of W.after (ex_view e.now) (W.state words.old)) result (W.state words.new) }
{
    match incumbent {
        None => ground_with(alloc, instance, e, env, None, words),
        Some(numbers) => {
            let point = narrow_numbers(alloc, numbers)?;
            ground_with(alloc, instance, e, env, Some(point.as_slice()), words)
        }
    }
}
