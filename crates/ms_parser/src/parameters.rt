//! Parameters of predicates and functions.

ghost use Rattle.std.specs.Prelude.{◌≡◌};
ghost use Rattle.ms_syntax.specs.Tree.{params_view};
ghost use Rattle.ms_cursor.specs.Reads.{Reads};
ghost use Rattle.ms_parser.specs.Items as rules;

use crate::outermost::nested;
use ms_base::NESTING_LIMIT;
use ms_cursor::{Cursor, Stop};
use ms_expressions::Grammar;
use ms_syntax::{Parameter, Symbol};
use std::alloc::Global;

/// Parameters, and the closing bracket.
#[tactic(auto, unfolding(crate::specs::Items::parameter_list))]
fn parameter_list(alloc: Global, tokens: &mut Cursor<'_>) -> Result<Vec<Parameter>, Stop>
    ensures { Reads (λ v. params_view v.items) (rules.parameter_list tokens.old) result tokens.new }
{
    if tokens.takes(Symbol::CloseParenthesis) {
        return Ok(Vec::new(alloc));
    }
    let depth = NESTING_LIMIT - 1;
    let grammar = Grammar {
        alloc,
        depth,
        expr: nested,
    };
    let found = grammar.separated(tokens, Symbol::Comma)?;
    tokens.expect(Symbol::CloseParenthesis)?;
    Ok(found)
}

#[tactic(auto, unfolding(crate::specs::Items::parameters))]
pub fn parameters(alloc: Global, tokens: &mut Cursor<'_>) -> Result<Vec<Parameter>, Stop>
    ensures { Reads (λ v. params_view v.items) (rules.parameters tokens.old) result tokens.new }
{
    tokens.expect(Symbol::OpenParenthesis)?;
    parameter_list(alloc, tokens)
}
