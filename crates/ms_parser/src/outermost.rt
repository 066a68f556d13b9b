//! What items are made of, where no bracket is open.

ghost use Rattle.std.specs.Prelude.{◌≡◌};
ghost use Rattle.ms_syntax.specs.Tree.{ex_view, kind_view, names_view, notes_view};
ghost use Rattle.ms_syntax.specs.Tree.{declaration_view};
ghost use Rattle.ms_cursor.specs.Reads.{Reads};
ghost use Rattle.ms_expressions.specs.Rules.{under};
ghost use Rattle.ms_expressions.specs.Rules as spec;
ghost use Rattle.ms_parser.specs.Items as rules;

use ms_base::NESTING_LIMIT;
use ms_cursor::{Cursor, Stop};
use ms_expressions::{Grammar, Reach, expr};
use ms_syntax::{Binder, Declaration, Expr, Kind, Note, Place};
use std::alloc::Global;

/// An expression.
pub fn any(alloc: Global, tokens: &mut Cursor<'_>) -> Result<Expr, Stop>
    ensures { Reads ex_view (rules.any tokens.old) result tokens.new }
{
    expr(alloc, tokens, NESTING_LIMIT + 1, Reach::Any)
}

/// An expression of the level of `..`.
pub fn range(alloc: Global, tokens: &mut Cursor<'_>) -> Result<Expr, Stop>
    ensures { Reads ex_view (rules.range tokens.old) result tokens.new }
{
    expr(alloc, tokens, NESTING_LIMIT + 1, Reach::Range)
}

/// `expr` as a function value, which a function of another crate cannot be.
pub fn nested(
    alloc: Global,
    tokens: &mut Cursor<'_>,
    depth: usize,
    reach: Reach,
) -> Result<Expr, Stop>
    ensures { Reads ex_view (under depth reach tokens.old) result tokens.new }
{
    expr(alloc, tokens, depth, reach)
}

/// A kind and its colon.
pub fn kind(alloc: Global, tokens: &mut Cursor<'_>) -> Result<Kind, Stop>
    ensures { Reads kind_view (rules.kind tokens.old) result tokens.new }
{
    let depth = NESTING_LIMIT;
    Grammar {
        alloc,
        depth,
        expr: nested,
    }
    .kind(tokens)
}

/// Names with commas between.
pub fn names(alloc: Global, tokens: &mut Cursor<'_>) -> Result<Vec<Binder>, Stop>
    ensures { Reads (λ v. names_view v.items) (spec.names tokens.old) result tokens.new }
{
    let depth = NESTING_LIMIT;
    Grammar {
        alloc,
        depth,
        expr: nested,
    }
    .names(tokens)
}

/// Notes.
#[tactic(auto, unfolding(ms_expressions::specs::Rules::notes))]
pub fn notes(alloc: Global, tokens: &mut Cursor<'_>) -> Result<Vec<Note>, Stop>
    ensures { Reads (λ v. notes_view v.items) (rules.notes tokens.old) result tokens.new }
{
    let depth = NESTING_LIMIT;
    Ok(Grammar {
        alloc,
        depth,
        expr: nested,
    }
    .notes(tokens)?)
}

/// The rest of a declaration, behind its kind and the colon.
pub fn declared(
    alloc: Global,
    tokens: &mut Cursor<'_>,
    place: Place,
    kind: Kind,
) -> Result<Declaration, Stop>
    ensures { Reads declaration_view (rules.declared_as place (kind_view kind) tokens.old) result
        tokens.new }
{
    let depth = NESTING_LIMIT;
    Grammar {
        alloc,
        depth,
        expr: nested,
    }
    .declared(tokens, place, kind)
}

/// A declaration.
pub fn declaration(alloc: Global, tokens: &mut Cursor<'_>) -> Result<Declaration, Stop>
    ensures { Reads declaration_view (rules.declaration tokens.old) result tokens.new }
{
    let depth = NESTING_LIMIT;
    Grammar {
        alloc,
        depth,
        expr: nested,
    }
    .declaration(tokens)
}
