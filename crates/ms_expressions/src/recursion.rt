//! An expression where so many brackets may open, and the one recursion, by their number.

ghost use Rattle.std.specs.Prelude.{◌≡◌, ◌<◌, ◌-◌, ◌^◌, suc, pred, map};
ghost use Rattle.ms_syntax.specs.Tree.{ex_view, declaration_view};
ghost use Rattle.ms_cursor.specs.Reads.{Reads};
ghost use Rattle.ms_expressions.specs.Nests.{Nests};
ghost use Rattle.ms_expressions.specs.Rules as spec;
ghost use Rattle.ms_expressions.specs.declared.reach.Reach.TheVariants as reach;

use crate::grammar::Grammar;
use crate::reach::Reach;
use ms_cursor::{Cursor, Level, Stop};
use ms_syntax::{Declaration, Expr, Keyword, Place, Symbol};
use std::alloc::Global;

impl<F: Fn(Global, &mut Cursor<'_>, usize, Reach) -> Result<Expr, Stop> + Copy> Grammar<F> {
    /// The grammar inside a bracket.
    fn inside(&self) -> Grammar<F>
        requires { 0 < self.now.depth }
        ensures depth { suc result.depth ≡ self.now.depth }
        ensures expr { result.expr ≡ self.now.expr }
        ensures small { result.depth < 2 ^ 64 - 1 }
    {
        Grammar {
            alloc: self.alloc,
            depth: self.depth - 1,
            expr: self.expr,
        }
    }

    /// The declarations in a bracket that has opened.
    fn locals_inside(&self, tokens: &mut Cursor<'_>) -> Result<(Vec<Declaration>, bool), Stop>
        requires nests { Nests self.now.depth (F.pre self.now.expr) (F.post self.now.expr) }
        requires opened { 0 < self.now.depth }
        ensures { Reads (λ r. (map declaration_view r.0.items, r.1))
            (spec.locals (pred self.now.depth) (spec.under self.now.depth)
            (spec.inmost self.now.depth) tokens.old)
            result tokens.new }
    {
        self.inside().locals(tokens)
    }

    /// After `let`.
    #[tactic(auto, unfolding(crate::specs::Rules::local))]
    fn local(&self, tokens: &mut Cursor<'_>, place: Place) -> Result<Expr, Stop>
        requires { Nests self.now.depth (F.pre self.now.expr) (F.post self.now.expr) }
        ensures { Reads ex_view
            (spec.local self.now.depth (spec.under self.now.depth)
            (spec.inmost self.now.depth) place tokens.old)
            result tokens.new }
    {
        self.enter(tokens, Symbol::OpenBrace)?;
        let (locals, closed) = self.locals_inside(tokens)?;
        tokens.expect(Keyword::In)?;
        let body = self.up_to(tokens, Level::Equivalence)?;
        let body = Box::new(self.alloc, body)?;
        Ok(Expr::Let(place, locals, closed, body))
    }

    /// An expression of so loose a level.
    #[tactic(auto, unfolding(crate::specs::Rules::reads))]
    fn reads(&self, tokens: &mut Cursor<'_>, reach: Reach) -> Result<Expr, Stop>
        requires { Nests self.now.depth (F.pre self.now.expr) (F.post self.now.expr) }
        ensures { Reads ex_view
            (spec.reads self.now.depth (spec.under self.now.depth)
            (spec.inmost self.now.depth) reach tokens.old)
            result tokens.new }
    {
        match reach {
            Reach::Any => {
                if let Some(token) = tokens.eat(Keyword::Let) {
                    return self.local(tokens, token.place);
                }
                self.up_to(tokens, Level::Equivalence)
            }
            Reach::Range => self.up_to(tokens, Level::Range),
        }
    }
}

/// An expression in which brackets nest no deeper than one less than `depth`.
#[cycle(expr)]
pub fn expr(
    alloc: Global,
    tokens: &mut Cursor<'_>,
    depth: usize,
    reach: Reach,
) -> Result<Expr, Stop>
    ensures { Reads ex_view (spec.under depth reach tokens.old) result tokens.new }
{
    if depth == 0 {
        return Err(Stop::Syntax(tokens.left()));
    }
    Grammar {
        alloc,
        depth: depth - 1,
        expr,
    }
    .reads(tokens, reach)
}
