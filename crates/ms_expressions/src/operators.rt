//! Operators between operands, a level at a time.

ghost use Rattle.std.specs.Prelude.{◌≡◌, ◌≤◌, true, false, suc, map, IfOk};
ghost use Rattle.ms_syntax.specs.Tree.{ex_view, link_view, links_view};
ghost use Rattle.ms_syntax.specs.Tree as tree;
ghost use Rattle.ms_cursor.specs.Reading.{many, into as into_of};
ghost use Rattle.ms_cursor.specs.Reads.{Reads};
ghost use Rattle.ms_expressions.specs.Nests.{Nests};
ghost use Rattle.ms_cursor.specs.Level.{tighter, height, operands_of, is_single};
ghost use Rattle.ms_expressions.specs.Rules as spec;
ghost use Rattle.ms_cursor.specs.Kinds as kinds;

use crate::grammar::Grammar;
use crate::reach::Reach;
use ms_cursor::{Cursor, Level, Stop};
use ms_syntax::{Expr, Link};
use std::alloc::{AllocError, Global};

/// An operand with the operators of a level behind it, any number of them.
fn chain(alloc: Global, level: Level, first: Expr, links: Vec<Link>) -> Result<Expr, AllocError>
    requires { is_single (operands_of level) ≡ false }
    ensures { IfOk result
        (λ e. ex_view e ≡ spec.chained (operands_of level) (ex_view first)
        (links_view links.items)) }
{
    if links.is_empty() {
        return Ok(first);
    }
    let first = Box::new(alloc, first)?;
    match level {
        Level::Concatenation => Ok(Expr::Concatenation(first, links)),
        Level::Product => Ok(Expr::Product(first, links)),
        Level::Sum => Ok(Expr::Sum(first, links)),
        Level::Conjunction => Ok(Expr::Conjunction(first, links)),
        Level::Disjunction => Ok(Expr::Disjunction(first, links)),
        Level::Implication => Ok(Expr::Implication(first, links)),
        Level::Equivalence => Ok(Expr::Equivalence(first, links)),
        Level::Range | Level::Membership | Level::Comparison => unreachable!(),
    }
}

/// An operand with one operator of a level behind it.
fn pair(alloc: Global, level: Level, first: Expr, link: Link) -> Result<Expr, AllocError>
    requires { is_single (operands_of level) ≡ true }
    ensures { IfOk result
        (λ e. ex_view e ≡ tree.chain (operands_of level) (ex_view first)
        (tree.one_link (link_view link))) }
{
    let first = Box::new(alloc, first)?;
    let link = Box::new(alloc, link)?;
    Ok(match level {
        Level::Range => Expr::Range(first, link),
        Level::Membership => Expr::Membership(first, link),
        Level::Comparison => Expr::Comparison(first, link),
        _ => unreachable!(),
    })
}

impl<F: Fn(Global, &mut Cursor<'_>, usize, Reach) -> Result<Expr, Stop>> Grammar<F> {
    /// Operators of the level, each with its operand.
    #[cycle(tiers)]
    fn links(&self, tokens: &mut Cursor<'_>, level: Level) -> Result<Vec<Link>, Stop>
        requires { Nests self.now.depth (F.pre self.now.expr) (F.post self.now.expr) }
        ensures { Reads (λ v. map link_view v.items)
            (many (kinds.infix_of (operands_of level))
            (λ op y. into_of (λ e. (op, y.place, e))
            (spec.tier (tighter level)
            (spec.signed self.now.depth (spec.under self.now.depth))))
            tokens.old)
            result tokens.new }
    {
        let mut found = Vec::new(self.alloc);
        for _turn in 0..tokens.left() {
            let Some((operator, token)) = tokens.eat_infix(level) else {
                return Ok(found);
            };
            let place = token.place;
            let operand = self.tier(tokens, level.tighter())?;
            found.push(Link {
                operator,
                place,
                operand,
            })?;
        }
        Ok(found)
    }

    /// What stands behind an operand of the level: one operator of it, or any number of them.
    #[cycle(tiers)]
    #[tactic(auto, unfolding(crate::specs::Rules::behind, crate::specs::Rules::one_more, crate::specs::Rules::links))]
    fn behind(&self, tokens: &mut Cursor<'_>, level: Level, first: Expr) -> Result<Expr, Stop>
        requires { Nests self.now.depth (F.pre self.now.expr) (F.post self.now.expr) }
        ensures { Reads ex_view
            (spec.behind (tighter level)
            (spec.tier (tighter level)
            (spec.signed self.now.depth (spec.under self.now.depth)))
            (ex_view first) tokens.old)
            result tokens.new }
    {
        if !tokens.sees_infix(level) {
            return Ok(first);
        }
        if !level.is_single() {
            let links = self.links(tokens, level)?;
            return Ok(chain(self.alloc, level, first, links)?);
        }
        let Some((operator, token)) = tokens.eat_infix(level) else {
            return Ok(first);
        };
        let place = token.place;
        let operand = self.tier(tokens, level.tighter())?;
        let link = Link {
            operator,
            place,
            operand,
        };
        Ok(pair(self.alloc, level, first, link)?)
    }

    /// An expression with so many levels of operators, the tightest first.
    #[cycle(tiers)]
    fn tier(&self, tokens: &mut Cursor<'_>, levels: u8) -> Result<Expr, Stop>
        requires nests { Nests self.now.depth (F.pre self.now.expr) (F.post self.now.expr) }
        requires some { levels ≤ 10 }
        ensures { Reads ex_view
            (spec.tier levels (spec.signed self.now.depth (spec.under self.now.depth))
            tokens.old)
            result tokens.new }
    {
        let mut read = self.signed(tokens)?;
        for below in 0..levels {
            read = self.behind(tokens, Level::above(below), read)?;
        }
        Ok(read)
    }

    /// An expression whose operators bind no looser than the level.
    pub(crate) fn up_to(&self, tokens: &mut Cursor<'_>, level: Level) -> Result<Expr, Stop>
        requires { Nests self.now.depth (F.pre self.now.expr) (F.post self.now.expr) }
        ensures { Reads ex_view
            (spec.tier (height level) (spec.signed self.now.depth (spec.under self.now.depth))
            tokens.old)
            result tokens.new }
    {
        self.tier(tokens, level.tighter() + 1)
    }
}
