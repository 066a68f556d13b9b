//! The rules that hold expressions take the reader of those as a parameter, so that each is proved
//! by itself.

ghost use Rattle.std.specs.Prelude.{◌≡◌, ◌<◌, map, vec_len, IfOk};
ghost use Rattle.ms_syntax.specs.Tree.{Ex, ex_view};
ghost use Rattle.ms_cursor.specs.Reading.{Parser, deeper, enter, many, grown, separated};
ghost use Rattle.ms_cursor.specs.Reads.{Reads};
ghost use Rattle.ms_expressions.specs.Nests.{Nests};
ghost use Rattle.ms_expressions.specs.Rules as spec;
ghost use Rattle.ms_cursor.specs.Kinds as kinds;
ghost use Rattle.ms_expressions.specs.declared.grammar.Grammar.{Grammar};
ghost use Rattle.ms_expressions.specs.declared.reach.Reach.TheVariants as reach;

use crate::reach::Reach;
use ms_cursor::{Cursor, Mark, Stop};
use ms_syntax::{Expr, Spanned, Symbol};
use std::alloc::Global;

/// What reads expressions where so many more brackets may open.
#[derive(Clone, Copy)]
pub struct Grammar<F> {
    /// Where trees are kept.
    pub alloc: Global,
    /// How many more brackets may open.
    pub depth: usize,
    /// Reads an expression inside one bracket more.
    pub expr: F,
}

/// What a grammar reads as one value of a list.
pub trait Part<F> {
    /// What stands for a value.
    ghost Seen: { Type 0 };
    /// What stands for this one.
    ghost view: { Self → Seen };
    /// Whether such a grammar may read one.
    ghost ready: { Grammar F → Type 0 };
    /// What it reads.
    ghost rule: { Grammar F → Parser Seen };

    /// Reads one. After a fault the cursor is not used again.
    fn read(grammar: &Grammar<F>, tokens: &mut Cursor<'_>) -> Result<Self, Stop>
        requires { ready grammar.now }
        ensures { Reads view (rule grammar.now tokens.old) result tokens.new };
}

impl<F: Fn(Global, &mut Cursor<'_>, usize, Reach) -> Result<Expr, Stop>> Part<F> for Expr {
    ghost Seen = { Ex };

    ghost view = { ex_view };

    ghost ready = { λ g. Nests g.depth (F.pre g.expr) (F.post g.expr) };

    ghost rule = { λ g. spec.under g.depth reach.Any };

    fn read(grammar: &Grammar<F>, tokens: &mut Cursor<'_>) -> Result<Expr, Stop> {
        grammar.any(tokens)
    }
}

impl<F> Grammar<F> {
    /// A bracket has opened.
    pub(crate) fn open(&self, tokens: &Cursor<'_>) -> Result<(), Stop>
        ensures { Reads (λ x. tt {0}) (deeper self.now.depth (tt {0}) tokens.now) result tokens.now }
    {
        if self.depth == 0 {
            return Err(Stop::Deep(tokens.left()));
        }
        Ok(())
    }

    /// Takes the next token, which has to be this opening bracket.
    pub(crate) fn enter<'a>(
        &self,
        tokens: &mut Cursor<'a>,
        symbol: Symbol,
    ) -> Result<&'a Spanned, Stop>
        ensures { Reads (λ y. (tt, y.now)) (enter self.now.depth (kinds.symbol symbol) tokens.old)
            result tokens.new }
    {
        let token = tokens.expect(symbol)?;
        self.open(tokens)?;
        Ok(token)
    }

    /// More values, each behind a mark.
    pub(crate) fn more<T: Part<F> + Drop, M: Mark>(
        &self,
        tokens: &mut Cursor<'_>,
        mark: M,
        mut found: Vec<T>,
    ) -> Result<Vec<T>, Stop>
        requires { T.ready self.now }
        ensures { Reads (λ v. map T.view v.items)
            (grown (map T.view found.items)
            (many (M.matches mark) (λ a y. T.rule self.now) tokens.old))
            result tokens.new }
    {
        for _turn in 0..tokens.left() {
            if !tokens.takes(mark) {
                return Ok(found);
            }
            found.push(T::read(self, tokens)?)?;
        }
        Ok(found)
    }

    /// Any number of values, each behind a mark.
    pub fn many<T: Part<F> + Drop, M: Mark>(
        &self,
        tokens: &mut Cursor<'_>,
        mark: M,
    ) -> Result<Vec<T>, Stop>
        requires { T.ready self.now }
        ensures { Reads (λ v. map T.view v.items)
            (many (M.matches mark) (λ a y. T.rule self.now) tokens.old) result tokens.new }
    {
        self.more(tokens, mark, Vec::new(self.alloc))
    }

    /// One value or more, with the mark between.
    pub fn separated<T: Part<F> + Drop, M: Mark>(
        &self,
        tokens: &mut Cursor<'_>,
        mark: M,
    ) -> Result<Vec<T>, Stop>
        requires { T.ready self.now }
        ensures reads { Reads (λ v. map T.view v.items)
            (separated (M.matches mark) (T.rule self.now) tokens.old) result tokens.new }
        ensures some { IfOk result (λ v. 0 < vec_len v) }
    {
        let mut found = Vec::new(self.alloc);
        found.push(T::read(self, tokens)?)?;
        self.more(tokens, mark, found)
    }
}

impl<F: Fn(Global, &mut Cursor<'_>, usize, Reach) -> Result<Expr, Stop>> Grammar<F> {
    /// An expression inside a bracket.
    pub(crate) fn any(&self, tokens: &mut Cursor<'_>) -> Result<Expr, Stop>
        requires { Nests self.now.depth (F.pre self.now.expr) (F.post self.now.expr) }
        ensures { Reads ex_view (spec.under self.now.depth reach.Any tokens.old) result tokens.new }
    {
        (self.expr)(self.alloc, tokens, self.depth, Reach::Any)
    }

    /// The same, on the heap.
    pub(crate) fn boxed(&self, tokens: &mut Cursor<'_>) -> Result<Box<Expr>, Stop>
        requires { Nests self.now.depth (F.pre self.now.expr) (F.post self.now.expr) }
        ensures { Reads (λ b. ex_view b.value) (spec.under self.now.depth reach.Any tokens.old)
            result tokens.new }
    {
        Ok(Box::new(self.alloc, self.any(tokens)?)?)
    }

    /// One of the level of `..` inside a bracket.
    pub(crate) fn range(&self, tokens: &mut Cursor<'_>) -> Result<Expr, Stop>
        requires { Nests self.now.depth (F.pre self.now.expr) (F.post self.now.expr) }
        ensures { Reads ex_view (spec.under self.now.depth reach.Range tokens.old) result tokens.new }
    {
        (self.expr)(self.alloc, tokens, self.depth, Reach::Range)
    }
}
