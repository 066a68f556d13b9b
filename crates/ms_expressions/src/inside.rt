//! What stands inside brackets.

ghost use Rattle.std.specs.Prelude.{◌≡◌, ◌<◌, ℕ, List, map, option_map, vec_len, IfOk};
ghost use Rattle.ms_syntax.specs.declared.token.Place.{Place};
ghost use Rattle.ms_syntax.specs.Tree.{Ex, Exs, Maybe, Names, ex_view, exs_view, gens_view};
ghost use Rattle.ms_syntax.specs.Tree.{rows_of, names_view, binder_view, generator_view};
ghost use Rattle.ms_syntax.specs.Tree.{generators_view, subscript_view, arm_view, row_view};
ghost use Rattle.ms_syntax.specs.Tree.{maybe_view, maybe_of};
ghost use Rattle.ms_cursor.specs.Reads.{Reads};
ghost use Rattle.ms_expressions.specs.Nests.{Nests};
ghost use Rattle.ms_expressions.specs.Rules as spec;

use crate::grammar::{Grammar, Part};
use crate::reach::Reach;
use ms_cursor::{Cursor, Stop};
use ms_syntax::{
    Arm, Binder, Binders, Expr, Generator, Generators, Keyword, Place, Row, Subscript, Symbol,
};
use std::alloc::Global;

/// A name with its place.
pub fn binder(alloc: Global, tokens: &mut Cursor<'_>) -> Result<Binder, Stop>
    ensures { Reads binder_view (spec.a_binder tokens.old) result tokens.new }
{
    let (word, token) = tokens.expect_name()?;
    let name = word.copy(alloc)?;
    Ok(Binder {
        place: token.place,
        name,
    })
}

impl<F> Part<F> for Binder {
    ghost Seen = { Place × List ℕ };

    ghost view = { binder_view };

    ghost ready = { λ g. Unit {0} };

    ghost rule = { λ g. spec.a_binder };

    fn read(grammar: &Grammar<F>, tokens: &mut Cursor<'_>) -> Result<Binder, Stop> {
        binder(grammar.alloc, tokens)
    }
}

impl<F: Fn(Global, &mut Cursor<'_>, usize, Reach) -> Result<Expr, Stop>> Part<F> for Generator {
    ghost Seen = { Names × Ex };

    ghost view = { generator_view };

    ghost ready = { λ g. Nests g.depth (F.pre g.expr) (F.post g.expr) };

    ghost rule = { λ g. spec.generator (spec.under g.depth) };

    #[tactic(auto, unfolding(crate::specs::Rules::generator))]
    fn read(grammar: &Grammar<F>, tokens: &mut Cursor<'_>) -> Result<Generator, Stop> {
        let names = grammar.names(tokens)?;
        tokens.expect(Keyword::In)?;
        let set = grammar.range(tokens)?;
        let names = Binders::from_vec(names);
        Ok(Generator { names, set })
    }
}

impl<F: Fn(Global, &mut Cursor<'_>, usize, Reach) -> Result<Expr, Stop>> Part<F> for Row {
    ghost Seen = { Exs };

    ghost view = { row_view };

    ghost ready = { λ g. Nests g.depth (F.pre g.expr) (F.post g.expr) };

    ghost rule = { λ g. spec.list (spec.under g.depth) };

    fn read(grammar: &Grammar<F>, tokens: &mut Cursor<'_>) -> Result<Row, Stop> {
        let elements = grammar.list(tokens)?;
        Ok(Row { elements })
    }
}

impl<F: Fn(Global, &mut Cursor<'_>, usize, Reach) -> Result<Expr, Stop>> Part<F> for Arm {
    ghost Seen = { Ex × Ex };

    ghost view = { arm_view };

    ghost ready = { λ g. Nests g.depth (F.pre g.expr) (F.post g.expr) };

    ghost rule = { λ g. spec.arm (spec.under g.depth) };

    #[tactic(auto, unfolding(crate::specs::Rules::arm))]
    fn read(grammar: &Grammar<F>, tokens: &mut Cursor<'_>) -> Result<Arm, Stop> {
        let condition = grammar.any(tokens)?;
        tokens.expect(Keyword::Then)?;
        let branch = grammar.any(tokens)?;
        Ok(Arm { condition, branch })
    }
}

impl<F> Grammar<F> {
    /// Names with commas between.
    pub fn names(&self, tokens: &mut Cursor<'_>) -> Result<Vec<Binder>, Stop>
        ensures reads { Reads (λ v. names_view v.items) (spec.names tokens.old) result tokens.new }
        ensures some { IfOk result (λ v. 0 < vec_len v) }
    {
        self.separated(tokens, Symbol::Comma)
    }
}

impl<F: Fn(Global, &mut Cursor<'_>, usize, Reach) -> Result<Expr, Stop>> Grammar<F> {
    /// Expressions with commas between.
    pub(crate) fn list(&self, tokens: &mut Cursor<'_>) -> Result<Vec<Expr>, Stop>
        requires { Nests self.now.depth (F.pre self.now.expr) (F.post self.now.expr) }
        ensures { Reads (λ v. exs_view v.items) (spec.list (spec.under self.now.depth) tokens.old)
            result tokens.new }
    {
        self.separated(tokens, Symbol::Comma)
    }

    /// A set, after its opening brace.
    #[tactic(auto, unfolding(crate::specs::Rules::set_rest, crate::specs::Rules::listed))]
    pub(crate) fn set_rest(&self, tokens: &mut Cursor<'_>, place: Place) -> Result<Expr, Stop>
        requires { Nests self.now.depth (F.pre self.now.expr) (F.post self.now.expr) }
        ensures { Reads ex_view (spec.set_rest (spec.under self.now.depth) place tokens.old)
            result tokens.new }
    {
        if tokens.takes(Symbol::CloseBrace) {
            return Ok(Expr::Set(place, Vec::new(self.alloc)));
        }
        let found = self.list(tokens)?;
        tokens.expect(Symbol::CloseBrace)?;
        Ok(Expr::Set(place, found))
    }

    #[tactic(auto, unfolding(crate::specs::Rules::second))]
    fn second(&self, tokens: &mut Cursor<'_>) -> Result<Option<Expr>, Stop>
        requires { Nests self.now.depth (F.pre self.now.expr) (F.post self.now.expr) }
        ensures { Reads maybe_view (spec.second (spec.under self.now.depth) tokens.old)
            result tokens.new }
    {
        if !tokens.takes(Symbol::Comma) {
            return Ok(None);
        }
        Ok(Some(self.any(tokens)?))
    }

    /// After the opening bracket.
    #[tactic(auto, unfolding(crate::specs::Rules::subscript))]
    pub(crate) fn subscript(&self, tokens: &mut Cursor<'_>) -> Result<Subscript, Stop>
        requires { Nests self.now.depth (F.pre self.now.expr) (F.post self.now.expr) }
        ensures { Reads subscript_view (spec.subscript (spec.under self.now.depth) tokens.old)
            result tokens.new }
    {
        let first = self.any(tokens)?;
        let second = self.second(tokens)?;
        tokens.expect(Symbol::CloseBracket)?;
        Ok(Subscript { first, second })
    }

    /// Generators with commas between.
    fn generators(&self, tokens: &mut Cursor<'_>) -> Result<Vec<Generator>, Stop>
        requires { Nests self.now.depth (F.pre self.now.expr) (F.post self.now.expr) }
        ensures { Reads (λ v. gens_view v.items)
            (spec.generators (spec.under self.now.depth) tokens.old) result tokens.new }
    {
        self.separated(tokens, Symbol::Comma)
    }

    #[tactic(auto, unfolding(crate::specs::Rules::condition))]
    fn condition(&self, tokens: &mut Cursor<'_>) -> Result<Option<Box<Expr>>, Stop>
        requires { Nests self.now.depth (F.pre self.now.expr) (F.post self.now.expr) }
        ensures { Reads (λ o. maybe_of (option_map (λ b. ex_view b.value) o))
            (spec.condition (spec.under self.now.depth) tokens.old) result tokens.new }
    {
        if !tokens.takes(Keyword::Where) {
            return Ok(None);
        }
        Ok(Some(self.boxed(tokens)?))
    }

    /// Generators, a condition, and the closing bracket.
    #[tactic(auto, unfolding(crate::specs::Rules::generated))]
    fn generated(&self, tokens: &mut Cursor<'_>) -> Result<Generators, Stop>
        requires { Nests self.now.depth (F.pre self.now.expr) (F.post self.now.expr) }
        ensures { Reads generators_view (spec.generated (spec.under self.now.depth) tokens.old)
            result tokens.new }
    {
        let list = self.generators(tokens)?;
        let condition = self.condition(tokens)?;
        tokens.expect(Symbol::CloseBracket)?;
        Ok(Generators { list, condition })
    }

    /// An array or a comprehension, after its opening bracket.
    #[tactic(auto, unfolding(crate::specs::Rules::array_rest))]
    pub(crate) fn array_rest(&self, tokens: &mut Cursor<'_>, place: Place) -> Result<Expr, Stop>
        requires { Nests self.now.depth (F.pre self.now.expr) (F.post self.now.expr) }
        ensures { Reads ex_view (spec.array_rest (spec.under self.now.depth) place tokens.old)
            result tokens.new }
    {
        if tokens.takes(Symbol::CloseBracket) {
            return Ok(Expr::Array(place, Vec::new(self.alloc)));
        }
        let first = self.any(tokens)?;
        if tokens.takes(Symbol::Bar) {
            let element = Box::new(self.alloc, first)?;
            let generators = self.generated(tokens)?;
            return Ok(Expr::Comprehension(place, element, generators));
        }
        let mut found = Vec::new(self.alloc);
        found.push(first)?;
        let found = self.more(tokens, Symbol::Comma, found)?;
        tokens.expect(Symbol::CloseBracket)?;
        Ok(Expr::Array(place, found))
    }

    /// Rows with bars between.
    fn rows(&self, tokens: &mut Cursor<'_>) -> Result<Vec<Row>, Stop>
        requires { Nests self.now.depth (F.pre self.now.expr) (F.post self.now.expr) }
        ensures { Reads (λ v. rows_of (map row_view v.items))
            (spec.row_list (spec.under self.now.depth) tokens.old) result tokens.new }
    {
        self.separated(tokens, Symbol::Bar)
    }

    /// An array of rows, after its opening bracket.
    #[tactic(auto, unfolding(crate::specs::Rules::rows_rest))]
    pub(crate) fn rows_rest(&self, tokens: &mut Cursor<'_>, place: Place) -> Result<Expr, Stop>
        requires { Nests self.now.depth (F.pre self.now.expr) (F.post self.now.expr) }
        ensures { Reads ex_view (spec.rows_rest (spec.under self.now.depth) place tokens.old)
            result tokens.new }
    {
        if tokens.takes(Symbol::CloseRows) {
            return Ok(Expr::Rows(place, Vec::new(self.alloc)));
        }
        let found = self.rows(tokens)?;
        tokens.expect(Symbol::CloseRows)?;
        Ok(Expr::Rows(place, found))
    }

    /// An expression, and the closing parenthesis behind it.
    pub(crate) fn body(&self, tokens: &mut Cursor<'_>) -> Result<Box<Expr>, Stop>
        requires { Nests self.now.depth (F.pre self.now.expr) (F.post self.now.expr) }
        ensures { Reads (λ b. ex_view b.value) (spec.body (spec.under self.now.depth) tokens.old)
            result tokens.new }
    {
        let body = self.boxed(tokens)?;
        tokens.expect(Symbol::CloseParenthesis)?;
        Ok(body)
    }

    /// An expression in parentheses, after the first of them.
    #[tactic(auto, unfolding(crate::specs::Rules::paren_rest))]
    pub(crate) fn paren_rest(&self, tokens: &mut Cursor<'_>, place: Place) -> Result<Expr, Stop>
        requires { Nests self.now.depth (F.pre self.now.expr) (F.post self.now.expr) }
        ensures { Reads ex_view (spec.paren_rest (spec.under self.now.depth) place tokens.old)
            result tokens.new }
    {
        Ok(Expr::Parenthesis(place, self.body(tokens)?))
    }

    /// A conditional, after `if`.
    #[tactic(auto, unfolding(crate::specs::Rules::if_rest, crate::specs::Rules::arm, crate::specs::Rules::arms))]
    pub(crate) fn if_rest(&self, tokens: &mut Cursor<'_>, place: Place) -> Result<Expr, Stop>
        requires { Nests self.now.depth (F.pre self.now.expr) (F.post self.now.expr) }
        ensures { Reads ex_view (spec.if_rest (spec.under self.now.depth) place tokens.old)
            result tokens.new }
    {
        let condition = self.boxed(tokens)?;
        tokens.expect(Keyword::Then)?;
        let branch = self.boxed(tokens)?;
        let arms = self.many(tokens, Keyword::Elseif)?;
        tokens.expect(Keyword::Else)?;
        let last = self.boxed(tokens)?;
        tokens.expect(Keyword::Endif)?;
        Ok(Expr::If(place, condition, branch, arms, last))
    }
}
