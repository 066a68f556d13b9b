//! Atoms, and what stands round them below the operators.

ghost use Rattle.std.specs.Prelude.{◌≡◌};
ghost use Rattle.ms_syntax.specs.Tree.{ex_view, exs_view, gens_view, subscript_view};
ghost use Rattle.ms_syntax.specs.declared.tree.Subscript.{Subscript};
ghost use Rattle.ms_syntax.specs.Tree.{Ex, Maybe};
ghost use Rattle.ms_cursor.specs.Reads.{Reads};
ghost use Rattle.ms_expressions.specs.Nests.{Nests};
ghost use Rattle.ms_expressions.specs.Rules as spec;

use crate::generators::into_generators;
use crate::grammar::{Grammar, Part};
use crate::reach::Reach;
use ms_cursor::{Cursor, Stop};
use ms_syntax::{Expr, Generator, Generators, Keyword, Place, Subscript, Symbol, Word};
use std::alloc::Global;

impl<F: Fn(Global, &mut Cursor<'_>, usize, Reach) -> Result<Expr, Stop>> Part<F> for Subscript {
    ghost Seen = { Ex × Maybe };

    ghost view = { subscript_view };

    ghost ready = { λ g. Nests g.depth (F.pre g.expr) (F.post g.expr) };

    ghost rule = { λ g. spec.opened_subscript g.depth (spec.under g.depth) (tt {0}) };

    /// After the opening bracket.
    #[tactic(auto, unfolding(crate::specs::Rules::opened_subscript))]
    fn read(grammar: &Grammar<F>, tokens: &mut Cursor<'_>) -> Result<Subscript, Stop> {
        grammar.open(tokens)?;
        grammar.subscript(tokens)
    }
}

impl<F: Fn(Global, &mut Cursor<'_>, usize, Reach) -> Result<Expr, Stop>> Grammar<F> {
    /// A condition with its closing parenthesis, and a body in parentheses.
    fn condition_and_body(&self, tokens: &mut Cursor<'_>) -> Result<(Box<Expr>, Box<Expr>), Stop>
        requires { Nests self.now.depth (F.pre self.now.expr) (F.post self.now.expr) }
        ensures { Reads (λ r. (ex_view r.0.value, ex_view r.1.value))
            (spec.condition_and_body self.now.depth (spec.under self.now.depth) tokens.old)
            result tokens.new }
    {
        let condition = self.body(tokens)?;
        self.enter(tokens, Symbol::OpenParenthesis)?;
        Ok((condition, self.body(tokens)?))
    }

    /// After `where`.
    #[tactic(auto, unfolding(crate::specs::Rules::after_where))]
    fn after_where(
        &self,
        tokens: &mut Cursor<'_>,
        place: Place,
        word: Word,
        list: Vec<Generator>,
    ) -> Result<Expr, Stop>
        requires { Nests self.now.depth (F.pre self.now.expr) (F.post self.now.expr) }
        ensures { Reads ex_view
            (spec.after_where self.now.depth (spec.under self.now.depth) place word
            (gens_view list.items) tokens.old)
            result tokens.new }
    {
        let (condition, body) = self.condition_and_body(tokens)?;
        let condition = Some(condition);
        let generators = Generators { list, condition };
        Ok(Expr::GeneratorCall(place, word, generators, body))
    }

    /// In the brackets behind a list of generators.
    #[tactic(auto, unfolding(crate::specs::Rules::generator_body))]
    fn generator_body(
        &self,
        tokens: &mut Cursor<'_>,
        place: Place,
        word: Word,
        list: Vec<Generator>,
    ) -> Result<Expr, Stop>
        requires { Nests self.now.depth (F.pre self.now.expr) (F.post self.now.expr) }
        ensures { Reads ex_view
            (spec.generator_body self.now.depth (spec.under self.now.depth) place word
            (gens_view list.items) tokens.old)
            result tokens.new }
    {
        let body = self.body(tokens)?;
        let condition = None;
        let generators = Generators { list, condition };
        Ok(Expr::GeneratorCall(place, word, generators, body))
    }

    /// After the brackets of a list.
    #[tactic(auto, unfolding(crate::specs::Rules::after_list))]
    fn after_list(
        &self,
        tokens: &mut Cursor<'_>,
        place: Place,
        word: Word,
        list: Vec<Expr>,
    ) -> Result<Expr, Stop>
        requires { Nests self.now.depth (F.pre self.now.expr) (F.post self.now.expr) }
        ensures { Reads ex_view
            (spec.after_list self.now.depth (spec.under self.now.depth) place word
            (exs_view list.items) tokens.old)
            result tokens.new }
    {
        if !tokens.sees(Symbol::OpenParenthesis) {
            return Ok(Expr::Call(place, word, list));
        }
        let left = tokens.left();
        match into_generators(self.alloc, list)? {
            Some(generators) => {
                tokens.takes(Symbol::OpenParenthesis);
                self.open(tokens)?;
                self.generator_body(tokens, place, word, generators)
            }
            None => Err(Stop::Syntax(left)),
        }
    }

    /// After the opening bracket behind a name.
    #[tactic(auto, unfolding(crate::specs::Rules::arguments))]
    fn arguments(&self, tokens: &mut Cursor<'_>, place: Place, word: Word) -> Result<Expr, Stop>
        requires { Nests self.now.depth (F.pre self.now.expr) (F.post self.now.expr) }
        ensures { Reads ex_view
            (spec.arguments self.now.depth (spec.under self.now.depth) place word tokens.old)
            result tokens.new }
    {
        if tokens.takes(Symbol::CloseParenthesis) {
            return Ok(Expr::Call(place, word, Vec::new(self.alloc)));
        }
        let list = self.list(tokens)?;
        if tokens.sees(Keyword::Where) {
            let left = tokens.left();
            return match into_generators(self.alloc, list)? {
                Some(generators) => {
                    tokens.takes(Keyword::Where);
                    self.after_where(tokens, place, word, generators)
                }
                None => Err(Stop::Syntax(left)),
            };
        }
        tokens.expect(Symbol::CloseParenthesis)?;
        self.after_list(tokens, place, word, list)
    }

    /// Behind a name.
    #[tactic(auto, unfolding(crate::specs::Rules::named))]
    fn named(&self, tokens: &mut Cursor<'_>, place: Place, word: Word) -> Result<Expr, Stop>
        requires { Nests self.now.depth (F.pre self.now.expr) (F.post self.now.expr) }
        ensures { Reads ex_view
            (spec.named self.now.depth (spec.under self.now.depth) place word tokens.old)
            result tokens.new }
    {
        if !tokens.takes(Symbol::OpenParenthesis) {
            return Ok(Expr::Name(place, word));
        }
        self.open(tokens)?;
        self.arguments(tokens, place, word)
    }

    /// What stands in brackets, and `if`.
    #[tactic(auto, unfolding(crate::specs::Rules::bracketed))]
    fn bracketed(&self, tokens: &mut Cursor<'_>) -> Result<Expr, Stop>
        requires { Nests self.now.depth (F.pre self.now.expr) (F.post self.now.expr) }
        ensures { Reads ex_view (spec.bracketed self.now.depth (spec.under self.now.depth) tokens.old)
            result tokens.new }
    {
        if let Some(token) = tokens.eat(Keyword::If) {
            self.open(tokens)?;
            return self.if_rest(tokens, token.place);
        }
        if let Some(token) = tokens.eat(Symbol::OpenParenthesis) {
            self.open(tokens)?;
            return self.paren_rest(tokens, token.place);
        }
        if let Some(token) = tokens.eat(Symbol::OpenBracket) {
            self.open(tokens)?;
            return self.array_rest(tokens, token.place);
        }
        if let Some(token) = tokens.eat(Symbol::OpenRows) {
            self.open(tokens)?;
            return self.rows_rest(tokens, token.place);
        }
        let token = self.enter(tokens, Symbol::OpenBrace)?;
        self.set_rest(tokens, token.place)
    }

    /// An atom that does not begin with a name.
    #[tactic(auto, unfolding(crate::specs::Rules::closed))]
    fn closed(&self, tokens: &mut Cursor<'_>) -> Result<Expr, Stop>
        requires { Nests self.now.depth (F.pre self.now.expr) (F.post self.now.expr) }
        ensures { Reads ex_view (spec.closed self.now.depth (spec.under self.now.depth) tokens.old)
            result tokens.new }
    {
        if let Some((value, token)) = tokens.eat_number() {
            return Ok(Expr::Number(token.place, value));
        }
        if let Some((word, token)) = tokens.eat_text() {
            return Ok(Expr::Text(token.place, word.copy(self.alloc)?));
        }
        if let Some((value, token)) = tokens.eat_truth() {
            return Ok(Expr::Truth(token.place, value));
        }
        self.bracketed(tokens)
    }

    #[tactic(auto, unfolding(crate::specs::Rules::atom))]
    fn atom(&self, tokens: &mut Cursor<'_>) -> Result<Expr, Stop>
        requires { Nests self.now.depth (F.pre self.now.expr) (F.post self.now.expr) }
        ensures { Reads ex_view (spec.atom self.now.depth (spec.under self.now.depth) tokens.old)
            result tokens.new }
    {
        if let Some((word, token)) = tokens.eat_name() {
            let word = word.copy(self.alloc)?;
            return self.named(tokens, token.place, word);
        }
        self.closed(tokens)
    }

    /// An atom with its subscripts.
    #[tactic(auto, unfolding(crate::specs::Rules::accessed, crate::specs::Rules::subscripts))]
    fn accessed(&self, tokens: &mut Cursor<'_>) -> Result<Expr, Stop>
        requires { Nests self.now.depth (F.pre self.now.expr) (F.post self.now.expr) }
        ensures { Reads ex_view (spec.accessed self.now.depth (spec.under self.now.depth) tokens.old)
            result tokens.new }
    {
        let place = tokens.place();
        let atom = self.atom(tokens)?;
        let subscripts = self.many(tokens, Symbol::OpenBracket)?;
        if subscripts.is_empty() {
            return Ok(atom);
        }
        let atom = Box::new(self.alloc, atom)?;
        Ok(Expr::Access(place, atom, subscripts))
    }

    /// An access with a sign before it, or with none.
    #[tactic(auto, unfolding(crate::specs::Rules::signed))]
    pub(crate) fn signed(&self, tokens: &mut Cursor<'_>) -> Result<Expr, Stop>
        requires { Nests self.now.depth (F.pre self.now.expr) (F.post self.now.expr) }
        ensures { Reads ex_view (spec.signed self.now.depth (spec.under self.now.depth) tokens.old)
            result tokens.new }
    {
        if let Some((sign, token)) = tokens.eat_sign() {
            let operand = self.accessed(tokens)?;
            let operand = Box::new(self.alloc, operand)?;
            return Ok(Expr::Prefix(token.place, sign, operand));
        }
        self.accessed(tokens)
    }
}
