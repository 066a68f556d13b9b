//! Declarations, where brackets may open: what stands here is read with one bracket more than what
//! stands inside.

ghost use Rattle.std.specs.Prelude.{◌≡◌, ◌<◌, ◌-◌, ◌^◌, ℕ, List, suc, map, length};
ghost use Rattle.ms_syntax.specs.declared.token.Place.{Place};
ghost use Rattle.ms_syntax.specs.Tree as tree;
ghost use Rattle.ms_syntax.specs.Tree.{Kd, parameter_view, ex_view, exs_view, index_view};
ghost use Rattle.ms_syntax.specs.Tree.{indices_view, base_view, kind_view, note_view, notes_view};
ghost use Rattle.ms_syntax.specs.Tree.{maybe_view, declaration_view};
ghost use Rattle.ms_cursor.specs.Reading.{many, into as into_of};
ghost use Rattle.ms_cursor.specs.Reads.{Reads};
ghost use Rattle.ms_expressions.specs.Nests.{Nests, turn_view};
ghost use Rattle.ms_expressions.specs.Rules as spec;
ghost use Rattle.ms_cursor.specs.Kinds as kinds;
ghost use Rattle.ms_expressions.specs.declared.reach.Reach.TheVariants as reach;
ghost use Rattle.ms_syntax.specs.declared.token.Symbol.TheVariants as s;

use crate::grammar::{Grammar, Part};
use crate::reach::Reach;
use crate::turn::Turn;
use ms_cursor::{Cursor, Stop};
use ms_syntax::{
    Base, Declaration, Expr, Index, Keyword, Kind, Mode, Note, Parameter, Place, Symbol, Word,
};
use std::alloc::Global;

/// A name, as its word.
pub fn word(alloc: Global, tokens: &mut Cursor<'_>) -> Result<Word, Stop>
    ensures { Reads (λ w. w) (spec.a_word tokens.old) result tokens.new }
{
    let (word, _) = tokens.expect_name()?;
    Ok(word.copy(alloc)?)
}

impl<F: Fn(Global, &mut Cursor<'_>, usize, Reach) -> Result<Expr, Stop>> Part<F> for Parameter {
    ghost Seen = { Place × Kd × List ℕ };

    ghost view = { parameter_view };

    ghost ready = { λ g. Nests (suc g.depth) (F.pre g.expr) (F.post g.expr)
        × Nests g.depth (F.pre g.expr) (F.post g.expr) × (g.depth < 2 ^ 64 - 1) };

    ghost rule = { λ g. spec.parameter g.depth (spec.under (suc g.depth)) (spec.under g.depth) };

    #[tactic(auto, unfolding(crate::specs::Rules::parameter))]
    fn read(grammar: &Grammar<F>, tokens: &mut Cursor<'_>) -> Result<Parameter, Stop> {
        let place = tokens.place();
        let kind = grammar.kind(tokens)?;
        let name = word(grammar.alloc, tokens)?;
        Ok(Parameter { place, kind, name })
    }
}

impl<F: Fn(Global, &mut Cursor<'_>, usize, Reach) -> Result<Expr, Stop>> Grammar<F> {
    /// An expression here.
    fn any_here(&self, tokens: &mut Cursor<'_>) -> Result<Expr, Stop>
        requires nests { Nests (suc self.now.depth) (F.pre self.now.expr) (F.post self.now.expr) }
        requires small { self.now.depth < 2 ^ 64 - 1 }
        ensures { Reads ex_view (spec.under (suc self.now.depth) reach.Any tokens.old) result tokens.new }
    {
        (self.expr)(self.alloc, tokens, self.depth + 1, Reach::Any)
    }

    /// One of the level of `..` here.
    fn range_here(&self, tokens: &mut Cursor<'_>) -> Result<Expr, Stop>
        requires nests { Nests (suc self.now.depth) (F.pre self.now.expr) (F.post self.now.expr) }
        requires small { self.now.depth < 2 ^ 64 - 1 }
        ensures { Reads ex_view (spec.under (suc self.now.depth) reach.Range tokens.old)
            result tokens.new }
    {
        (self.expr)(self.alloc, tokens, self.depth + 1, Reach::Range)
    }

    /// An index set inside its brackets.
    #[tactic(auto, unfolding(crate::specs::Rules::index_set))]
    fn index_set(&self, tokens: &mut Cursor<'_>) -> Result<Index, Stop>
        requires { Nests self.now.depth (F.pre self.now.expr) (F.post self.now.expr) }
        ensures { Reads index_view (spec.index_set (spec.under self.now.depth) tokens.old)
            result tokens.new }
    {
        if tokens.takes(Keyword::Int) {
            return Ok(Index::AnyInt);
        }
        Ok(Index::Over(self.range(tokens)?))
    }

    /// One or two index sets, and the closing bracket.
    #[tactic(auto, unfolding(crate::specs::Rules::index_sets))]
    fn index_sets(&self, tokens: &mut Cursor<'_>) -> Result<Vec<Index>, Stop>
        requires { Nests self.now.depth (F.pre self.now.expr) (F.post self.now.expr) }
        ensures { Reads (λ v. indices_view v.items)
            (spec.index_sets (spec.under self.now.depth) tokens.old) result tokens.new }
    {
        let mut found = Vec::new(self.alloc);
        found.push(self.index_set(tokens)?)?;
        if tokens.takes(Symbol::Comma) {
            found.push(self.index_set(tokens)?)?;
            tokens.expect(Symbol::CloseBracket)?;
            return Ok(found);
        }
        tokens.expect(Symbol::CloseBracket)?;
        Ok(found)
    }

    /// After `set`.
    #[tactic(auto, unfolding(crate::specs::Rules::set_base))]
    fn set_base(&self, tokens: &mut Cursor<'_>) -> Result<Base, Stop>
        requires nests { Nests (suc self.now.depth) (F.pre self.now.expr) (F.post self.now.expr) }
        requires small { self.now.depth < 2 ^ 64 - 1 }
        ensures { Reads base_view (spec.set_base (spec.under (suc self.now.depth)) tokens.old)
            result tokens.new }
    {
        tokens.expect(Keyword::Of)?;
        if tokens.takes(Keyword::Int) {
            return Ok(Base::SetOfInt);
        }
        Ok(Base::SetOf(self.range_here(tokens)?))
    }

    #[tactic(auto, unfolding(crate::specs::Rules::base))]
    fn base(&self, tokens: &mut Cursor<'_>) -> Result<Base, Stop>
        requires nests { Nests (suc self.now.depth) (F.pre self.now.expr) (F.post self.now.expr) }
        requires small { self.now.depth < 2 ^ 64 - 1 }
        ensures { Reads base_view (spec.base (spec.under (suc self.now.depth)) tokens.old)
            result tokens.new }
    {
        if tokens.takes(Keyword::Bool) {
            return Ok(Base::Bool);
        }
        if tokens.takes(Keyword::Int) {
            return Ok(Base::Int);
        }
        if tokens.takes(Keyword::String) {
            return Ok(Base::String);
        }
        if tokens.takes(Keyword::Ann) {
            return Ok(Base::Ann);
        }
        if tokens.takes(Keyword::Set) {
            return self.set_base(tokens);
        }
        Ok(Base::Within(self.range_here(tokens)?))
    }

    /// A base with its mark, and the colon behind it.
    #[tactic(auto, unfolding(crate::specs::Rules::marked))]
    fn marked(&self, tokens: &mut Cursor<'_>) -> Result<(Mode, Base), Stop>
        requires nests { Nests (suc self.now.depth) (F.pre self.now.expr) (F.post self.now.expr) }
        requires small { self.now.depth < 2 ^ 64 - 1 }
        ensures { Reads (λ r. (r.0, base_view r.1))
            (spec.marked (spec.under (suc self.now.depth)) tokens.old) result tokens.new }
    {
        if tokens.takes(Keyword::Var) {
            let base = self.base(tokens)?;
            tokens.expect(Symbol::Colon)?;
            return Ok((Mode::Var, base));
        }
        if tokens.takes(Keyword::Par) {
            let base = self.base(tokens)?;
            tokens.expect(Symbol::Colon)?;
            return Ok((Mode::Par, base));
        }
        let base = self.base(tokens)?;
        tokens.expect(Symbol::Colon)?;
        Ok((Mode::Unmarked, base))
    }

    /// A kind and the colon behind it.
    #[tactic(auto, unfolding(crate::specs::Rules::kind))]
    pub fn kind(&self, tokens: &mut Cursor<'_>) -> Result<Kind, Stop>
        requires nests { Nests (suc self.now.depth) (F.pre self.now.expr) (F.post self.now.expr) }
        requires inside { Nests self.now.depth (F.pre self.now.expr) (F.post self.now.expr) }
        requires small { self.now.depth < 2 ^ 64 - 1 }
        ensures { Reads kind_view
            (spec.kind self.now.depth (spec.under (suc self.now.depth))
            (spec.under self.now.depth) tokens.old)
            result tokens.new }
    {
        if tokens.takes(Keyword::Array) {
            self.enter(tokens, Symbol::OpenBracket)?;
            let indices = self.index_sets(tokens)?;
            tokens.expect(Keyword::Of)?;
            let (mode, base) = self.marked(tokens)?;
            return Ok(Kind {
                indices,
                mode,
                base,
            });
        }
        let (mode, base) = self.marked(tokens)?;
        let indices = Vec::new(self.alloc);
        Ok(Kind {
            indices,
            mode,
            base,
        })
    }

    /// What stands in brackets behind the name of a note.
    #[tactic(auto, unfolding(crate::specs::Rules::note_arguments))]
    fn note_arguments(&self, tokens: &mut Cursor<'_>) -> Result<Vec<Expr>, Stop>
        requires { Nests self.now.depth (F.pre self.now.expr) (F.post self.now.expr) }
        ensures { Reads (λ v. exs_view v.items)
            (spec.note_arguments self.now.depth (spec.under (suc self.now.depth))
            (spec.under self.now.depth) tokens.old)
            result tokens.new }
    {
        if !tokens.takes(Symbol::OpenParenthesis) {
            return Ok(Vec::new(self.alloc));
        }
        self.open(tokens)?;
        let found = self.list(tokens)?;
        tokens.expect(Symbol::CloseParenthesis)?;
        Ok(found)
    }

    #[tactic(auto, unfolding(crate::specs::Rules::note_rest))]
    fn note(&self, tokens: &mut Cursor<'_>, place: Place) -> Result<Note, Stop>
        requires { Nests self.now.depth (F.pre self.now.expr) (F.post self.now.expr) }
        ensures { Reads note_view
            (spec.note_rest self.now.depth (spec.under (suc self.now.depth))
            (spec.under self.now.depth) place tokens.old)
            result tokens.new }
    {
        let name = word(self.alloc, tokens)?;
        let arguments = self.note_arguments(tokens)?;
        Ok(Note {
            place,
            name,
            arguments,
        })
    }

    /// Notes on a part.
    pub fn notes(&self, tokens: &mut Cursor<'_>) -> Result<Vec<Note>, Stop>
        requires { Nests self.now.depth (F.pre self.now.expr) (F.post self.now.expr) }
        ensures { Reads (λ v. map note_view v.items)
            (many (kinds.symbol s.ColonColon)
            (λ a y. spec.note_rest self.now.depth (spec.under (suc self.now.depth))
            (spec.under self.now.depth) y.place)
            tokens.old)
            result tokens.new }
    {
        let mut found = Vec::new(self.alloc);
        for _turn in 0..tokens.left() {
            let Some(token) = tokens.eat(Symbol::ColonColon) else {
                return Ok(found);
            };
            found.push(self.note(tokens, token.place)?)?;
        }
        Ok(found)
    }

    #[tactic(auto, unfolding(crate::specs::Rules::value))]
    fn value(&self, tokens: &mut Cursor<'_>) -> Result<Option<Expr>, Stop>
        requires nests { Nests (suc self.now.depth) (F.pre self.now.expr) (F.post self.now.expr) }
        requires small { self.now.depth < 2 ^ 64 - 1 }
        ensures { Reads maybe_view
            (spec.value self.now.depth (spec.under (suc self.now.depth))
            (spec.under self.now.depth) tokens.old)
            result tokens.new }
    {
        if !tokens.takes(Symbol::Equal) {
            return Ok(None);
        }
        Ok(Some(self.any_here(tokens)?))
    }

    /// The rest of a declaration, behind its kind and the colon.
    #[tactic(auto, unfolding(crate::specs::Rules::declared, crate::specs::Rules::notes))]
    pub fn declared(
        &self,
        tokens: &mut Cursor<'_>,
        place: Place,
        kind: Kind,
    ) -> Result<Declaration, Stop>
        requires nests { Nests (suc self.now.depth) (F.pre self.now.expr) (F.post self.now.expr) }
        requires inside { Nests self.now.depth (F.pre self.now.expr) (F.post self.now.expr) }
        requires small { self.now.depth < 2 ^ 64 - 1 }
        ensures { Reads declaration_view
            (into_of (λ c. tree.declare place (kind_view kind) c.0 c.1.0 c.1.1)
            (spec.declared self.now.depth (spec.under (suc self.now.depth))
            (spec.under self.now.depth))
            tokens.old)
            result tokens.new }
    {
        let name = word(self.alloc, tokens)?;
        let notes = self.notes(tokens)?;
        let value = self.value(tokens)?;
        Ok(Declaration {
            place,
            kind,
            name,
            notes,
            value,
        })
    }

    /// A declaration: a kind, a name, its notes, and its value if it has one.
    #[tactic(auto, unfolding(crate::specs::Rules::declaration))]
    pub fn declaration(&self, tokens: &mut Cursor<'_>) -> Result<Declaration, Stop>
        requires nests { Nests (suc self.now.depth) (F.pre self.now.expr) (F.post self.now.expr) }
        requires inside { Nests self.now.depth (F.pre self.now.expr) (F.post self.now.expr) }
        requires small { self.now.depth < 2 ^ 64 - 1 }
        ensures { Reads declaration_view
            (spec.declaration self.now.depth (spec.under (suc self.now.depth))
            (spec.under self.now.depth) tokens.old)
            result tokens.new }
    {
        let place = tokens.place();
        let kind = self.kind(tokens)?;
        self.declared(tokens, place, kind)
    }

    /// One turn of the declarations of a `let`.
    #[tactic(auto, unfolding(crate::specs::Rules::local_turn))]
    fn local_turn(&self, tokens: &mut Cursor<'_>) -> Result<Turn<Declaration>, Stop>
        requires nests { Nests (suc self.now.depth) (F.pre self.now.expr) (F.post self.now.expr) }
        requires inside { Nests self.now.depth (F.pre self.now.expr) (F.post self.now.expr) }
        requires small { self.now.depth < 2 ^ 64 - 1 }
        ensures { Reads (turn_view declaration_view)
            (spec.local_turn self.now.depth (spec.under (suc self.now.depth))
            (spec.under self.now.depth) tokens.old)
            result tokens.new }
    {
        if !tokens.takes(Symbol::Semicolon) {
            tokens.expect(Symbol::CloseBrace)?;
            return Ok(Turn::Last(false));
        }
        if tokens.takes(Symbol::CloseBrace) {
            return Ok(Turn::Last(true));
        }
        Ok(Turn::Item(self.declaration(tokens)?))
    }

    /// The declarations behind the first, and whether a last semicolon is there.
    fn more_locals(&self, tokens: &mut Cursor<'_>) -> Result<(Vec<Declaration>, bool), Stop>
        requires nests { Nests (suc self.now.depth) (F.pre self.now.expr) (F.post self.now.expr) }
        requires inside { Nests self.now.depth (F.pre self.now.expr) (F.post self.now.expr) }
        requires small { self.now.depth < 2 ^ 64 - 1 }
        ensures { Reads (λ r. (map declaration_view r.0.items, r.1))
            (spec.more_locals self.now.depth (spec.under (suc self.now.depth))
            (spec.under self.now.depth) (length tokens.old) tokens.old)
            result tokens.new }
    {
        let mut found = Vec::new(self.alloc);
        for _turn in 0..tokens.left() {
            match self.local_turn(tokens)? {
                Turn::Item(declaration) => found.push(declaration)?,
                Turn::Last(closed) => return Ok((found, closed)),
            }
        }
        tokens.expect(Symbol::CloseBrace)?;
        Ok((found, false))
    }

    /// The declarations of a `let`, and whether a last semicolon is there.
    #[tactic(auto, unfolding(crate::specs::Rules::locals))]
    pub(crate) fn locals(&self, tokens: &mut Cursor<'_>) -> Result<(Vec<Declaration>, bool), Stop>
        requires nests { Nests (suc self.now.depth) (F.pre self.now.expr) (F.post self.now.expr) }
        requires inside { Nests self.now.depth (F.pre self.now.expr) (F.post self.now.expr) }
        requires small { self.now.depth < 2 ^ 64 - 1 }
        ensures { Reads (λ r. (map declaration_view r.0.items, r.1))
            (spec.locals self.now.depth (spec.under (suc self.now.depth))
            (spec.under self.now.depth) tokens.old)
            result tokens.new }
    {
        let first = self.declaration(tokens)?;
        let (mut found, closed) = self.more_locals(tokens)?;
        found.insert(0, first)?;
        Ok((found, closed))
    }
}
