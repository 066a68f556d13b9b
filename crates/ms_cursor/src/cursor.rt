//! The tokens that are left.

ghost use Rattle.std.specs.Prelude.{◌≡◌, ◌↔◌, [], length, is_some, option_map, IsTrue};
ghost use Rattle.std.specs.Prelude.{if◌then◌else◌};
ghost use Rattle.ms_cursor.specs.Reading.{front, after, must, place_at, finish};
ghost use Rattle.ms_cursor.specs.Reads.{Reads};
ghost use Rattle.ms_cursor.specs.Kinds as kinds;
ghost use Rattle.ms_cursor.specs.Level.{operands_of};

use crate::kind::{begins_kind, infix, sign, truth};
use crate::level::Level;
use crate::mark::Mark;
use crate::stop::Stop;
use ms_syntax::{Operator, Place, Sign, Spanned, Token, Word};
use std::marker::Model;

/// The tokens that are left of a list, which contracts see as their list. After a fault it may
/// stand anywhere, and is not used again.
#[derive(Drop)]
pub struct Cursor<'a> {
    rest: &'a [Spanned],
}

impl<'a> Model for Cursor<'a> {
    ghost use Rattle.std.specs.Prelude.{List};
    ghost use Rattle.ms_syntax.specs.declared.token.Spanned.{Spanned};

    ghost Value = { List Spanned };

    ghost view = { λ c. c.rest.now };
}

impl<'a> Cursor<'a> {
    /// Before all of the tokens.
    pub fn new(rest: &'a [Spanned]) -> Cursor<'a>
        ensures { result ≡ rest.now }
    {
        Cursor { rest }
    }

    /// How many tokens are left.
    pub fn left(&self) -> usize
        ensures { result ≡ length self.now }
    {
        self.rest.len()
    }

    /// Whether the next token is this mark.
    pub fn sees<M: Mark>(&self, mark: M) -> bool
        ensures { result ≡ is_some (front (M.matches mark) self.now) }
    {
        match self.rest.first() {
            Some(first) => mark.is(&first.token),
            None => false,
        }
    }

    /// Takes the next token if it is this mark, and says whether it did.
    pub fn takes<M: Mark>(&mut self, mark: M) -> bool
        ensures taken { result ≡ is_some (front (M.matches mark) self.old) }
        ensures rest { self.new ≡ (if result then after self.old else self.old) }
    {
        match self.rest.split_first() {
            Some((first, others)) if mark.is(&first.token) => {
                self.rest = others;
                true
            }
            _ => false,
        }
    }

    /// Takes the next token if it is this mark.
    pub fn eat<M: Mark>(&mut self, mark: M) -> Option<&'a Spanned>
        ensures taken { option_map (λ y. (tt, y.now)) result ≡ front (M.matches mark) self.old }
        ensures rest { self.new ≡ (if is_some result then after self.old else self.old) }
    {
        let (first, others) = self.rest.split_first()?;
        if !mark.is(&first.token) {
            return None;
        }
        self.rest = others;
        Some(first)
    }

    /// Takes the next token, which has to be this mark.
    pub fn expect<M: Mark>(&mut self, mark: M) -> Result<&'a Spanned, Stop>
        ensures { Reads (λ y. (tt, y.now)) (must (M.matches mark) self.old) result self.new }
    {
        let left = self.left();
        self.eat(mark).ok_or(Stop::Syntax(left))
    }

    /// Takes the next token if it is a name.
    pub fn eat_name(&mut self) -> Option<(&'a Word, &'a Spanned)>
        ensures taken { option_map (λ r. (r.0.now, r.1.now)) result ≡ front kinds.a_name self.old }
        ensures rest { self.new ≡ (if is_some result then after self.old else self.old) }
    {
        let (first, others) = self.rest.split_first()?;
        match &first.token {
            Token::Name(word) => {
                self.rest = others;
                Some((word, first))
            }
            _ => None,
        }
    }

    /// Takes the next token, which has to be a name.
    pub fn expect_name(&mut self) -> Result<(&'a Word, &'a Spanned), Stop>
        ensures { Reads (λ r. (r.0.now, r.1.now)) (must kinds.a_name self.old) result self.new }
    {
        let left = self.left();
        self.eat_name().ok_or(Stop::Syntax(left))
    }

    /// Takes the next token if it is a text.
    pub fn eat_text(&mut self) -> Option<(&'a Word, &'a Spanned)>
        ensures taken { option_map (λ r. (r.0.now, r.1.now)) result ≡ front kinds.a_text self.old }
        ensures rest { self.new ≡ (if is_some result then after self.old else self.old) }
    {
        let (first, others) = self.rest.split_first()?;
        match &first.token {
            Token::Text(word) => {
                self.rest = others;
                Some((word, first))
            }
            _ => None,
        }
    }

    /// Takes the next token, which has to be a text.
    pub fn expect_text(&mut self) -> Result<(&'a Word, &'a Spanned), Stop>
        ensures { Reads (λ r. (r.0.now, r.1.now)) (must kinds.a_text self.old) result self.new }
    {
        let left = self.left();
        self.eat_text().ok_or(Stop::Syntax(left))
    }

    /// Takes the next token if it is a number.
    pub fn eat_number(&mut self) -> Option<(u64, &'a Spanned)>
        ensures taken { option_map (λ r. (r.0, r.1.now)) result ≡ front kinds.a_number self.old }
        ensures rest { self.new ≡ (if is_some result then after self.old else self.old) }
    {
        let (first, others) = self.rest.split_first()?;
        match first.token {
            Token::Number(n) => {
                self.rest = others;
                Some((n, first))
            }
            _ => None,
        }
    }

    /// Takes the next token if it is `true` or `false`.
    pub fn eat_truth(&mut self) -> Option<(bool, &'a Spanned)>
        ensures taken { option_map (λ r. (r.0, r.1.now)) result ≡ front kinds.a_truth self.old }
        ensures rest { self.new ≡ (if is_some result then after self.old else self.old) }
    {
        let (first, others) = self.rest.split_first()?;
        let value = truth(&first.token)?;
        self.rest = others;
        Some((value, first))
    }

    /// Takes the next token if it is a sign.
    pub fn eat_sign(&mut self) -> Option<(Sign, &'a Spanned)>
        ensures taken { option_map (λ r. (r.0, r.1.now)) result ≡ front kinds.a_sign self.old }
        ensures rest { self.new ≡ (if is_some result then after self.old else self.old) }
    {
        let (first, others) = self.rest.split_first()?;
        let found = sign(&first.token)?;
        self.rest = others;
        Some((found, first))
    }

    /// Whether the next token is an operator of the level.
    pub fn sees_infix(&self, level: Level) -> bool
        ensures { result ≡ is_some (front (kinds.infix_of (operands_of level)) self.now) }
    {
        match self.rest.first() {
            Some(first) => infix(level, &first.token).is_some(),
            None => false,
        }
    }

    /// Takes the next token if it is an operator of the level.
    pub fn eat_infix(&mut self, level: Level) -> Option<(Operator, &'a Spanned)>
        ensures taken { option_map (λ r. (r.0, r.1.now)) result ≡ front (kinds.infix_of (operands_of level))
            self.old }
        ensures rest { self.new ≡ (if is_some result then after self.old else self.old) }
    {
        let (first, others) = self.rest.split_first()?;
        let found = infix(level, &first.token)?;
        self.rest = others;
        Some((found, first))
    }

    /// The place of the next token.
    pub fn place(&self) -> Place
        ensures { result ≡ place_at self.now }
    {
        match self.rest.first() {
            Some(first) => first.place,
            None => Place {
                file: 0,
                line: 0,
                col: 0,
            },
        }
    }

    /// Whether no token is left.
    pub fn is_empty(&self) -> bool
        ensures { IsTrue result ↔ (self.now ≡ []) }
    {
        self.rest.is_empty()
    }

    /// Whether the next token is a word that begins a kind.
    pub fn sees_kind(&self) -> bool
        ensures { result ≡ is_some (front kinds.kind_word self.now) }
    {
        match self.rest.first() {
            Some(first) => begins_kind(&first.token),
            None => false,
        }
    }

    /// No token may be left.
    pub fn finish(&self) -> Result<(), Stop>
        ensures { Reads (λ x. tt {0}) (finish (tt {0}) self.now) result [] }
    {
        if self.rest.is_empty() {
            return Ok(());
        }
        Err(Stop::Syntax(self.rest.len()))
    }
}
