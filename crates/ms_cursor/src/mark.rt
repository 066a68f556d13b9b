//! What one looks for in a text by itself: a symbol, or a keyword.

ghost use Rattle.std.specs.Prelude.{◌≡◌, is_some, Option};
ghost use Rattle.ms_syntax.specs.declared.token.Token.{Token};
ghost use Rattle.ms_cursor.specs.Kinds as kinds;

use ms_syntax::{Keyword, Symbol, Token};

/// A symbol or a keyword.
pub trait Mark: Copy {
    ghost matches: { Self → Token → Option (Unit {0}) };

    /// Whether the token is it.
    fn is(self, token: &Token) -> bool
        ensures { result ≡ is_some (matches self token.now) };
}

impl Mark for Symbol {
    ghost matches = { kinds.symbol };

    fn is(self, token: &Token) -> bool {
        token.is_symbol(self)
    }
}

impl Mark for Keyword {
    ghost matches = { kinds.keyword };

    fn is(self, token: &Token) -> bool {
        token.is_keyword(self)
    }
}
