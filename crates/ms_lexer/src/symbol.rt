//! Symbols.

ghost use Rattle.std.specs.Prelude.{IfOk, IfErr, IfSome, ◌≡◌, ◌≤◌, ◌<◌, length};
ghost use Rattle.ms_syntax.specs.Form as spec;
ghost use Rattle.ms_lexer.specs.Reading.{Shows, IsWithin, token_of, symbol_form};

use crate::fault::FormError;
use ms_syntax::{LexKind, Symbol, Token};

/// The longest symbol that begins with the byte `b`, before `c` and `d`, with how many bytes it
/// has.
fn symbol(b: u8, c: u8, d: u8) -> Option<(Symbol, usize)>
    ensures form { spec.symbol b c d ≡ symbol_form result }
    ensures small { IfSome result (λ x. (0 < x.1) × (x.1 ≤ 3)) }
    ensures two { IfSome result (λ x. 2 ≤ x.1 → 0 < c) }
    ensures three { IfSome result (λ x. 3 ≤ x.1 → 0 < d) }
{
    let (symbol, len) = match (b, c, d) {
        (b'<', b'-', b'>') => (Symbol::DoubleArrow, 3),
        (b'<', b'-', _) => (Symbol::LeftArrow, 2),
        (b'<', b'=', _) => (Symbol::AtMost, 2),
        (b'<', _, _) => (Symbol::Less, 1),
        (b'-', b'>', _) => (Symbol::RightArrow, 2),
        (b'-', _, _) => (Symbol::Minus, 1),
        (b'>', b'=', _) => (Symbol::AtLeast, 2),
        (b'>', _, _) => (Symbol::Greater, 1),
        (b'=', b'=', _) => (Symbol::Equal, 2),
        (b'=', _, _) => (Symbol::Equal, 1),
        (b'!', b'=', _) => (Symbol::NotEqual, 2),
        (b'\\', b'/', _) => (Symbol::Or, 2),
        (b'/', b'\\', _) => (Symbol::And, 2),
        (b'.', b'.', _) => (Symbol::DotDot, 2),
        (b'+', b'+', _) => (Symbol::PlusPlus, 2),
        (b'+', _, _) => (Symbol::Plus, 1),
        (b':', b':', _) => (Symbol::ColonColon, 2),
        (b':', _, _) => (Symbol::Colon, 1),
        (b'[', b'|', _) => (Symbol::OpenRows, 2),
        (b'[', _, _) => (Symbol::OpenBracket, 1),
        (b'|', b']', _) => (Symbol::CloseRows, 2),
        (b'|', _, _) => (Symbol::Bar, 1),
        (b'*', _, _) => (Symbol::Star, 1),
        (b'(', _, _) => (Symbol::OpenParenthesis, 1),
        (b')', _, _) => (Symbol::CloseParenthesis, 1),
        (b']', _, _) => (Symbol::CloseBracket, 1),
        (b'{', _, _) => (Symbol::OpenBrace, 1),
        (b'}', _, _) => (Symbol::CloseBrace, 1),
        (b',', _, _) => (Symbol::Comma, 1),
        (b';', _, _) => (Symbol::Semicolon, 1),
        _ => return None,
    };
    Some((symbol, len))
}

/// The longest symbol at the front, of which the first bytes are given.
pub fn symbol_at(bytes: &[u8], b: u8, c: u8, d: u8) -> Result<(Token, usize), FormError>
    requires more { 0 < length bytes.now }
    requires two { 0 < c → 1 < length bytes.now }
    requires three { 0 < d → 2 < length bytes.now }
    ensures form { Shows token_of (spec.symbol b c d) result }
    ensures within { IfOk result (λ x. (0 < x.1) × (x.1 ≤ length bytes.now)) }
    ensures offset { IfErr result (IsWithin (length bytes.now)) }
{
    match symbol(b, c, d) {
        Some((symbol, len)) => Ok((Token::Symbol(symbol), len)),
        None => Err(FormError::Fault(LexKind::BadByte, 0)),
    }
}
