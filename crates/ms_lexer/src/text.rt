//! Texts and comments.

ghost use Rattle.std.specs.Prelude.{◌≡◌, ◌≢◌, ◌≤◌, ◌<◌, ◌+◌, ◌^◌, [], false, length};
ghost use Rattle.std.specs.Prelude.{IfErr, IfOk, IsTrue};
ghost use Rattle.ms_syntax.specs.Form as spec;
ghost use Rattle.ms_lexer.specs.Reading.{Shows, IsWithin, token_of};

use crate::bytes::byte_at;
use crate::fault::FormError;
use ms_syntax::{LexKind, Token, Word};
use std::alloc::Global;

fn escape(b: u8) -> Option<u8>
    ensures { result ≡ spec.escape b }
{
    match b {
        b'n' => Some(b'\n'),
        b't' => Some(b'\t'),
        b'"' => Some(b'"'),
        b'\\' => Some(b'\\'),
        _ => None,
    }
}

fn is_plain(b: u8) -> bool
    ensures { result ≡ spec.is_plain b }
{
    b == b'\t' || b >= 0x20 && !(b == 0x7F || b == b'"' || b == b'\\')
}

/// How many bytes stand before the closing quote, or before the end of the line: room enough for
/// the value.
fn room(bytes: &[u8]) -> usize
    ensures { result ≤ length bytes.now }
{
    let mut escaped = false;
    for (i, b) in bytes.iter().enumerate() {
        if *b == b'\n' || *b == b'"' && !escaped {
            return i;
        }
        escaped = *b == b'\\' && !escaped;
    }
    bytes.len()
}

/// A text behind its opening quote.
#[tactic(auto, unfolding(ms_syntax::specs::Form::text))]
pub fn text(alloc: Global, bytes: &[u8]) -> Result<(Token, usize), FormError>
    requires { length bytes.now < 2 ^ 32 }
    ensures form { Shows token_of (spec.text false 1 [] bytes.now) result }
    ensures within { IfOk result (λ x. (0 < x.1) × (x.1 ≤ 1 + length bytes.now)) }
    ensures offset { IfErr result (IsWithin (1 + length bytes.now)) }
{
    let mut value = Vec::with_capacity(alloc, room(bytes))?;
    let mut len = 1;
    let mut rest = bytes;
    while let [b, others @ ..] = rest {
        match *b {
            b'"' => return Ok((Token::Text(Word::from_vec(value)), len + 1)),
            b'\n' => return Err(FormError::Fault(LexKind::OpenText, 0)),
            b'\\' => {
                let [e, more @ ..] = others else {
                    return Err(FormError::Fault(LexKind::BadByte, len));
                };
                let Some(c) = escape(*e) else {
                    return Err(FormError::Fault(LexKind::BadByte, len));
                };
                value.push(c)?;
                len += 2;
                rest = more;
            }
            b => {
                if !is_plain(b) {
                    return Err(FormError::Fault(LexKind::BadByte, len));
                }
                value.push(b)?;
                len += 1;
                rest = others;
            }
        }
    }
    Err(FormError::Fault(LexKind::OpenText, 0))
}

/// A comment behind the two bytes that open it.
#[tactic(auto, unfolding(ms_syntax::specs::Form::comment))]
pub fn comment(bytes: &[u8]) -> Result<usize, FormError>
    requires { length bytes.now < 2 ^ 32 }
    ensures form { Shows spec.blank (spec.comment 2 bytes.now) result }
    ensures within { IfOk result (λ n. (0 < n) × (n ≤ 2 + length bytes.now)) }
    ensures offset { IfErr result (IsWithin (2 + length bytes.now)) }
{
    let mut len = 2;
    let mut rest = bytes;
    while let [b, others @ ..] = rest {
        if *b == b'*' && byte_at(others, 0) == b'/' {
            return Ok(len + 2);
        }
        len += 1;
        rest = others;
    }
    Err(FormError::Fault(LexKind::OpenComment, 0))
}

/// How many bytes from the front are in the first line, its line feed aside.
pub fn line_len(bytes: &[u8]) -> usize
    ensures value { result ≡ spec.run spec.is_in_line bytes.now }
    ensures within { result ≤ length bytes.now }
    ensures some { IsTrue (spec.is_in_line (spec.byte_at bytes.now 0)) → bytes.now ≢ []
        → 0 < result }
{
    bytes.iter().take_while(|b| **b != b'\n').count()
}
