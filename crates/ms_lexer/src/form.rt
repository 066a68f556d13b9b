//! What stands at the front of some bytes.

ghost use Rattle.std.specs.Prelude.{IfOk, IfErr, ◌==◌, ◌&&◌, ◌≡◌, ◌≤◌, ◌<◌, ◌^◌, length};
ghost use Rattle.ms_syntax.specs.Cut.{IsMore};
ghost use Rattle.ms_syntax.specs.Form as spec;
ghost use Rattle.ms_lexer.specs.Reading.{Shows, IsWithin, piece};

use crate::bytes::{byte_at, is_digit, is_letter, is_white};
use crate::fault::FormError;
use crate::number::number;
use crate::symbol::symbol_at;
use crate::text::{comment, line_len, text};
use crate::word::word;
use ms_syntax::Token;
use std::alloc::Global;

fn opens_comment(b: u8, c: u8) -> bool
    ensures { result ≡ (b == 47 && c == 42) }
{
    b == b'/' && c == b'*'
}

/// What stands at the front of the bytes, with how many bytes it has; white space and comments are
/// no token.
#[tactic(auto, unfolding(ms_syntax::specs::Form::form))]
pub fn form(alloc: Global, bytes: &[u8]) -> Result<(Option<Token>, usize), FormError>
    requires more { IsMore bytes.now }
    requires short { length bytes.now < 2 ^ 32 }
    ensures form { Shows piece (spec.form bytes.now) result }
    ensures within { IfOk result (λ x. (0 < x.1) × (x.1 ≤ length bytes.now)) }
    ensures offset { IfErr result (IsWithin (length bytes.now)) }
{
    let [b, others @ ..] = bytes else {
        unreachable!();
    };
    let b = *b;
    if is_white(b) {
        return Ok((None, 1));
    }
    if b == b'%' {
        return Ok((None, line_len(bytes)));
    }
    if is_letter(b) {
        let (token, len) = word(alloc, bytes)?;
        return Ok((Some(token), len));
    }
    if is_digit(b) {
        let (token, len) = number(bytes)?;
        return Ok((Some(token), len));
    }
    if b == b'"' {
        let (token, len) = text(alloc, others)?;
        return Ok((Some(token), len));
    }
    let c = byte_at(others, 0);
    if opens_comment(b, c) {
        let len = comment(&others[1..])?;
        return Ok((None, len));
    }
    let (token, len) = symbol_at(bytes, b, c, byte_at(others, 1))?;
    Ok((Some(token), len))
}
