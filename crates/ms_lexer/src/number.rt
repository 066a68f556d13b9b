//! Numbers.

ghost use Rattle.std.specs.Prelude.{IfOk, IfErr, ◌≡◌, ◌≢◌, IsTrue, ◌≤◌, ◌<◌, [], length, min};
ghost use Rattle.ms_syntax.specs.Form as spec;
ghost use Rattle.ms_lexer.specs.Reading.{Shows, IsWithin, token_of};

use crate::bytes::{byte_at, is_digit, is_letter};
use crate::fault::FormError;
use ms_syntax::{LexKind, Token};

fn digits_len(bytes: &[u8]) -> usize
    ensures value { result ≡ spec.run spec.is_digit bytes.now }
    ensures within { result ≤ length bytes.now }
    ensures some { IsTrue (spec.is_digit (spec.byte_at bytes.now 0)) → bytes.now ≢ [] → 0 < result }
{
    bytes.iter().take_while(|b| is_digit(**b)).count()
}

/// The number that the digits spell, or the greatest `u64` where it is greater.
fn number_of(digits: &[u8]) -> u64
    ensures { result ≡ min (spec.number_of digits.now) 18446744073709551615 }
{
    let mut value = 0u64;
    for d in digits {
        value = value
            .saturating_mul(10)
            .saturating_add(u64::from(d.saturating_sub(b'0')));
    }
    value
}

fn sticks_to_number(b: u8) -> bool
    ensures value { result ≡ spec.sticks_to_number b }
    ensures some { IsTrue result → 0 < b }
{
    is_letter(b) || b == b'_'
}

/// The number at the front, as long as digits go on.
#[tactic(auto, unfolding(ms_syntax::specs::Form::number))]
pub fn number(bytes: &[u8]) -> Result<(Token, usize), FormError>
    requires { IsTrue (spec.is_digit (spec.byte_at bytes.now 0)) × (bytes.now ≢ []) }
    ensures form { Shows token_of (spec.number bytes.now) result }
    ensures within { IfOk result (λ x. (0 < x.1) × (x.1 ≤ length bytes.now)) }
    ensures offset { IfErr result (IsWithin (length bytes.now)) }
{
    let len = digits_len(bytes);
    let value = number_of(&bytes[..len]);
    if value > i64::MAX as u64 {
        return Err(FormError::Fault(LexKind::BigNumber, 0));
    }
    if sticks_to_number(byte_at(bytes, len)) {
        return Err(FormError::Fault(LexKind::BadByte, len));
    }
    Ok((Token::Number(value), len))
}
