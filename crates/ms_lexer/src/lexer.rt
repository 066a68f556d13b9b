//! All of the bytes.

ghost use Rattle.std.specs.Prelude.{◌≤◌, ◌<◌, ◌^◌, ℕ, length, List, IfOk, IfErr};
ghost use Rattle.ms_syntax.specs.Cut.{HasTokens, HasFault};
ghost use Rattle.ms_lexer.specs.Reading.{FaultAt, FaultIs, GivesFault, GivesTokens};
ghost use Rattle.ms_lexer.specs.Reading.{IsAmong, IsWithin};

use crate::fault::{FormError, LexFault};
use crate::form::form;
use crate::place::place_after;
use ms_base::FILE_LIMIT;
use ms_syntax::{LexKind, Place, Spanned};
use std::alloc::Global;

/// The fault of the form at `start`.
fn fault_at(e: FormError, start: usize) -> LexFault
    requires small { start < 2 ^ 32 }
    requires offset { IsWithin (2 ^ 32) e }
    ensures { FaultAt result e start }
{
    match e {
        FormError::Memory => LexFault::Memory,
        FormError::Fault(LexKind::BadByte, n) => LexFault::BadByte(start + n),
        FormError::Fault(LexKind::OpenText, n) => LexFault::OpenText(start + n),
        FormError::Fault(LexKind::OpenComment, n) => LexFault::OpenComment(start + n),
        FormError::Fault(LexKind::BigNumber, n) => LexFault::BigNumber(start + n),
    }
}

fn cut(alloc: Global, file: u8, bytes: &[u8]) -> Result<Vec<Spanned>, LexFault>
    requires { length bytes.now ≤ FILE_LIMIT }
    ensures ok { IfOk result (λ v. HasTokens file bytes.now v.items) }
    ensures fault { IfErr result (λ e. FaultIs bytes.now e) }
    ensures within { IfErr result (λ e. IsAmong (length bytes.now) e) }
{
    let mut found = Vec::new(alloc);
    let mut start = 0;
    let mut place = Place {
        file,
        line: 1,
        col: 1,
    };
    while start < bytes.len() {
        let rest = &bytes[start..];
        let (token, len) = match form(alloc, rest) {
            Ok(piece) => piece,
            Err(e) => return Err(fault_at(e, start)),
        };
        let end = start + len;
        match token {
            Some(token) => found.push(Spanned {
                token,
                start,
                end,
                place,
            })?,
            None => {}
        }
        place = place_after(place, &rest[..len]);
        start = end;
    }
    Ok(found)
}

/// The tokens of a file's bytes, each with the bytes that it stands on and its place.
pub fn tokens(alloc: Global, file: u8, bytes: &[u8]) -> Result<Vec<Spanned>, LexFault>
    requires { length bytes.now ≤ FILE_LIMIT }
    // What is returned are the bytes' tokens.
    ensures ok { IfOk result (λ v. HasTokens file bytes.now v.items) }
    // A fault is the first thing that cannot be taken.
    ensures fault { IfErr result (λ e. FaultIs bytes.now e) }
    // The byte of a fault is there.
    ensures within { IfErr result (λ e. IsAmong (length bytes.now) e) }
    // Where the bytes have tokens, these are the answer, unless memory fails.
    ensures accepts { (ts : List Spanned) → HasTokens file bytes.now ts → GivesTokens ts result }
    // Where the bytes have a first fault, that is the answer, unless memory fails.
    ensures refuses { (kind : LexKind) (k : ℕ)
        → HasFault bytes.now kind k → GivesFault kind k result }
{
    cut(alloc, file, bytes)
}
