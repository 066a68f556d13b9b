//! Lines and columns, and the places of tokens.

ghost use Rattle.std.specs.Prelude.{◌≡◌, ◌≤◌, ◌<◌, ◌^◌, ◌+◌, length, fold, take};
ghost use Rattle.ms_syntax.specs.Cut.{next_place, place_behind};
ghost use Rattle.ms_lexer.specs.Places as spec;
ghost use Rattle.ms_lexer.specs.Places.{IsTokenPlace};

use ms_base::FILE_LIMIT;
use ms_syntax::{Place, Spanned};

/// The place behind the bytes, where the first of them is at `place`.
pub fn place_after(place: Place, bytes: &[u8]) -> Place
    requires line { place.line + length bytes.now < 2 ^ 32 }
    requires col { place.col + length bytes.now < 2 ^ 32 }
    requires begun { 0 < place.col }
    ensures value { result ≡ fold next_place place bytes.now }
    ensures line { result.line ≤ place.line + length bytes.now }
    ensures col { (0 < result.col) × (result.col ≤ place.col + length bytes.now) }
{
    let mut place = place;
    for b in bytes {
        if *b == b'\n' {
            place.line += 1;
            place.col = 1;
        } else {
            place.col += 1;
        }
    }
    place
}

/// The place of the byte `at` of a file, or behind its end where `at` is the length.
pub fn place_of(file: u8, bytes: &[u8], at: usize) -> Place
    requires within { at ≤ length bytes.now }
    requires short { length bytes.now ≤ FILE_LIMIT }
    ensures { result ≡ place_behind file (take at bytes.now) }
{
    let first = Place {
        file,
        line: 1,
        col: 1,
    };
    place_after(first, &bytes[..at])
}

/// The byte at which the token of this number begins, or behind the last token where there is none.
fn byte_of(tokens: &[Spanned], k: usize) -> usize
    ensures { result ≡ spec.byte_of tokens.now k }
{
    match tokens.get(k) {
        Some(token) => token.start,
        None => match tokens.last() {
            Some(last) => last.end,
            None => 0,
        },
    }
}

/// The place of the token of this number, counted from 0, or of what stands behind the last token
/// where there is none. The tokens are those of the bytes; a byte behind the end is the end.
#[tactic(auto, using(std::proofs::lemmas::List::take_min))]
pub fn token_place(file: u8, bytes: &[u8], tokens: &[Spanned], k: usize) -> Place
    requires { length bytes.now ≤ FILE_LIMIT }
    ensures { IsTokenPlace file bytes.now tokens.now k result }
{
    place_of(file, bytes, byte_of(tokens, k).min(bytes.len()))
}
