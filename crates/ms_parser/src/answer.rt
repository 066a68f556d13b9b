//! A fault by its place from the front.

ghost use Rattle.std.specs.Prelude.{◌≡◌, length};
ghost use Rattle.ms_parser.specs.Answers.{IsWithin, from_front};

use crate::fault::ParseFault;
use ms_cursor::Stop;
use ms_syntax::Spanned;

/// What was read of all tokens, with a fault that is told by how many tokens are left told by its
/// place.
pub fn answer<T: Drop>(tokens: &[Spanned], read: Result<T, Stop>) -> Result<T, ParseFault>
    requires { IsWithin (length tokens.now) read }
    ensures { result ≡ from_front (length tokens.now) read }
{
    match read {
        Ok(value) => Ok(value),
        Err(stop) => match stop {
            Stop::Syntax(left) => Err(ParseFault::Syntax(tokens.len() - left)),
            Stop::Deep(left) => Err(ParseFault::Deep(tokens.len() - left - 1)),
            Stop::Memory => Err(ParseFault::Memory),
        },
    }
}
