use ms_syntax::LexKind;
use std::alloc::{AllocError, AllocFailed};
use thiserror::Error;

/// The first thing that cannot be taken, with its byte, counted from 0; or no memory.
#[derive(Clone, Copy, Debug, PartialEq, Eq, Error)]
pub enum LexFault {
    /// A byte that no token can take; also a letter or `_` directly behind a number, a backslash
    /// in a text that begins no escape, and a byte that a text may not hold.
    #[error("byte {0} fits no token")]
    BadByte(usize),
    /// The opening quote of a text whose line ends first.
    #[error("the text at byte {0} is not closed in its line")]
    OpenText(usize),
    /// The `/*` of a comment that no `*/` closes.
    #[error("the comment at byte {0} is not closed")]
    OpenComment(usize),
    /// The first digit of a number above 9223372036854775807.
    #[error("the number at byte {0} is too big")]
    BigNumber(usize),
    /// No memory for the tokens.
    #[error("out of memory")]
    Memory,
}

/// Why nothing is read at the front of some bytes, with how far behind the front the byte is.
#[derive(Clone, Copy)]
pub enum FormError {
    Fault(LexKind, usize),
    Memory,
}

impl From<AllocError> for FormError {
    ghost use Rattle.std.specs.Prelude.{◌≡◌};
    ghost use Rattle.ms_lexer.specs.declared.fault.FormError.TheVariants.{Memory};

    ghost from_gives = { λ _ e. e ≡ Memory };

    fn from(_: AllocError) -> FormError {
        FormError::Memory
    }
}

impl<T: Drop> From<AllocFailed<T>> for FormError {
    ghost use Rattle.std.specs.Prelude.{◌≡◌};
    ghost use Rattle.ms_lexer.specs.declared.fault.FormError.TheVariants.{Memory};

    ghost from_gives = { λ _ e. e ≡ Memory };

    fn from(_: AllocFailed<T>) -> FormError {
        FormError::Memory
    }
}

impl From<AllocError> for LexFault {
    ghost use Rattle.std.specs.Prelude.{◌≡◌};
    ghost use Rattle.ms_lexer.specs.declared.fault.LexFault.TheVariants.{Memory};

    ghost from_gives = { λ _ e. e ≡ Memory };

    fn from(_: AllocError) -> LexFault {
        LexFault::Memory
    }
}

impl<T: Drop> From<AllocFailed<T>> for LexFault {
    ghost use Rattle.std.specs.Prelude.{◌≡◌};
    ghost use Rattle.ms_lexer.specs.declared.fault.LexFault.TheVariants.{Memory};

    ghost from_gives = { λ _ e. e ≡ Memory };

    fn from(_: AllocFailed<T>) -> LexFault {
        LexFault::Memory
    }
}
