ghost use Rattle.std.specs.Prelude.{◌≡◌};
ghost use Rattle.ms_top.specs.Exit.{exit_code};

use ms_base::{Closing, Limit};
use ms_syntax::{FileNo, LexKind, Place};
use ms_types::TypeFault;
use std::alloc::AllocError;

/// Why an input is not accepted.
#[derive(Debug, Drop)]
pub enum Fault {
    /// The file has more than 1048576 bytes.
    LongFile(FileNo),
    /// The first thing in the bytes that no token can take.
    Lex(Place, LexKind),
    /// The first token with which no model goes on, or the end behind the last token.
    Syntax(Place),
    /// The first token at which brackets and `if` nest more than 200 deep.
    Deep(Place),
    /// The first fault of the model's declarations and types, which is never want of memory.
    Typing(TypeFault),
    /// The model is well typed and not of the plain form, which is all that is built yet.
    Form(FileNo),
}

/// How a run of the program ended.
#[derive(Debug, Drop)]
pub enum Status {
    /// The run ended, with the first limit that was reached.
    Done(Closing, Option<Limit>),
    /// The words after the program's name are not those that are wanted.
    Usage,
    /// A file could not be read.
    ReadFault,
    /// The input is not accepted, and nothing was written.
    Refused(Fault),
    /// The output could not be written; a prefix of it stands.
    WriteFault,
    NoMemory,
}

impl Status {
    /// The number that the program ends with.
    pub fn code(&self) -> u8
        ensures { result ≡ exit_code self.now }
    {
        match self {
            Status::Done(_, _) => 0,
            Status::Refused(_) => 1,
            Status::Usage => 2,
            Status::ReadFault => 3,
            Status::WriteFault => 4,
            Status::NoMemory => 5,
        }
    }
}

impl From<AllocError> for Status {
    ghost use Rattle.std.specs.Prelude.{◌≡◌};
    ghost use Rattle.ms_top.specs.declared.status.Status.TheVariants.{NoMemory};

    ghost from_gives = { λ _ status. status ≡ NoMemory };

    fn from(_: AllocError) -> Status {
        Status::NoMemory
    }
}
