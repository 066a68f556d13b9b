//! The program: `minisearch MODEL` prints the least solution of a model.
//!
//! It hands its words, the files of the system, standard output and standard error to the top call, and ends
//! with the number of the status: 0 done, 1 refused, 2 wrong words, 3 a file could not be read, 4 the output
//! could not be written, 5 no memory. Beyond what the top call promises, that number is a contract here (`ended`).
#![tactic(auto)]

ghost use Rattle.std.specs.Prelude.{◌≡◌};
ghost use Rattle.std.specs.Process.{exit_status};
ghost use Rattle.ms_top.specs.Exit.{exit_code};

use ms_io::{OsFiles, Sink, StdSink};
use ms_top::{Status, run};
use std::alloc::AllocError;
use std::env;
use std::io::ErrorKind;
use std::process::ExitCode;

/// The program's words; none where one of them is no text, so that the words are wrong.
fn program_words(rt: &HostRuntime) -> Result<Vec<String>, AllocError> {
    match env::args(rt) {
        Ok(words) => words.collect(rt.alloc()),
        Err(error) if error.kind() == ErrorKind::InvalidData => Ok(Vec::new(rt.alloc())),
        Err(_) => Err(AllocError),
    }
}

/// What the process ends with.
fn ended(status: &Status) -> ExitCode
    ensures { exit_status result ≡ exit_code status.now }
{
    ExitCode::from(status.code())
}

fn main(rt: HostRuntime) -> ExitCode {
    let alloc = rt.alloc();
    let mut files = OsFiles::new(alloc, &rt);
    let mut out = StdSink::new(rt.stdout());
    let mut err = StdSink::new(rt.stderr());
    let status = match program_words(&rt) {
        Ok(words) => run(alloc, &words, &mut files, &mut out, &mut err),
        Err(_) => {
            let _ = err.put(b"out of memory\n");
            Status::NoMemory
        }
    };
    ended(&status)
}
