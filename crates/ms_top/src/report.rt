//! What is said of a status that is not `Done`.

ghost use Rattle.std.specs.Prelude.{◌≡◌, ℕ, List, IfOk};
ghost use Rattle.ms_io.specs.Sink.{Reports};
ghost use Rattle.ms_top.specs.Answer.{Remains, SaysName};
ghost use Rattle.ms_top.specs.Text as spec;
ghost use Rattle.ms_top.specs.Text.{file_name, report_text};

use crate::accept::{LIBRARY, MODEL};
use crate::status::{Fault, Status};
use itoa::Buffer;
use ms_io::{Sink, put_report};
use ms_syntax::{FileNo, LexKind, Place};
use ms_types::TypeFault;
use std::alloc::{AllocError, Global};

/// What is said where a model file is wanted.
const USAGE: &[u8] = b"one model file is wanted\n";

/// What is said where the output could not be written.
const CANNOT_WRITE: &[u8] = b"cannot write\n";

/// What is said where memory ran out.
const NO_MEMORY: &[u8] = b"out of memory\n";

/// The name of the library's file.
const LIBRARY_NAME: &[u8] = b"minisearch.mzn";

/// The names of the files of a run.
#[derive(Clone, Copy)]
pub struct FileNames<'a> {
    pub model: &'a [u8],
}

impl<'a> FileNames<'a> {
    /// The name of the file of this number.
    fn of(&self, file: FileNo) -> &'a [u8]
        ensures { result.now ≡ file_name self.now.model.now file }
    {
        if file == MODEL {
            self.model
        } else if file == LIBRARY {
            LIBRARY_NAME
        } else {
            b""
        }
    }
}

fn fault_words(kind: LexKind) -> &'static [u8]
    ensures { result.now ≡ spec.fault_words kind }
{
    match kind {
        LexKind::BadByte => b"unexpected byte",
        LexKind::OpenText => b"text is not closed",
        LexKind::OpenComment => b"comment is not closed",
        LexKind::BigNumber => b"number too large",
    }
}

/// `FILE: WORDS`
fn of_file(alloc: Global, file: &[u8], words: &[u8]) -> Result<Vec<u8>, AllocError>
    ensures { IfOk result (λ text. text.items ≡ spec.of_file file.now words.now) }
{
    let mut text = Vec::from_slice(alloc, file)?;
    text.extend_from_slice(b": ")?;
    text.extend_from_slice(words)?;
    text.extend_from_slice(b"\n")?;
    Ok(text)
}

/// `FILE:LINE:COLUMN: WORDS`
fn at_place(
    alloc: Global,
    names: &FileNames,
    place: &Place,
    words: &[u8],
) -> Result<Vec<u8>, AllocError>
    ensures { IfOk result (λ text. text.items ≡ spec.at_place
        (file_name names.now.model.now) place.now words.now) }
{
    let mut buffer = Buffer::new();
    let mut text = Vec::from_slice(alloc, names.of(place.file))?;
    text.extend_from_slice(b":")?;
    text.extend_from_slice(buffer.format(place.line).as_bytes())?;
    text.extend_from_slice(b":")?;
    text.extend_from_slice(buffer.format(place.col).as_bytes())?;
    text.extend_from_slice(b": ")?;
    text.extend_from_slice(words)?;
    text.extend_from_slice(b"\n")?;
    Ok(text)
}

/// What is said of a fault of declarations or types.
fn type_fault_text(
    alloc: Global,
    names: &FileNames,
    fault: &TypeFault,
) -> Result<Vec<u8>, AllocError>
    ensures { IfOk result (λ text. text.items ≡ spec.type_fault_text
        (file_name names.now.model.now) fault.now) }
{
    match fault {
        TypeFault::Include(place) => at_place(alloc, names, place, b"file cannot be included"),
        TypeFault::Twice(_, later) => at_place(alloc, names, later, b"declared twice"),
        TypeFault::NoSolve => of_file(alloc, names.of(MODEL), b"no solve item"),
        TypeFault::Cycle(place) => at_place(alloc, names, place, b"definitions form a cycle"),
        TypeFault::Unknown(place) => at_place(alloc, names, place, b"unknown name"),
        TypeFault::Arity(place) => at_place(alloc, names, place, b"wrong number of arguments"),
        TypeFault::NotKnown(place) => at_place(alloc, names, place, b"value must be known"),
        TypeFault::Unsupported(place) => at_place(alloc, names, place, b"not supported"),
        TypeFault::Mismatch(place) => at_place(alloc, names, place, b"types do not fit"),
        TypeFault::Memory => Vec::from_slice(alloc, NO_MEMORY),
    }
}

fn fault_text(alloc: Global, names: &FileNames, fault: &Fault) -> Result<Vec<u8>, AllocError>
    ensures { IfOk result (λ text. text.items ≡ spec.fault_text
        (file_name names.now.model.now) fault.now) }
{
    match fault {
        Fault::LongFile(file) => of_file(alloc, names.of(*file), b"longer than 1048576 bytes"),
        Fault::Lex(place, kind) => at_place(alloc, names, place, fault_words(*kind)),
        Fault::Syntax(place) => at_place(alloc, names, place, b"syntax error"),
        Fault::Deep(place) => at_place(alloc, names, place, b"nested too deeply"),
        Fault::Typing(fault) => type_fault_text(alloc, names, fault),
        Fault::Form(file) => of_file(alloc, names.of(*file), b"not built yet"),
    }
}

/// Puts words that took memory, and answers the status that they are said of, or that of no memory.
fn put_made<E: Sink>(made: Result<Vec<u8>, AllocError>, status: Status, err: &mut E) -> Status
    ensures status { SaysName status → Remains status result }
    ensures reports { (names : ℕ → List ℕ) →
        IfOk made (λ text. text.items ≡ report_text names status) →
        Reports (report_text names result) (E.taken err.old) (E.faults err.old) (E.taken err.new)
        (E.faults err.new) }
{
    match made {
        Ok(text) => {
            put_report(text.as_slice(), err);
            status
        }
        Err(_) => {
            put_report(NO_MEMORY, err);
            Status::NoMemory
        }
    }
}

/// Says what the status means, in one put; nothing where the run is done.
pub fn report<E: Sink>(alloc: Global, names: &FileNames, status: Status, err: &mut E) -> Status
    ensures status { Remains status result }
    ensures reports { Reports (report_text (file_name names.now.model.now) result)
        (E.taken err.old) (E.faults err.old) (E.taken err.new) (E.faults err.new) }
{
    match &status {
        Status::Done(_, _) => status,
        Status::Usage => {
            put_report(USAGE, err);
            status
        }
        Status::WriteFault => {
            put_report(CANNOT_WRITE, err);
            status
        }
        Status::NoMemory => {
            put_report(NO_MEMORY, err);
            status
        }
        Status::ReadFault => {
            put_made(of_file(alloc, names.of(MODEL), b"cannot read"), status, err)
        }
        Status::Refused(fault) => {
            let text = fault_text(alloc, names, fault);
            put_made(text, status, err)
        }
    }
}
