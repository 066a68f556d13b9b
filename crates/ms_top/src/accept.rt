//! From the bytes of a file to the model that they are a text of, or the status of a run that has none.

ghost use Rattle.std.specs.Prelude.{◌≡◌, ◌≢◌, ◌<◌, ◌⊎◌, ◌++◌, ◌∷◌, [], ℕ, List, IsTrue, IfOk};
ghost use Rattle.std.specs.Prelude.{IfErr, IsOk, MatchResult, length, Err};
ghost use Rattle.ms_io.specs.Files.{HasFile, Rose};
ghost use Rattle.ms_lexer.specs.Reading.{FaultIs, IsAmong};
ghost use Rattle.ms_syntax.specs.Cut.{HasTokens, HasFault};
ghost use Rattle.ms_syntax.specs.Tree.{tree_view};
ghost use Rattle.ms_top.specs.Faults.{IsAccepted, IsShort};
ghost use Rattle.ms_top.specs.Plain as plain;
ghost use Rattle.ms_top.specs.Plain.{IsPlain};
ghost use Rattle.ms_top.specs.Refusal as refusal;
ghost use Rattle.ms_top.specs.Refusal.{ParseFaultIs, Refuses, RefusesFile, RefusesTree};
ghost use Rattle.ms_top.specs.Typing as typing;
ghost use Rattle.ms_top.specs.Typing.{HasTree, IsWellTyped};
ghost use Rattle.ms_top.specs.Words.{AsksFor, IsMissing};

use crate::form::{Unread, plain_model};
use crate::limits::is_small;
use crate::plain::PlainModel;
use crate::status::{Fault, Status};
use ms_base::FILE_LIMIT;
use ms_io::{FileFault, Files};
use ms_lexer::{LexFault, place_of, token_place, tokens};
use ms_parser::{ParseFault, model};
use ms_syntax::{FileNo, LexKind, Spanned, Tree};
use ms_types::{TypeFault, check};
use std::alloc::Global;

/// The number of the model's file.
pub const MODEL: FileNo = 0;

/// The number of the library's file.
pub const LIBRARY: FileNo = 2;

/// The refusal of bytes whose first fault is of this kind, at this byte.
fn refused_at(bytes: &[u8], at: usize, kind: LexKind) -> Status
    requires short { IsShort bytes.now }
    requires fault { HasFault bytes.now kind at }
    requires within { at < length bytes.now }
    ensures { Refuses bytes.now result }
{
    Status::Refused(Fault::Lex(place_of(MODEL, bytes, at), kind))
}

/// The refusal of bytes for their first fault.
fn lex_refusal(bytes: &[u8], fault: LexFault) -> Status
    requires short { IsShort bytes.now }
    requires fault { FaultIs bytes.now fault }
    requires among { IsAmong (length bytes.now) fault }
    ensures { Refuses bytes.now result }
{
    match fault {
        LexFault::BadByte(at) => refused_at(bytes, at, LexKind::BadByte),
        LexFault::OpenText(at) => refused_at(bytes, at, LexKind::OpenText),
        LexFault::OpenComment(at) => refused_at(bytes, at, LexKind::OpenComment),
        LexFault::BigNumber(at) => refused_at(bytes, at, LexKind::BigNumber),
        LexFault::Memory => Status::NoMemory,
    }
}

/// The refusal of bytes for the first fault of their tokens.
fn parse_refusal(bytes: &[u8], tokens: &[Spanned], fault: ParseFault) -> Status
    requires short { IsShort bytes.now }
    requires tokens { HasTokens 0 bytes.now tokens.now }
    requires fault { ParseFaultIs tokens.now fault }
    ensures { Refuses bytes.now result }
{
    match fault {
        ParseFault::Syntax(k) => Status::Refused(Fault::Syntax(token_place(
            MODEL, bytes, tokens, k,
        ))),
        ParseFault::Deep(k) => Status::Refused(Fault::Deep(token_place(MODEL, bytes, tokens, k))),
        ParseFault::Memory => Status::NoMemory,
    }
}

/// The tree that the grammar writes as the tokens.
fn tree_of(alloc: Global, bytes: &[u8], tokens: &[Spanned]) -> Result<Tree, Status>
    requires short { IsShort bytes.now }
    requires tokens { HasTokens 0 bytes.now tokens.now }
    ensures tree { IfOk result (λ t. HasTree tokens.now (tree_view t)) }
    ensures refused { IfErr result (λ e. Refuses bytes.now e) }
{
    match model(alloc, tokens) {
        Ok(tree) => Ok(tree),
        Err(fault) => Err(parse_refusal(bytes, tokens, fault)),
    }
}

/// The library beside which models are typed. It has no items yet.
fn library(alloc: Global) -> Tree
    ensures { (tree_view result).0 ≡ typing.library }
{
    Tree {
        items: Vec::new(alloc),
        closed: false,
    }
}

/// The refusal of a model for the first fault of its declarations and types.
fn type_refusal(fault: TypeFault) -> Status
    ensures { result ≡ refusal.type_refusal fault }
{
    match fault {
        TypeFault::Memory => Status::NoMemory,
        fault => Status::Refused(Fault::Typing(fault)),
    }
}

/// The small model of the plain form that a well typed tree is.
fn small_model(alloc: Global, tree: &Tree) -> Result<PlainModel, Status>
    requires typed { IsWellTyped (tree_view tree.now) }
    ensures plain { IfOk result (λ m. IsPlain m (tree_view tree.now)) }
    ensures not_plain { IfErr result (λ e. RefusesTree (tree_view tree.now) e) }
{
    match plain_model(alloc, tree) {
        Ok(model) => {
            if is_small(&model) {
                Ok(model)
            } else {
                Err(Status::Refused(Fault::Form(MODEL)))
            }
        }
        Err(unread) => match unread {
            Unread::NotPlain => Err(Status::Refused(Fault::Form(MODEL))),
            Unread::Memory => Err(Status::NoMemory),
        },
    }
}

/// The small model of the plain form that a tree is, where it is well typed.
fn tree_model(alloc: Global, tree: Tree) -> Result<PlainModel, Status>
    ensures typed { IsOk result → IsWellTyped (tree_view tree) }
    ensures plain { IfOk result (λ m. IsPlain m (tree_view tree)) }
    ensures refused { IfErr result (λ e. RefusesTree (tree_view tree) e) }
{
    match check(alloc, tree, library(alloc)) {
        Ok(typed) => small_model(alloc, typed.tree()),
        Err(fault) => Err(type_refusal(fault)),
    }
}

/// The small model of the plain form that bytes with these tokens are a text of.
fn model_of(alloc: Global, bytes: &[u8], tokens: &[Spanned]) -> Result<PlainModel, Status>
    requires short { IsShort bytes.now }
    requires tokens { HasTokens 0 bytes.now tokens.now }
    ensures accepted { IfOk result (λ m. IsAccepted bytes.now m) }
    ensures small { IfOk result (λ m. IsTrue (plain.is_small m)) }
    ensures refused { IfErr result (λ e. Refuses bytes.now e) }
{
    let tree = tree_of(alloc, bytes, tokens)?;
    tree_model(alloc, tree)
}

/// The model that bytes are a text of.
fn accepted_bytes(alloc: Global, bytes: &[u8]) -> Result<PlainModel, Status>
    requires { IsShort bytes.now }
    ensures accepted { IfOk result (λ m. IsAccepted bytes.now m) }
    ensures small { IfOk result (λ m. IsTrue (plain.is_small m)) }
    ensures refused { IfErr result (λ e. Refuses bytes.now e) }
{
    match tokens(alloc, MODEL, bytes) {
        Ok(tokens) => model_of(alloc, bytes, &tokens),
        Err(fault) => Err(lex_refusal(bytes, fault)),
    }
}

/// The model that the file of this name is a text of, or the status of a run that has none.
pub fn accepted_file<F: Files>(
    alloc: Global,
    file: &str,
    files: &mut F,
) -> Result<PlainModel, Status>
    ensures told { F.told files.new ≡ F.told files.old }
    ensures asks { MatchResult result
        (λ _. F.asked files.new ≡ F.asked files.old ++ file.now ∷ []) (λ e. AsksFor file.now e
        (F.asked files.old) (F.asked files.new)) }

    ensures accepted { (bytes : List ℕ) → HasFile (F.told files.old) file.now bytes →
        IfOk result (λ m. IsAccepted bytes m) }
    ensures small { IfOk result (λ m. IsTrue (plain.is_small m)) }
    ensures refused { (bytes : List ℕ) → HasFile (F.told files.old) file.now bytes →
        IfErr result (λ e. RefusesFile bytes e) }

    ensures read_fault { result ≡ Err Status.ReadFault →
        Rose (F.faults files.old) (F.faults files.new) }
    ensures failed_read { F.faults files.old < F.faults files.new → result ≡ Err Status.ReadFault }
    ensures missing { IsMissing (F.told files.old) file.now →
        (result ≡ Err Status.ReadFault) ⊎ (result ≡ Err Status.NoMemory) }
    ensures ends { IfErr result (λ e. (e ≢ Status.Usage) × (e ≢ Status.WriteFault)) }
{
    match files.read(alloc, file, FILE_LIMIT) {
        Ok(bytes) => accepted_bytes(alloc, bytes.as_slice()),
        Err(fault) => match fault {
            FileFault::Failed => Err(Status::ReadFault),
            FileFault::LongFile => Err(Status::Refused(Fault::LongFile(MODEL))),
            FileFault::Memory => Err(Status::NoMemory),
        },
    }
}
