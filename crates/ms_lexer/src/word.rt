//! Names and keywords.

ghost use Rattle.std.specs.Prelude.{IfOk, IfErr, ◌≡◌, ◌≢◌, IsTrue, ◌≤◌, ◌<◌, [], length};
ghost use Rattle.ms_syntax.specs.Form as spec;
ghost use Rattle.ms_syntax.specs.Keywords.{keyword_among};
ghost use Rattle.ms_lexer.specs.Keywords as group;
ghost use Rattle.ms_lexer.specs.Reading.{Shows, IsWithin, token_of};

use crate::bytes::is_name_byte;
use crate::fault::FormError;
use ms_syntax::{Keyword, Token, Word};
use std::alloc::Global;

/// How many bytes from the front may stand in a name.
fn name_len(bytes: &[u8]) -> usize
    ensures value { result ≡ spec.run spec.is_name_byte bytes.now }
    ensures within { result ≤ length bytes.now }
    ensures some { IsTrue (spec.is_name_byte (spec.byte_at bytes.now 0)) → bytes.now ≢ []
        → 0 < result }
{
    bytes.iter().take_while(|b| is_name_byte(**b)).count()
}

fn ann_to_endif(word: &[u8]) -> Option<Keyword>
    ensures { result ≡ keyword_among group.ann_to_endif word.now }
{
    if word == b"ann".as_slice() {
        Some(Keyword::Ann)
    } else if word == b"array".as_slice() {
        Some(Keyword::Array)
    } else if word == b"bool".as_slice() {
        Some(Keyword::Bool)
    } else if word == b"constraint".as_slice() {
        Some(Keyword::Constraint)
    } else if word == b"div".as_slice() {
        Some(Keyword::Div)
    } else if word == b"else".as_slice() {
        Some(Keyword::Else)
    } else if word == b"elseif".as_slice() {
        Some(Keyword::Elseif)
    } else if word == b"endif".as_slice() {
        Some(Keyword::Endif)
    } else {
        None
    }
}

fn enum_to_let(word: &[u8]) -> Option<Keyword>
    ensures { result ≡ keyword_among group.enum_to_let word.now }
{
    if word == b"enum".as_slice() {
        Some(Keyword::Enum)
    } else if word == b"false".as_slice() {
        Some(Keyword::False)
    } else if word == b"function".as_slice() {
        Some(Keyword::Function)
    } else if word == b"if".as_slice() {
        Some(Keyword::If)
    } else if word == b"in".as_slice() {
        Some(Keyword::In)
    } else if word == b"include".as_slice() {
        Some(Keyword::Include)
    } else if word == b"int".as_slice() {
        Some(Keyword::Int)
    } else if word == b"let".as_slice() {
        Some(Keyword::Let)
    } else {
        None
    }
}

fn maximize_to_predicate(word: &[u8]) -> Option<Keyword>
    ensures { result ≡ keyword_among group.maximize_to_predicate word.now }
{
    if word == b"maximize".as_slice() {
        Some(Keyword::Maximize)
    } else if word == b"minimize".as_slice() {
        Some(Keyword::Minimize)
    } else if word == b"mod".as_slice() {
        Some(Keyword::Mod)
    } else if word == b"not".as_slice() {
        Some(Keyword::Not)
    } else if word == b"of".as_slice() {
        Some(Keyword::Of)
    } else if word == b"output".as_slice() {
        Some(Keyword::Output)
    } else if word == b"par".as_slice() {
        Some(Keyword::Par)
    } else if word == b"predicate".as_slice() {
        Some(Keyword::Predicate)
    } else {
        None
    }
}

fn satisfy_to_xor(word: &[u8]) -> Option<Keyword>
    ensures { result ≡ keyword_among group.satisfy_to_xor word.now }
{
    if word == b"satisfy".as_slice() {
        Some(Keyword::Satisfy)
    } else if word == b"search".as_slice() {
        Some(Keyword::Search)
    } else if word == b"set".as_slice() {
        Some(Keyword::Set)
    } else if word == b"solve".as_slice() {
        Some(Keyword::Solve)
    } else if word == b"string".as_slice() {
        Some(Keyword::String)
    } else if word == b"then".as_slice() {
        Some(Keyword::Then)
    } else if word == b"true".as_slice() {
        Some(Keyword::True)
    } else if word == b"var".as_slice() {
        Some(Keyword::Var)
    } else if word == b"where".as_slice() {
        Some(Keyword::Where)
    } else if word == b"xor".as_slice() {
        Some(Keyword::Xor)
    } else {
        None
    }
}

/// The keyword that is spelled so.
#[tactic(auto, using(crate::proofs::Groups::found_last))]
fn keyword(word: &[u8]) -> Option<Keyword>
    ensures { result ≡ spec.keyword word.now }
{
    if let Some(keyword) = ann_to_endif(word) {
        return Some(keyword);
    }
    if let Some(keyword) = enum_to_let(word) {
        return Some(keyword);
    }
    if let Some(keyword) = maximize_to_predicate(word) {
        return Some(keyword);
    }
    satisfy_to_xor(word)
}

/// The name or the keyword at the front, as long as name bytes go on.
#[tactic(auto, unfolding(ms_syntax::specs::Form::word))]
pub fn word(alloc: Global, bytes: &[u8]) -> Result<(Token, usize), FormError>
    requires { IsTrue (spec.is_name_byte (spec.byte_at bytes.now 0)) × (bytes.now ≢ []) }
    ensures form { Shows token_of (spec.word bytes.now) result }
    ensures within { IfOk result (λ x. (0 < x.1) × (x.1 ≤ length bytes.now)) }
    ensures offset { IfErr result (IsWithin (length bytes.now)) }
{
    let len = name_len(bytes);
    let name = &bytes[..len];
    match keyword(name) {
        Some(keyword) => Ok((Token::Keyword(keyword), len)),
        None => Ok((Token::Name(Word::from_slice(alloc, name)?), len)),
    }
}
