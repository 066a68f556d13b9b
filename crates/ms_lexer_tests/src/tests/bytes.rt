//! Bytes and their tokens, places and faults.

use ms_base::FILE_LIMIT;
use ms_lexer::{LexFault, place_of, token_place, tokens};
use ms_syntax::Token;
use std::alloc::{AllocError, Global};
use std::test::Fail;

/// A name in backquotes, the bytes of a text, the digits of a number, a keyword or a symbol by its own
/// name.
fn shown(alloc: Global, token: &Token) -> Result<String, AllocError> {
    match token {
        Token::Name(word) => {
            let name = String::from_utf8_lossy(alloc, word.as_slice())?;
            format!(in alloc; "`{name}`")
        }
        Token::Text(word) => format!(in alloc; "{:?}", word.as_slice()),
        Token::Number(value) => format!(in alloc; "{value}"),
        Token::Keyword(keyword) => format!(in alloc; "{keyword:?}"),
        Token::Symbol(symbol) => format!(in alloc; "{symbol:?}"),
    }
}

/// Texts with their tokens.
const CUTS: [(&[u8], &str); 24] = [
    (b"x<-1", "`x` LeftArrow 1 "),
    (b"", ""),
    (b" \t\r\n", ""),
    (
        b"ann array bool constraint div else elseif endif enum false function if",
        "Ann Array Bool Constraint Div Else Elseif Endif Enum False Function If ",
    ),
    (
        b"in include int let maximize minimize mod not of output par predicate",
        "In Include Int Let Maximize Minimize Mod Not Of Output Par Predicate ",
    ),
    (
        b"satisfy search set solve string then true var where xor",
        "Satisfy Search Set Solve String Then True Var Where Xor ",
    ),
    (b"If iff if_ i A_9z", "`If` `iff` `if_` `i` `A_9z` "),
    (
        b"<-> -> <- <= >= == != \\/ /\\ .. ++ :: [| |]",
        "DoubleArrow RightArrow LeftArrow AtMost AtLeast Equal NotEqual Or And DotDot PlusPlus ColonColon OpenRows CloseRows ",
    ),
    (
        b"< > = + - * ( ) [ ]",
        "Less Greater Equal Plus Minus Star OpenParenthesis CloseParenthesis OpenBracket CloseBracket ",
    ),
    (
        b"{ } , ; : |",
        "OpenBrace CloseBrace Comma Semicolon Colon Bar ",
    ),
    (b"<-->", "LeftArrow RightArrow "),
    (b"<=>", "AtMost Greater "),
    (b"===", "Equal Equal "),
    (b":::+++", "ColonColon Colon PlusPlus Plus "),
    (b"[||][|]", "OpenRows CloseRows OpenRows CloseBracket "),
    (b"1..3", "1 DotDot 3 "),
    (
        b"9223372036854775807 0009223372036854775807 0",
        "9223372036854775807 9223372036854775807 0 ",
    ),
    (b"\"\" \"a\\n\\t\\\"\\\\b\"", "[] [97, 10, 9, 34, 92, 98] "),
    (b"\"\t\x80\xFF%/*\"", "[9, 128, 255, 37, 47, 42] "),
    (b"a % b\x80\x00 \"\nc", "`a` `c` "),
    (b"a % b", "`a` "),
    (b"a/* /* */b", "`a` `b` "),
    (b"a/**//*\x80\x00\n*/b", "`a` `b` "),
    (b"% a\rb\nc", "`c` "),
];

#[test]
fn cuts_at_the_longest_form(rt: HostRuntime) -> Result<(), Fail> {
    for (text, want) in CUTS {
        assert!(rt; text.len() <= FILE_LIMIT);
        let mut line = String::new(rt.alloc());
        for spanned in tokens(rt.alloc(), 0, text)?.iter() {
            let token = shown(rt.alloc(), &spanned.token)?;
            line.push_str(token.as_str())?;
            line.push_str(" ")?;
        }
        assert_eq!(rt; line.as_str(), want);
    }
    Ok(())
}

#[test]
fn tells_where_tokens_stand(rt: HostRuntime) -> Result<(), Fail> {
    let text = b"a\r\n\t\"\xC3\xA9\" 12\n/*\n*/bc".as_slice();
    let places = [(0, 1, 1, 1), (4, 8, 2, 2), (9, 11, 2, 7), (17, 19, 4, 3)];
    let found = tokens(rt.alloc(), 2, text)?;
    assert_eq!(rt; found.len(), places.len());
    for (spanned, (start, end, line, col)) in found.iter().zip(places) {
        assert_eq!(rt; (spanned.start, spanned.end), (start, end));
        assert_eq!(rt;
            (spanned.place.file, spanned.place.line, spanned.place.col),
            (2, line, col)
        );
    }
    let third = token_place(2, text, &found, 2);
    assert_eq!(rt; (third.file, third.line, third.col), (2, 2, 7));
    let end = token_place(2, text, &found, 4);
    assert_eq!(rt; (end.line, end.col), (4, 5));
    Ok(())
}

/// Texts with their first fault, its byte, and the line and the column of that.
const FAULTS: [(&[u8], &str); 34] = [
    (b"\"ab", "OpenText(0) 1:1"),
    (b"9223372036854775808", "BigNumber(0) 1:1"),
    (b"a 99999999999999999999x", "BigNumber(2) 1:3"),
    (b"1x", "BadByte(1) 1:2"),
    (b"12_", "BadByte(2) 1:3"),
    (b"_x", "BadByte(0) 1:1"),
    (b"a.b", "BadByte(1) 1:2"),
    (b"...", "BadByte(2) 1:3"),
    (b"1.5", "BadByte(1) 1:2"),
    (b"a / b", "BadByte(2) 1:3"),
    (b"/", "BadByte(0) 1:1"),
    (b"\\", "BadByte(0) 1:1"),
    (b"\\n", "BadByte(0) 1:1"),
    (b"!", "BadByte(0) 1:1"),
    (b"a#", "BadByte(1) 1:2"),
    (b"a\x00", "BadByte(1) 1:2"),
    (b"a\n\n\t\x80", "BadByte(4) 3:2"),
    (b"\x0B", "BadByte(0) 1:1"),
    (b"a\r\n \"b\\q\"", "BadByte(6) 2:4"),
    (b"\"a\x00\"", "BadByte(2) 1:3"),
    (b"\"a\x7F\"", "BadByte(2) 1:3"),
    (b"\"a\r\n\"", "BadByte(2) 1:3"),
    (b"\"a\x1F", "BadByte(2) 1:3"),
    (b"\"ab\\", "BadByte(3) 1:4"),
    (b"\"ab\\\n", "BadByte(3) 1:4"),
    (b"\"ab\n\x00\"", "OpenText(0) 1:1"),
    (b"\"a\" \"", "OpenText(4) 1:5"),
    (b"\"\\\"", "OpenText(0) 1:1"),
    (b"/*", "OpenComment(0) 1:1"),
    (b"a\n /*/", "OpenComment(3) 2:2"),
    (b"/* *", "OpenComment(0) 1:1"),
    (b"/* *\x80 /* \"", "OpenComment(0) 1:1"),
    (b"% /*\n\"*/", "OpenText(5) 2:1"),
    (b"/* */ */ \x00", "BadByte(7) 1:8"),
];

#[test]
fn names_the_first_fault(rt: HostRuntime) -> Result<(), Fail> {
    for (text, want) in FAULTS {
        assert!(rt; text.len() <= FILE_LIMIT);
        let Err(fault) = tokens(rt.alloc(), 1, text) else {
            return Err(Fail::from("tokens where a fault stands"));
        };
        let at = byte_of(fault);
        assert!(rt; at <= text.len());
        let place = place_of(1, text, at);
        assert_eq!(rt; place.file, 1);
        let found = format!(in rt.alloc(); "{fault:?} {}:{}", place.line, place.col)?;
        assert_eq!(rt; found.as_str(), want);
    }
    Ok(())
}

fn byte_of(fault: LexFault) -> usize {
    match fault {
        LexFault::BadByte(at)
        | LexFault::OpenText(at)
        | LexFault::OpenComment(at)
        | LexFault::BigNumber(at) => at,
        LexFault::Memory => 0,
    }
}

#[test]
fn faults_are_shown(rt: HostRuntime) -> Result<(), Fail> {
    let text = format!(in rt.alloc(); "{}", LexFault::OpenText(3))?;
    assert_eq!(rt;
        text.as_str(),
        "the text at byte 3 is not closed in its line"
    );
    Ok(())
}
