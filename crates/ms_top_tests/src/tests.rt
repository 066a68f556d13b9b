//! The program over files and sinks in memory.

use ms_base::Closing;
use ms_io::{MemFiles, MemSink, Sink};
use ms_syntax::{LexKind, Place};
use ms_top::{Fault, Status, one_outcome, run};
use ms_types::TypeFault;
use std::alloc::{AllocError, Global};
use std::process::Abort;
use std::test::Fail;

fn words(alloc: Global, list: &[&str]) -> Result<Vec<String>, AllocError> {
    let mut words = Vec::new(alloc);
    for word in list {
        words.push(String::from_str(alloc, *word)?)?;
    }
    Ok(words)
}

/// Holds the program's answer for the bytes of a model against what should be written and said, of which one is
/// nothing. What is said has the kind and the place of a fault.
fn answers(
    rt: &impl Abort,
    alloc: Global,
    model: &[u8],
    out: &[u8],
    err: &[u8],
) -> Result<(), AllocError> {
    let mut files = MemFiles::new(alloc);
    files.hold("m.mzn", model)?;
    // One put writes the answer, and one says what is wrong: the put after it is the first that is not made.
    let mut written = MemSink::new(alloc);
    written.fail(u64::from(!out.is_empty()), 0)?;
    let mut said = MemSink::new(alloc);
    said.fail(u64::from(!err.is_empty()), 0)?;
    let words = words(alloc, &["minisearch", "m.mzn"])?;
    let answer = run(alloc, &words, &mut files, &mut written, &mut said);
    assert_eq!(rt; answer.code(), u8::from(!err.is_empty()));
    assert_eq!(rt; written.bytes(), out);
    assert_eq!(rt; said.bytes(), err);
    assert!(rt; written.put(b"more").is_err());
    assert!(rt; said.put(b"more").is_err());
    Ok(())
}

/// The status for the bytes of a model.
fn status_of(alloc: Global, model: &[u8]) -> Result<Status, AllocError> {
    let mut files = MemFiles::new(alloc);
    files.hold("m.mzn", model)?;
    let mut written = MemSink::new(alloc);
    let mut said = MemSink::new(alloc);
    let words = words(alloc, &["minisearch", "m.mzn"])?;
    Ok(run(alloc, &words, &mut files, &mut written, &mut said))
}

/// A model, what is written for it, and what is said.
const ANSWERS: [(&[u8], &[u8], &[u8]); 26] = [
    (
        b"var 1..3: x; var 1..3: y; constraint x + y = 4; constraint x < y; solve satisfy;",
        b"x = 1;\ny = 3;\n----------\n",
        b"",
    ),
    (
        b"var 1..2: x; constraint x < x; solve satisfy;",
        b"=====UNSATISFIABLE=====\n",
        b"",
    ),
    (
        b"var -1..1: a;var 0 .. 2:b;constraint a+b+1>=-1+4;constraint a!=b ; solve satisfy;",
        b"a = 0;\nb = 2;\n----------\n",
        b"",
    ),
    (b"solve satisfy", b"----------\n", b""),
    (
        b"% one\r\nsolve /* two */ satisfy;\r\n",
        b"----------\n",
        b"",
    ),
    (
        b"var 1..0: x; solve satisfy;",
        b"=====UNSATISFIABLE=====\n",
        b"",
    ),
    (
        b"var 2..9: x; constraint x <= 3; constraint x > 2; constraint x == 3; solve satisfy;",
        b"x = 3;\n----------\n",
        b"",
    ),
    (
        b"var -1000000..0: x; solve satisfy;",
        b"x = -1000000;\n----------\n",
        b"",
    ),
    (
        b"var -1000001..0: x; solve satisfy;",
        b"",
        b"m.mzn: not built yet\n",
    ),
    (b"", b"", b"m.mzn: no solve item\n"),
    (b" \t\r\n", b"", b"m.mzn: no solve item\n"),
    (b"var 1..3 x;", b"", b"m.mzn:1:10: syntax error\n"),
    (b"solve minimize 3;", b"", b"m.mzn: not built yet\n"),
    (
        b"var 1..3: x; constraint x = (1); solve satisfy;",
        b"",
        b"m.mzn: not built yet\n",
    ),
    (
        b"constraint 1 = 1; var 1..3: x; solve satisfy;",
        b"",
        b"m.mzn: not built yet\n",
    ),
    (
        b"solve satisfy; constraint 1 = 1",
        b"",
        b"m.mzn: not built yet\n",
    ),
    (
        b"varx 1..3: x; solve satisfy;",
        b"",
        b"m.mzn:1:6: syntax error\n",
    ),
    (
        b"var 1..: x; solve satisfy;",
        b"",
        b"m.mzn:1:8: syntax error\n",
    ),
    (b"solve satisfy;;", b"", b"m.mzn:1:15: syntax error\n"),
    (
        b"constraint 1 < 2 < 3; solve satisfy;",
        b"",
        b"m.mzn:1:18: syntax error\n",
    ),
    (
        b"constraint a < b < c; solve satisfy;",
        b"",
        b"m.mzn:1:18: syntax error\n",
    ),
    (b"\n solve % not yet\n", b"", b"m.mzn:2:7: syntax error\n"),
    (
        b"solve satisfy;\n\xff",
        b"",
        b"m.mzn:2:1: unexpected byte\n",
    ),
    (b"\"ab", b"", b"m.mzn:1:1: text is not closed\n"),
    (b" /* a", b"", b"m.mzn:1:2: comment is not closed\n"),
    (
        b"9223372036854775808",
        b"",
        b"m.mzn:1:1: number too large\n",
    ),
];

#[test]
fn models_are_answered(rt: HostRuntime) -> Result<(), Fail> {
    for (model, out, err) in ANSWERS {
        answers(&rt, rt.alloc(), model, out, err)?;
    }
    Ok(())
}

/// Models of the grammar with a fault of declarations or types, and what is said of them: each kind, and the kinds in
/// their order, of which the first counts; a model that is not of the plain form is told for its types.
const ILL_TYPED: [(&[u8], &[u8]); 20] = [
    (
        b"include \"other.mzn\"; solve satisfy;",
        b"m.mzn:1:1: file cannot be included\n",
    ),
    (
        b"var 1..2: x;\nvar 1..2: y;\n var 1..2: x;\nsolve satisfy;",
        b"m.mzn:3:2: declared twice\n",
    ),
    (
        b"solve satisfy; solve satisfy;",
        b"m.mzn:1:16: declared twice\n",
    ),
    (
        b"var 1..3: x; var 1..3: sum; solve satisfy;",
        b"m.mzn:1:14: declared twice\n",
    ),
    (b"var 1..3: x;", b"m.mzn: no solve item\n"),
    (
        b"int: a = b; int: b = a; solve satisfy;",
        b"m.mzn:1:1: definitions form a cycle\n",
    ),
    (
        b"constraint y > 0; solve satisfy;",
        b"m.mzn:1:12: unknown name\n",
    ),
    (
        b"constraint abs(1, 2) > 0; solve satisfy;",
        b"m.mzn:1:12: wrong number of arguments\n",
    ),
    (
        b"var 1..3: y; var 1..y: x; solve satisfy;",
        b"m.mzn:1:19: value must be known\n",
    ),
    (b"enum Day; solve satisfy;", b"m.mzn:1:1: not supported\n"),
    (
        b"int: x = \"a\"; solve satisfy;",
        b"m.mzn:1:1: types do not fit\n",
    ),
    (
        b"var 1..3: x; constraint x<-1; solve satisfy;",
        b"m.mzn:1:26: types do not fit\n",
    ),
    (
        b"constraint 3; solve satisfy;",
        b"m.mzn:1:1: types do not fit\n",
    ),
    (
        b"constraint y > 0; int: a = a; int: b; int: b; include \"o.mzn\";",
        b"m.mzn:1:47: file cannot be included\n",
    ),
    (
        b"constraint y > 0; int: a = a; int: b; int: b;",
        b"m.mzn:1:39: declared twice\n",
    ),
    (
        b"constraint y > 0; int: a = a; int: b;",
        b"m.mzn: no solve item\n",
    ),
    (
        b"constraint y > 0; int: a = a; solve satisfy;",
        b"m.mzn:1:19: definitions form a cycle\n",
    ),
    (
        b"constraint y > 0; solve satisfy",
        b"m.mzn:1:12: unknown name\n",
    ),
    (
        b"constraint y > 0 solve satisfy;",
        b"m.mzn:1:18: syntax error\n",
    ),
    (b"solve minimize next();", b"m.mzn:1:16: types do not fit\n"),
];

#[test]
fn ill_typed_models_are_refused(rt: HostRuntime) -> Result<(), Fail> {
    for (model, err) in ILL_TYPED {
        answers(&rt, rt.alloc(), model, b"", err)?;
    }
    Ok(())
}

/// The status has the kind and the place of a fault, or the closing.
#[test]
fn statuses_are_told(rt: HostRuntime) -> Result<(), Fail> {
    let alloc = rt.alloc();
    let place = Place {
        file: 0,
        line: 2,
        col: 1,
    };
    let lex = status_of(alloc, b"\n_")?;
    assert!(rt; matches!(lex, Status::Refused(Fault::Lex(at, LexKind::BadByte)) if at == place));
    let syntax = status_of(alloc, b"\n;")?;
    assert!(rt; matches!(syntax, Status::Refused(Fault::Syntax(at)) if at == place));
    let twice = status_of(alloc, b"solve satisfy;\nsolve satisfy")?;
    let Status::Refused(Fault::Typing(TypeFault::Twice(earlier, later))) = twice else {
        panic!(rt; "another status");
    };
    assert_eq!(rt; earlier.line, 1);
    assert_eq!(rt; later, place);
    let form = status_of(alloc, b"solve minimize 3")?;
    assert!(rt; matches!(form, Status::Refused(Fault::Form(0))));
    let plain = status_of(alloc, b"solve satisfy")?;
    assert!(rt; matches!(plain, Status::Done(Closing::Plain, None)));
    let none = status_of(alloc, b"var 1..0: x; solve satisfy")?;
    assert!(rt; matches!(none, Status::Done(Closing::Unsatisfiable, None)));
    Ok(())
}

/// The text, so many times, and then an end.
fn repeated(alloc: Global, text: &[u8], times: usize, end: &[u8]) -> Result<Vec<u8>, AllocError> {
    let mut bytes = Vec::new(alloc);
    for _ in 0..times {
        bytes.extend_from_slice(text)?;
    }
    bytes.extend_from_slice(end)?;
    Ok(bytes)
}

/// So many declarations, of the names `a`, `b` and on.
fn declared(alloc: Global, names: &[u8]) -> Result<Vec<u8>, AllocError> {
    let mut bytes = Vec::new(alloc);
    for name in names {
        bytes.extend_from_slice(b"var 0..1: ")?;
        bytes.push(*name)?;
        bytes.extend_from_slice(b";")?;
    }
    bytes.extend_from_slice(b"solve satisfy;")?;
    Ok(bytes)
}

/// A front, the text so many times, and then an end.
fn within(
    alloc: Global,
    front: &[u8],
    text: &[u8],
    times: usize,
    end: &[u8],
) -> Result<Vec<u8>, AllocError> {
    let mut bytes = Vec::from_slice(alloc, front)?;
    bytes.extend_from_slice(&repeated(alloc, text, times, end)?)?;
    Ok(bytes)
}

/// The longest file, and one byte more; the same length of bytes that are no model.
#[test]
fn files_are_short(rt: HostRuntime) -> Result<(), Fail> {
    let alloc = rt.alloc();
    let longest = repeated(alloc, b" ", 1048562, b"solve satisfy;")?;
    answers(&rt, alloc, &longest, b"----------\n", b"")?;
    let longer = repeated(alloc, b" ", 1048563, b"solve satisfy;")?;
    let text = b"m.mzn: longer than 1048576 bytes\n".as_slice();
    answers(&rt, alloc, &longer, b"", text)?;
    let other = repeated(alloc, b";", 1048576, b"")?;
    let text = b"m.mzn:1:1: syntax error\n".as_slice();
    answers(&rt, alloc, &other, b"", text)?;
    Ok(())
}

/// Eight declarations and nine, a hundred terms and one more, the greatest number and one more.
#[test]
fn plain_models_are_small(rt: HostRuntime) -> Result<(), Fail> {
    let alloc = rt.alloc();
    let eight = declared(alloc, b"abcdefgh")?;
    let zeros = b"a = 0;\nb = 0;\nc = 0;\nd = 0;\ne = 0;\nf = 0;\ng = 0;\nh = 0;\n----------\n";
    answers(&rt, alloc, &eight, zeros, b"")?;
    let end = b"0 = 0; solve satisfy;".as_slice();
    let hundred = within(alloc, b"constraint ", b"0 + ", 99, end)?;
    answers(&rt, alloc, &hundred, b"----------\n", b"")?;
    let greatest = b"var 0..1000000: x; constraint x >= 1000000; solve satisfy;".as_slice();
    answers(&rt, alloc, greatest, b"x = 1000000;\n----------\n", b"")?;

    let form = b"m.mzn: not built yet\n".as_slice();
    let nine = declared(alloc, b"abcdefghi")?;
    answers(&rt, alloc, &nine, b"", form)?;
    let more = within(alloc, b"constraint ", b"0 + ", 100, end)?;
    answers(&rt, alloc, &more, b"", form)?;
    let greater = b"var 0..1000001: x; solve satisfy;".as_slice();
    answers(&rt, alloc, greater, b"", form)?;
    Ok(())
}

/// Two hundred brackets, one in another, and one more.
#[test]
fn brackets_nest_so_deep(rt: HostRuntime) -> Result<(), Fail> {
    let alloc = rt.alloc();
    let opened = within(alloc, b"constraint ", b"(", 200, b"true")?;
    let nested = within(alloc, &opened, b")", 200, b"; solve satisfy;")?;
    answers(&rt, alloc, &nested, b"", b"m.mzn: not built yet\n")?;
    let deep = within(alloc, b"constraint ", b"(", 201, b"")?;
    let text = b"m.mzn:1:212: nested too deeply\n".as_slice();
    answers(&rt, alloc, &deep, b"", text)?;
    Ok(())
}

/// Each beginning of a model's text is refused, up to that from which only the last mark is missing.
#[test]
fn cut_texts_are_answered(rt: HostRuntime) -> Result<(), Fail> {
    let alloc = rt.alloc();
    let text =
        b"var 1..3: x; var 1..3: y; constraint x + y = 4; constraint x < y; solve satisfy;".as_slice();
    for (len, _) in text.iter().enumerate() {
        let mut files = MemFiles::new(alloc);
        let (front, behind) = text.split_at(len);
        files.hold("m.mzn", front)?;
        let mut written = MemSink::new(alloc);
        let mut said = MemSink::new(alloc);
        let words = words(alloc, &["minisearch", "m.mzn"])?;
        let answer = run(alloc, &words, &mut files, &mut written, &mut said);
        if behind == b";".as_slice() {
            assert!(rt; matches!(answer, Status::Done(Closing::Plain, None)));
        } else {
            let is_fault = matches!(
                answer,
                Status::Refused(
                    Fault::Syntax(_) | Fault::Lex(_, _) | Fault::Typing(TypeFault::NoSolve)
                )
            );
            assert!(rt; is_fault);
            assert_eq!(rt; written.bytes(), b"".as_slice());
        }
    }
    Ok(())
}

/// The words have to be two; nothing is read otherwise.
#[test]
fn words_are_two(rt: HostRuntime) -> Result<(), Fail> {
    let alloc = rt.alloc();
    for list in [
        ["minisearch"].as_slice(),
        ["minisearch", "m.mzn", "d.dzn"].as_slice(),
    ] {
        let mut files = MemFiles::new(alloc);
        files.hold("m.mzn", b"solve satisfy;")?;
        let mut written = MemSink::new(alloc);
        let mut said = MemSink::new(alloc);
        let words = words(alloc, list)?;
        let answer = run(alloc, &words, &mut files, &mut written, &mut said);
        assert!(rt; matches!(answer, Status::Usage));
        assert_eq!(rt; answer.code(), 2);
        assert_eq!(rt; written.bytes(), b"".as_slice());
        assert_eq!(rt; said.bytes(), b"one model file is wanted\n".as_slice());
    }
    one_outcome();
    Ok(())
}

/// A file that is not there, and one whose read fails.
#[test]
fn reads_fail(rt: HostRuntime) -> Result<(), Fail> {
    let alloc = rt.alloc();
    let mut files = MemFiles::new(alloc);
    files.hold("m.mzn", b"solve satisfy;")?;
    files.fail(1)?;
    for (file, text) in [
        ("other.mzn", b"other.mzn: cannot read\n".as_slice()),
        ("m.mzn", b"m.mzn: cannot read\n"),
    ] {
        let mut written = MemSink::new(alloc);
        let mut said = MemSink::new(alloc);
        let words = words(alloc, &["minisearch", file])?;
        let answer = run(alloc, &words, &mut files, &mut written, &mut said);
        assert!(rt; matches!(answer, Status::ReadFault));
        assert_eq!(rt; answer.code(), 3);
        assert_eq!(rt; written.bytes(), b"".as_slice());
        assert_eq!(rt; said.bytes(), text);
    }
    Ok(())
}

/// A put that fails after three bytes, and a report of which one byte is taken.
#[test]
fn puts_fail(rt: HostRuntime) -> Result<(), Fail> {
    let alloc = rt.alloc();
    let mut files = MemFiles::new(alloc);
    files.hold("m.mzn", b"var 1..2: x; solve satisfy;")?;
    let mut written = MemSink::new(alloc);
    written.fail(0, 3)?;
    let mut said = MemSink::new(alloc);
    said.fail(0, 1)?;
    let words = words(alloc, &["minisearch", "m.mzn"])?;
    let answer = run(alloc, &words, &mut files, &mut written, &mut said);
    assert!(rt; matches!(answer, Status::WriteFault));
    assert_eq!(rt; answer.code(), 4);
    assert_eq!(rt; written.bytes(), b"x =".as_slice());
    assert_eq!(rt; said.bytes(), b"c".as_slice());
    Ok(())
}
