use ms_io::{MemSink, Sink, StdSink, put_report};
use std::fs::OpenOptions;
use std::io;
use std::io::{ErrorKind, Write};
use std::test::Fail;

fn put_all<K: Sink>(sink: &mut K, pieces: &[&[u8]]) -> u64 {
    let mut refused = 0;
    for piece in pieces {
        if sink.put(piece).is_err() {
            refused = 1u64.saturating_add(refused);
        }
    }
    refused
}

#[test]
fn held_bytes_grow(rt: HostRuntime) -> Result<(), Fail> {
    // the put that fails, how many bytes it takes, and what is held after `ab`, ``, `cde`
    let cases: [(u64, usize, &[u8]); 7] = [
        (0, 0, b"cde"),
        (0, 1, b"acde"),
        (0, 9, b"abcde"),
        (1, 3, b"abcde"),
        (2, 0, b"ab"),
        (2, 2, b"abcd"),
        (3, 0, b"abcde"),
    ];
    for (call, taken, held) in cases {
        let mut sink = MemSink::new(rt.alloc());
        sink.fail(call, 7)?;
        sink.fail(call, taken)?;
        let refused = put_all(&mut sink, &[b"ab", b"", b"cde"]);
        assert_eq!(rt; sink.bytes(), held, "the put {call} fails after {taken}");
        assert_eq!(rt; refused, if call < 3 { 1 } else { 0 });
    }
    Ok(())
}

#[test]
fn reports_are_put(rt: HostRuntime) -> Result<(), Fail> {
    let mut sink = MemSink::new(rt.alloc());
    sink.fail(1, 2)?;
    put_report(b"one, ", &mut sink);
    put_report(b"two", &mut sink);
    assert_eq!(rt; sink.bytes(), b"one, tw".as_slice());
    Ok(())
}

/// Takes one byte at each second write, and is interrupted at the others; past its room it takes nothing.
#[derive(Drop)]
struct Slow {
    taken: u64,
    room: u64,
    is_interrupted: bool,
}

impl Write for Slow {
    fn write(&mut self, buf: &[u8]) -> io::Result<usize> {
        self.is_interrupted = !self.is_interrupted;
        if self.is_interrupted {
            return Err(io::Error::from(ErrorKind::Interrupted));
        }
        if buf.is_empty() || self.taken >= self.room {
            return Ok(0);
        }
        self.taken += 1;
        Ok(1)
    }

    fn flush(&mut self) -> io::Result<()> {
        Ok(())
    }
}

#[test]
fn writers_take_in_parts(rt: HostRuntime) {
    for (room, is_whole) in [(3, true), (2, false), (0, false)] {
        let slow = Slow {
            taken: 0,
            room,
            is_interrupted: false,
        };
        let mut sink = StdSink::new(slow);
        assert_eq!(rt; sink.put(b"abc").is_ok(), is_whole);
        assert_eq!(rt; sink.into_writer().taken, room);
    }
}

#[test]
fn streams_of_the_system_take(rt: HostRuntime) -> Result<(), Fail> {
    let mut out = StdSink::new(rt.stdout());
    out.put(b"to standard output\n")?;
    let mut err = StdSink::new(rt.stderr());
    err.put(b"to standard error\n")?;
    let mut full = StdSink::new(OpenOptions::new().write(true).open(&rt, "/dev/full")?);
    full.put(b"")?;
    assert!(rt; full.put(b"a").is_err());
    Ok(())
}
