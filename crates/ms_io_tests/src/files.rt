use ms_base::Bytes;
use ms_io::{FileFault, Files, MemFiles, OsFiles, read_whole};
use std::alloc::Global;
use std::io::{ErrorKind, Read};
use std::test::Fail;
use std::{fs, io, process};

fn read_twice<F: Files>(alloc: Global, files: &mut F, name: &str) -> Result<Bytes, FileFault> {
    files.read(alloc, name, 3)?;
    files.read(alloc, name, 3)
}

#[test]
fn held_files_are_read(rt: HostRuntime) -> Result<(), Fail> {
    let mut files = MemFiles::new(rt.alloc());
    files.hold("m", b"old")?;
    files.hold("n", b"")?;
    files.hold("m", b"var")?;
    files.fail(4)?;
    let read = read_twice(rt.alloc(), &mut files, "m")?;
    assert_eq!(rt; read.as_slice(), b"var".as_slice());
    assert!(rt; matches!(files.read(rt.alloc(), "m", 2), Err(FileFault::LongFile)));
    assert_eq!(rt; files.read(rt.alloc(), "n", 0)?.as_slice(), b"".as_slice());
    assert!(rt; matches!(files.read(rt.alloc(), "m", 3), Err(FileFault::Failed)));
    assert!(rt; matches!(files.read(rt.alloc(), "M", 3), Err(FileFault::Failed)));
    Ok(())
}

/// Gives its bytes one by one, each after an interrupted read, and then fails or ends.
#[derive(Drop)]
struct Slow {
    left: u8,
    is_interrupted: bool,
    ends_well: bool,
}

impl Read for Slow {
    fn read(&mut self, buf: &mut [u8]) -> io::Result<usize> {
        self.is_interrupted = !self.is_interrupted;
        if self.is_interrupted {
            return Err(io::Error::from(ErrorKind::Interrupted));
        }
        if self.left == 0 {
            return if self.ends_well {
                Ok(0)
            } else {
                Err(io::Error::from(ErrorKind::Other))
            };
        }
        if buf.is_empty() {
            return Ok(0);
        }
        buf[0] = self.left;
        self.left -= 1;
        Ok(1)
    }
}

fn reader_of(left: u8, ends_well: bool) -> Slow {
    Slow {
        left,
        is_interrupted: false,
        ends_well,
    }
}

#[test]
fn readers_are_read_in_parts(rt: HostRuntime) -> Result<(), Fail> {
    let read = read_whole(rt.alloc(), &mut reader_of(3, true), 3)?;
    assert_eq!(rt; read.as_slice(), [3, 2, 1].as_slice());
    let mut long = reader_of(9, false);
    assert!(rt;
        matches!(
            read_whole(rt.alloc(), &mut long, 3),
            Err(FileFault::LongFile)
        )
    );
    assert_eq!(rt; long.left, 5);
    let failing = read_whole(rt.alloc(), &mut reader_of(3, false), 3);
    assert!(rt; matches!(failing, Err(FileFault::Failed)));
    Ok(())
}

#[test]
fn files_of_the_system_are_read(rt: HostRuntime) -> Result<(), Fail> {
    let process = process::id(rt.process());
    let path = format!(in rt.alloc(); "/tmp/ms_io_{process}.txt")?;
    fs::write(&rt, path.as_str(), [7u8; 5000].as_slice())?;
    let mut files = OsFiles::new(rt.alloc(), &rt);
    let whole = files.read(rt.alloc(), path.as_str(), 5000)?;
    assert_eq!(rt; whole.as_slice(), [7u8; 5000].as_slice());
    let cases = [
        (path.as_str(), 4999, 1),
        ("/dev/zero", 100, 1),
        ("/", 100, 2),
        ("/tmp/ms_io/missing", 100, 2),
        ("", 100, 2),
        ("/dev/null", 0, 0),
    ];
    for (name, most, want) in cases {
        let code = match files.read(rt.alloc(), name, most) {
            Ok(_) => 0,
            Err(FileFault::LongFile) => 1,
            Err(FileFault::Failed) => 2,
            Err(FileFault::Memory) => 3,
        };
        assert_eq!(rt; code, want, "at {name}");
    }
    fs::remove_file(&rt, path.as_str())?;
    Ok(())
}
