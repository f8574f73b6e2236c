// Streams that fail, or give and take few bytes at a time.
use crate::failure::Failure;
use crate::streams::run;
use std::io;
use std::io::{ErrorKind, Read, Write};

const TEXT: &[u8] = b"(tile sum 1 1)\n(dir 0 1 (bins 002A))\n(end)\n";

const PICTURE: &[u8] = b"(picture sum 1 1)\n(row 002A)\n(end)\n";

// Takes so many bytes, three at most at a time, and then fails.
#[derive(Drop)]
struct Narrow {
    room: usize,
    taken: Vec<u8>,
}

impl Write for Narrow {
    fn write(&mut self, buf: &[u8]) -> io::Result<usize> {
        let count = buf.len().min(3).min(self.room);
        if count == 0 && !buf.is_empty() {
            return Err(io::Error::from(ErrorKind::BrokenPipe));
        }
        self.taken.extend_from_slice(&buf[..count])?;
        self.room -= count;
        Ok(count)
    }

    fn flush(&mut self) -> io::Result<()> {
        Ok(())
    }
}

// Fails at the first read.
#[derive(Drop)]
struct Broken;

impl Read for Broken {
    fn read(&mut self, _buf: &mut [u8]) -> io::Result<usize> {
        Err(io::Error::from(ErrorKind::BrokenPipe))
    }
}

#[test]
fn few_bytes_at_a_time(rt: HostRuntime) {
    let mut writer = Narrow {
        room: 100,
        taken: Vec::new(rt.alloc()),
    };
    assert!(rt; run(rt.alloc(), TEXT, &mut writer).is_ok());
    assert!(rt; writer.taken.as_slice() == PICTURE);
}

#[test]
fn a_writer_that_fails_has_a_first_part(rt: HostRuntime) {
    let mut writer = Narrow {
        room: 10,
        taken: Vec::new(rt.alloc()),
    };
    let answer = run(rt.alloc(), TEXT, &mut writer);
    assert!(rt; matches!(answer, Err(Failure::Write(_))));
    assert!(rt; writer.taken.as_slice() == &PICTURE[..10]);
}

#[test]
fn a_reader_that_fails_is_answered_with_nothing(rt: HostRuntime) {
    let mut written = Vec::new(rt.alloc());
    let answer = run(rt.alloc(), Broken, &mut written);
    assert!(rt; matches!(answer, Err(Failure::Read(_))));
    assert!(rt; written.is_empty());
}
