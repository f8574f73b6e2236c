// Reading: as much as tells whether an input is too long.

use answers::answer::MOST_BYTES;
use std::alloc::Global;
use std::fs::File;
use std::io;
use std::io::Read;

/// The first bytes that there are to read, one more than an input may have.
fn read_front<R: Read + Drop>(alloc: Global, reader: R) -> io::Result<Vec<u8>> {
    let mut text = Vec::new(alloc);
    reader.take(MOST_BYTES as u64 + 1).read_to_end(&mut text)?;
    Ok(text)
}

pub(crate) fn read_file(rt: &HostRuntime, path: &str) -> io::Result<Vec<u8>> {
    read_front(rt.alloc(), File::open(rt, path)?)
}

pub(crate) fn read_input(rt: &HostRuntime) -> io::Result<Vec<u8>> {
    read_front(rt.alloc(), rt.stdin())
}

/// Tells on standard error what is wrong with a file.
pub(crate) fn complain(rt: &HostRuntime, path: &str, error: &io::Error) -> io::Result<()> {
    eprintln!(rt; "{path}: {error}")
}
