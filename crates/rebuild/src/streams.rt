// From a reader to a writer: what is written for what there is to read, and what a failed read or write leaves.
ghost use Rattle.std.specs.Prelude.{◌≡◌, ◌+◌, IfOk, IfErr, OnOk, OnErr, IfSome, take};
ghost use Rattle.std.specs.Io.KnownBytes.{Appends};
ghost use Rattle.answers.specs.Answers.{program_answer};
ghost use Rattle.answers.specs.Tiles.{most_bytes};
ghost use Rattle.rebuild.specs.Failures.{IsUnread};
ghost use Rattle.rebuild.specs.Fronts.{AppendsFront};

use crate::failure::Failure;
use answers::answer::{MOST_BYTES, MOST_OUTPUT, answer};
use std::alloc::Global;
use std::io;
use std::io::{ErrorKind, Read, Write};

// The first bytes that there are to read: one more than may be, so that a longer input is told.
fn read_front<R: Read + Drop>(alloc: Global, reader: R) -> io::Result<Vec<u8>>
    ensures { IfOk result (λ text. IfSome (R.remaining reader) (λ input.
        text.items ≡ take (most_bytes + 1) input)) }
{
    let mut text = Vec::new(alloc);
    reader.take(MOST_BYTES as u64 + 1).read_to_end(&mut text)?;
    Ok(text)
}

// Writes all bytes, or fails behind a first part of them. (The library's `write_all` does not say what it leaves where it fails.)
fn write_whole<W: Write>(bytes: &[u8], writer: &mut W) -> io::Result<()>
    ensures written { OnOk result (Appends (W.contents writer.old) (W.contents writer.new) bytes.now) }
    ensures failed { OnErr result (AppendsFront (W.contents writer.old) (W.contents writer.new) bytes.now) }
{
    let mut written = 0;
    // An interrupted write is tried again; each of the others ends the loop, or writes more.
    for _ in 0..u64::MAX {
        if written == bytes.len() {
            return Ok(());
        }
        match writer.write(&bytes[written..]) {
            Ok(0) => break,
            Ok(count) => written += count,
            Err(error) => {
                if error.kind() != ErrorKind::Interrupted {
                    return Err(error);
                }
            }
        }
    }
    Err(io::Error::from(ErrorKind::WriteZero))
}

// Writes the answer to a text.
fn write_answer<W: Write>(text: &[u8], writer: &mut W) -> io::Result<()>
    ensures written { OnOk result
        (Appends (W.contents writer.old) (W.contents writer.new) (program_answer text.now)) }
    ensures failed { OnErr result
        (AppendsFront (W.contents writer.old) (W.contents writer.new) (program_answer text.now)) }
{
    let mut out = [0; MOST_OUTPUT];
    let Ok(len) = answer(text, &mut out) else {
        unreachable()
    };
    write_whole(&out[..len], writer)
}

// Reads all there is, up to one byte more than may be, and writes the answer to it and nothing else. Where a read fails nothing is
// written, and where a write fails a first part of the answer.
pub(crate) fn run<R: Read + Drop, W: Write>(
    alloc: Global,
    reader: R,
    writer: &mut W,
) -> Result<(), Failure>
    ensures written { OnOk result (IfSome (R.remaining reader) (λ input.
        Appends (W.contents writer.old) (W.contents writer.new) (program_answer input))) }
    ensures unread { IfErr result (λ failure. IsUnread failure → writer.new ≡ writer.old) }
    ensures failed { OnErr result (IfSome (R.remaining reader) (λ input.
        AppendsFront (W.contents writer.old) (W.contents writer.new) (program_answer input))) }
{
    let text = match read_front(alloc, reader) {
        Ok(text) => text,
        Err(error) => return Err(Failure::Read(error)),
    };
    match write_answer(&text, writer) {
        Ok(()) => Ok(()),
        Err(error) => Err(Failure::Write(error)),
    }
}
