// The part of a text round a token, and the mark under it.
ghost use Rattle.std.specs.Prelude.{◌≡◌, ◌==◌, ◌++◌, not, map, replicate, IfOk, OnOk};
ghost use Rattle.std.specs.List.{prefix_len, suffix_len};
ghost use Rattle.samples.specs.Names.{mark};
ghost use Rattle.reports.specs.Marks.{shown, width_of, mark_text, marked_text};

use std::alloc::{AllocError, Global};

// The most bytes that are shown of a line before a token, and from it on: a line of codes is
// longer than a screen is wide.
const MOST_BEFORE: usize = 40;

const MOST_AFTER: usize = 38;

/// A byte of a text as it is shown: `?` for one that a terminal does not print, so that each takes
/// one column.
fn shown(byte: u8) -> u8
    ensures { result ≡ shown byte }
{
    if 32 <= byte && byte <= 126 {
        byte
    } else {
        b'?'
    }
}

/// How many bytes the line has before the end of what stands before a token.
fn column_of(before: &[u8]) -> usize
    ensures { result ≡ suffix_len (λ b. not (b == 10)) before.now }
{
    before.iter().rev().take_while(|b| **b != b'\n').count()
}

/// How many bytes the line has from a token on.
fn left_in_line(rest: &[u8]) -> usize
    ensures { result ≡ prefix_len (λ b. not (b == 10)) rest.now }
{
    rest.iter().take_while(|b| **b != b'\n').count()
}

/// Whether a byte is a token by itself.
pub(crate) fn is_mark(byte: u8) -> bool
    ensures { result ≡ mark byte }
{
    matches!(byte, b'(' | b')' | b' ' | b'\n')
}

/// How many bytes a text has before the first that is a token by itself.
fn word_len(rest: &[u8]) -> usize
    ensures { result ≡ prefix_len (λ b. not (mark b)) rest.now }
{
    rest.iter().take_while(|b| !is_mark(**b)).count()
}

/// How many columns the mark under the first token takes: as many as are shown of it, one at least.
fn width_of(rest: &[u8]) -> usize
    ensures { result ≡ width_of rest.now }
{
    word_len(rest).min(MOST_AFTER).max(1)
}

/// Bytes as they are shown.
fn push_shown(out: &mut Vec<u8>, bytes: &[u8]) -> Result<(), AllocError>
    ensures { OnOk result (out.new.items ≡ out.old.items ++ map shown bytes.now) }
{
    for byte in bytes {
        out.push(shown(*byte))?;
    }
    Ok(())
}

/// So many bytes that are all the same.
fn push_many(out: &mut Vec<u8>, byte: u8, count: usize) -> Result<(), AllocError>
    ensures { OnOk result (out.new.items ≡ out.old.items ++ replicate count byte) }
{
    for _i in 0..count {
        out.push(byte)?;
    }
    Ok(())
}

/// The line with the mark, of what stands before a token and from it on.
fn mark(alloc: Global, before: &[u8], rest: &[u8]) -> Result<Vec<u8>, AllocError>
    ensures { IfOk result (λ v. v.items ≡ mark_text before.now rest.now) }
{
    let column = column_of(before).min(MOST_BEFORE).min(before.len());
    let left = left_in_line(rest).min(MOST_AFTER).min(rest.len());
    let mut out = Vec::new(alloc);
    push_shown(&mut out, &before[before.len() - column..])?;
    push_shown(&mut out, &rest[..left])?;
    out.push(b'\n')?;
    push_many(&mut out, b' ', column)?;
    push_many(&mut out, b'^', width_of(rest))?;
    out.push(b'\n')?;
    Ok(out)
}

/// The line of a byte of a text, as far as it is near, and a mark under the token that begins at
/// the byte.
pub fn marked(alloc: Global, text: &[u8], byte: usize) -> Result<Vec<u8>, AllocError>
    ensures { IfOk result (λ v. v.items ≡ marked_text text.now byte) }
{
    let (before, rest) = text.split_at(byte.min(text.len()));
    mark(alloc, before, rest)
}
