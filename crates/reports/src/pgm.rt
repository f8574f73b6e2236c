// The picture of a listing as a PGM file.
ghost use Rattle.std.specs.Prelude.{◌≡◌, ◌++◌, ◌≤◌, length, IfOk, OnOk};
ghost use Rattle.std.specs.List.{flat_map};
ghost use Rattle.std.specs.Option.{option_map};
ghost use Rattle.reports.specs.Pgm.{sample_bytes, pgm_bytes, samples_in, size_len, picture_bytes, pgm_of, ShowsPicture};

use crate::marks::is_mark;
use samples::SumWord;
use samples::codes::read_code;
use std::alloc::{AllocError, Global};

/// How the listing of a picture of sum words begins.
const HEAD: &[u8] = b"(picture sum ";

/// How many bytes a text has before its first closing bracket.
fn size_len(text: &[u8]) -> usize
    ensures within { result ≤ length text.now }
    ensures value { result ≡ size_len text.now }
{
    text.iter().take_while(|b| **b != b')').count()
}

/// The sum words whose codes are words of a text.
fn samples_in(alloc: Global, text: &[u8]) -> Result<Vec<SumWord>, AllocError>
    ensures { IfOk result (λ v. v.items ≡ samples_in text.now) }
{
    text.split(|b| is_mark(*b))
        .filter_map(|word| read_code::<SumWord>(word))
        .collect(alloc)
}

/// Sum words, each in two bytes, the first with the most weight.
fn push_samples(out: &mut Vec<u8>, samples: &[SumWord]) -> Result<(), AllocError>
    ensures { OnOk result (out.new.items ≡ out.old.items ++ flat_map sample_bytes samples.now) }
{
    for sample in samples {
        out.extend_from_slice(&[(sample.value / 256) as u8, (sample.value % 256) as u8])?;
    }
    Ok(())
}

/// The file of a size and of samples.
fn pgm_file(alloc: Global, size: &[u8], samples: &[SumWord]) -> Result<Vec<u8>, AllocError>
    ensures { IfOk result (λ v. v.items ≡ pgm_bytes size.now samples.now) }
{
    let mut out = Vec::new(alloc);
    out.extend_from_slice(b"P5\n")?;
    out.extend_from_slice(size)?;
    out.extend_from_slice(b"\n65535\n")?;
    push_samples(&mut out, samples)?;
    Ok(out)
}

/// The file of what stands behind the kind in the listing of a picture.
fn picture_bytes(alloc: Global, text: &[u8]) -> Result<Vec<u8>, AllocError>
    ensures { IfOk result (λ v. v.items ≡ picture_bytes text.now) }
{
    let (size, rows) = text.split_at(size_len(text));
    let samples = samples_in(alloc, rows)?;
    pgm_file(alloc, size, &samples)
}

/// The picture of sum words that a listing shows, as a PGM file: P5 with the maximum 65535, two
/// bytes a sample, the first with the most weight. Nothing for any other listing.
pub fn picture_file(alloc: Global, listing: &[u8]) -> Result<Option<Vec<u8>>, AllocError>
    ensures { IfOk result (λ file. option_map (λ v. v.items) file ≡ pgm_of listing.now) }
{
    if !listing.starts_with(HEAD) {
        return Ok(None);
    }
    let file = picture_bytes(alloc, &listing[HEAD.len()..])?;
    Ok(Some(file))
}

/// What `picture_file` gives of the listing of a picture is the file of that picture. Nothing is
/// done: this is the law of its definition.
pub fn shows_picture()
    ensures { ShowsPicture }
{}
