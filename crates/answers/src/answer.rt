// The answer to a text: from bytes to bytes.
ghost use Rattle.std.specs.Prelude.{◌≡◌, ◌≤◌, length, replicate};
ghost use Rattle.mojette.specs.Faults.{outcome};
ghost use Rattle.samples.specs.contracts.codes.PairSumWordXorWordCoded.TheImpl.{ghosts as pair_codes};
ghost use Rattle.samples.specs.contracts.codes.SumWordCoded.TheImpl.{ghosts as sum_codes};
ghost use Rattle.samples.specs.contracts.codes.XorWordCoded.TheImpl.{ghosts as xor_codes};
ghost use Rattle.samples.specs.contracts.impls.SumWordKind.TheImpl.{ghosts as sum_operations};
ghost use Rattle.samples.specs.contracts.impls.XorWordKind.TheImpl.{ghosts as xor_operations};
ghost use Rattle.format.specs.Kinds.{pair_operations};
ghost use Rattle.writing.specs.Splices.{filling};
ghost use Rattle.answers.specs.Answers.{text_answer, program_answer};
ghost use Rattle.answers.specs.Law.{Prints, Answers};
ghost use Rattle.answers.specs.Tiles.{program_pixels, program_bins, most_output};

use crate::show::{PROGRAM_BINS, PROGRAM_PIXELS, show};
use bracket::{BracketFile, KindName, kind_of};
use mojette::{Fault, Refusal};
use samples::{Coded, Kind, Pair, SumWord, XorWord};
use writing::listing::write_refusal;

/// The most bytes of an input: a longer one is refused.
pub const MOST_BYTES: usize = 65_536;
/// Bytes with room for every answer: the longest is the ghost of a tile of 64 by 64 pairs.
pub const MOST_OUTPUT: usize = 65_536;

// What is printed of a text by the reader of one kind.
fn answer_as<K: Coded>(
    text: &[u8],
    picture: &mut [K],
    sums: &mut [K],
    out: &mut [u8],
) -> Result<usize, Fault>
    requires picture { picture.old ≡ replicate program_pixels K.Kind.zero }
    requires sums { sums.old ≡ replicate program_bins K.Kind.zero }
    ensures text { (outcome result, out.new) ≡ filling (text_answer K.Kind K.Coded.own text.now) out.old }
    ensures fits { length (text_answer K.Kind K.Coded.own text.now) ≤ most_output }
    ensures law { Prints K.Kind K.Coded.own text.now (text_answer K.Kind K.Coded.own text.now) }
{
    match BracketFile::<K>::read(text) {
        Ok(file) => show(&file, picture, sums, out),
        Err(fault) => write_refusal(out, Refusal::from(fault)),
    }
}

// The same for sum words.
fn answer_sums(text: &[u8], out: &mut [u8]) -> Result<usize, Fault>
    ensures text { (outcome result, out.new)
        ≡ filling (text_answer sum_operations sum_codes text.now) out.old }
    ensures fits { length (text_answer sum_operations sum_codes text.now) ≤ most_output }
    ensures law { Prints sum_operations sum_codes text.now
        (text_answer sum_operations sum_codes text.now) }
{
    let zero = SumWord::zero_sample();
    let (mut picture, mut sums) = ([zero; PROGRAM_PIXELS], [zero; PROGRAM_BINS]);
    answer_as(text, &mut picture, &mut sums, out)
}

// The same for XOR words.
fn answer_xors(text: &[u8], out: &mut [u8]) -> Result<usize, Fault>
    ensures text { (outcome result, out.new)
        ≡ filling (text_answer xor_operations xor_codes text.now) out.old }
    ensures fits { length (text_answer xor_operations xor_codes text.now) ≤ most_output }
    ensures law { Prints xor_operations xor_codes text.now
        (text_answer xor_operations xor_codes text.now) }
{
    let zero = XorWord::zero_sample();
    let (mut picture, mut sums) = ([zero; PROGRAM_PIXELS], [zero; PROGRAM_BINS]);
    answer_as(text, &mut picture, &mut sums, out)
}

// The same for pairs.
fn answer_pairs(text: &[u8], out: &mut [u8]) -> Result<usize, Fault>
    ensures text { (outcome result, out.new)
        ≡ filling (text_answer pair_operations pair_codes text.now) out.old }
    ensures fits { length (text_answer pair_operations pair_codes text.now) ≤ most_output }
    ensures law { Prints pair_operations pair_codes text.now
        (text_answer pair_operations pair_codes text.now) }
{
    let zero = Pair::<SumWord, XorWord>::zero_sample();
    let (mut picture, mut sums) = ([zero; PROGRAM_PIXELS], [zero; PROGRAM_BINS]);
    answer_as(text, &mut picture, &mut sums, out)
}

/// Writes what the program prints for an input, of any content and length, and answers how many bytes that
/// is. An output too short for it is refused, which one of `MOST_OUTPUT` bytes never is. What is wrong with
/// the input is no error of this call: it is what the program prints. Where a text names no kind, any reader
/// tells why.
pub fn answer(text: &[u8], out: &mut [u8]) -> Result<usize, Fault>
    ensures text { (outcome result, out.new) ≡ filling (program_answer text.now) out.old }
    ensures fits { length (program_answer text.now) ≤ most_output }
    ensures law { Answers text.now (program_answer text.now) }
{
    if text.len() > MOST_BYTES {
        return write_refusal(out, Refusal::from(Fault::Oversize));
    }
    match kind_of(text) {
        Some(KindName::Sum) => answer_sums(text, out),
        Some(KindName::Xor) => answer_xors(text, out),
        Some(KindName::Pair) => answer_pairs(text, out),
        None => answer_sums(text, out),
    }
}

#[cfg(test)]
mod tests {
    use super::*;

    // Inputs, and what is printed of each.
    const CASES: [(&[u8], &[u8]); 9] = [
        (
            b"(tile sum 2 2)\n(dir 1 1 (bins 0002 0005 0003))\n(dir 0 1 (lost 4))\n(dir -1 1 (bins 0004 0005 0001))\n(end)\n",
            b"(picture sum 2 2)\n(row 0001 0002)\n(row 0003 0004)\n(end)\n",
        ),
        (
            b"(tile xor 1 1)\n(dir 0 1 (bins 0000ABCD))\n(end)\n",
            b"(picture xor 1 1)\n(row 0000ABCD)\n(end)\n",
        ),
        (
            b"(tile pair 1 2)\n(dir 1 0 (bins 000100000002 000300000004))\n(end)\n",
            b"(picture pair 1 2)\n(row 000100000002)\n(row 000300000004)\n(end)\n",
        ),
        (
            b"(tile sum 2 2)\n(dir 1 0 (bins 0003 0007))\n(dir 1 1 (lost 9))\n(dir 0 1 (bins 0006 0004))\n(end)\n",
            b"(ghost sum 2 2)\n(lost 1 9)\n(row 0001 FFFF)\n(row FFFF 0001)\n(end)\n",
        ),
        (
            b"(tile sum 1 1)\n(dir 0 1 (lost 255))\n(end)\n",
            b"(ghost sum 1 1)\n(lost 0 255)\n(row 0001)\n(end)\n",
        ),
        (
            b"(tile sum 2 2)\n(dir 1 1 (bins 0002 0005 0003))\n(dir -1 1 (bins 0004 0006 0001))\n(end)\n",
            b"(refused 15 1 1 0)\n",
        ),
        (
            b"(tile xor 1 1)\n(dir 0 1 (bins 0000abcd))\n(end)\n",
            b"(refused 20 2 30 0)\n",
        ),
        (b"(tile words 1 1)\n", b"(refused 20 1 6 0)\n"),
        (b"", b"(refused 20 1 0 0)\n"),
    ];

    // Whether this and no more is written.
    fn prints(text: &[u8], listing: &[u8]) -> bool {
        let mut out = [b'.'; 128];
        let printed = answer(text, &mut out) == Ok(listing.len());
        printed && out.starts_with(listing) && out.get(listing.len()) == Some(&b'.')
    }

    #[test]
    fn listings_and_refusals(rt: HostRuntime) {
        for (text, listing) in CASES {
            assert!(rt; prints(text, listing));
        }
    }

    #[test]
    fn long_inputs_are_refused_first(rt: HostRuntime) {
        let text = [b'('; MOST_BYTES + 1];
        assert!(rt; prints(&text, b"(refused 22 0 0 0)\n"));
        assert!(rt; prints(&text[1..], b"(refused 20 1 1 0)\n"));
    }

    #[test]
    fn a_short_output_stays(rt: HostRuntime) {
        let mut out = [b'.'; 17];
        assert_eq!(rt; answer(b"", &mut out), Err(Fault::ShortOutput(19)));
        assert!(rt; out == [b'.'; 17]);
    }
}
