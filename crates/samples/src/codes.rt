// The code of a sample, and back. The two words differ in name, width and type, which are what the trait names.
ghost use Rattle.std.specs.Prelude.{◌≡◌, ◌<◌, codes as text};
ghost use Rattle.samples.specs.Codes.{hex_byte, digit_of};
ghost use Rattle.samples.specs.Codings.{sum_naming, sum_number, sum_coding, xor_naming, xor_number, xor_coding, pair_naming, pair_number, pair_sample, pair_coding};
ghost use Rattle.samples.specs.Reading.{code, read_code, Written, OneToOne};
ghost use Rattle.samples.specs.Words.{sum_of, xor_of};

use crate::Kind;
use crate::coded::Coded;
use crate::words::{Pair, SumWord, XorWord};

impl Coded for SumWord {
    ghost name = { text "sum" };

    ghost naming = { sum_naming };

    ghost width = { 4 };

    ghost number = { sum_number };

    ghost sample = { sum_of };

    ghost coding = { sum_coding };

    fn kind_name() -> &'static [u8] {
        b"sum"
    }

    fn digits() -> usize {
        4
    }

    fn to_number(self) -> u64 {
        u64::from(self.value)
    }

    fn from_number(n: u64) -> SumWord {
        SumWord {
            value: (n % 0x1_0000) as u16,
        }
    }
}

impl Coded for XorWord {
    ghost name = { text "xor" };

    ghost naming = { xor_naming };

    ghost width = { 8 };

    ghost number = { xor_number };

    ghost sample = { xor_of };

    ghost coding = { xor_coding };

    fn kind_name() -> &'static [u8] {
        b"xor"
    }

    fn digits() -> usize {
        8
    }

    fn to_number(self) -> u64 {
        u64::from(self.value)
    }

    fn from_number(n: u64) -> XorWord {
        XorWord {
            value: (n % 0x1_0000_0000) as u32,
        }
    }
}

// A sum word, then an XOR word.
impl Coded for Pair<SumWord, XorWord> {
    ghost name = { text "pair" };

    ghost naming = { pair_naming };

    ghost width = { 12 };

    ghost number = { pair_number };

    ghost sample = { pair_sample };

    ghost coding = { pair_coding };

    fn kind_name() -> &'static [u8] {
        b"pair"
    }

    fn digits() -> usize {
        12
    }

    fn to_number(self) -> u64 {
        self.first.to_number() * 0x1_0000_0000 + self.second.to_number()
    }

    fn from_number(n: u64) -> Pair<SumWord, XorWord> {
        Pair {
            first: <SumWord as Coded>::from_number(n / 0x1_0000_0000),
            second: <XorWord as Coded>::from_number(n),
        }
    }
}

// A digit as a byte: 0 to 9, A to F. By own code, here and below: the library's readers of digits take small letters too.
fn hex_byte(digit: u8) -> u8
    requires { digit < 16 }
    ensures { result ≡ hex_byte digit }
{
    if digit < 10 {
        b'0' + digit
    } else {
        b'A' - 10 + digit
    }
}

// What a byte stands for as a digit, if it is one.
fn hex_value(b: u8) -> Option<u8>
    ensures { result ≡ digit_of b }
{
    match b {
        b'0'..=b'9' => Some(b - b'0'),
        b'A'..=b'F' => Some(b - (b'A' - 10)),
        _ => None,
    }
}

// Writes the code of a sample into the first cells, and answers its length; none where there are too few cells.
pub fn write_code<K: Coded>(sample: K, out: &mut [u8]) -> Option<usize>
    ensures { Written (code K.Coded.own sample) out.old result out.new }
{
    let width = K::digits();
    if out.len() < width {
        return None;
    }
    let mut rest = sample.to_number();
    // By index: what cells written through a reversed iterator hold is not known.
    for i in (0..width).rev() {
        out[i] = hex_byte((rest % 16) as u8);
        rest /= 16;
    }
    Some(width)
}

// The sample that a word is the code of; none where it is no code.
pub fn read_code<K: Coded>(word: &[u8]) -> Option<K>
    ensures value { result ≡ read_code K.Coded.own word.now }
    ensures law { OneToOne K.Coded.own }
{
    if word.len() != K::digits() {
        return None;
    }
    let mut n: u64 = 0;
    for b in word {
        let digit = hex_value(*b)?;
        n = 16 * n + u64::from(digit);
    }
    Some(K::from_number(n))
}

#[cfg(test)]
mod tests {
    use super::*;
    use crate::kind::Kind;

    #[test]
    fn words_wrap_and_cancel(rt: HostRuntime) {
        let a = SumWord { value: 65_535 };
        assert_eq!(rt; a.add(SumWord { value: 2 }).value, 1);
        assert_eq!(rt; SumWord { value: 1 }.negate().value, 65_535);
        assert_eq!(rt; <SumWord as Kind>::zero_sample().negate().value, 0);
        let x = XorWord { value: 0xFFFF_0000 };
        assert_eq!(rt; x.add(x).value, 0);
        assert!(rt; !x.same(<XorWord as Kind>::spark_sample()));
    }

    #[test]
    fn codes_of_all_kinds(rt: HostRuntime) {
        let mut out = [b'.'; 13];
        assert_eq!(rt; write_code(SumWord { value: 0xA0F }, &mut out), Some(4));
        assert!(rt; out == *b"0A0F.........");
        assert_eq!(rt;
            write_code(XorWord { value: 0xFFFF_FFFF }, &mut out),
            Some(8)
        );
        assert!(rt; out == *b"FFFFFFFF.....");
        let pair = Pair {
            first: SumWord { value: 1 },
            second: XorWord { value: 0xBC },
        };
        assert_eq!(rt; write_code(pair, &mut out), Some(12));
        assert!(rt; out == *b"0001000000BC.");
        assert_eq!(rt; write_code(pair, &mut out[0..11]), None);
    }

    fn number_read(word: &[u8]) -> Option<u16> {
        read_code::<SumWord>(word).map(|x| x.value)
    }

    #[test]
    fn only_codes_are_read(rt: HostRuntime) {
        assert_eq!(rt; number_read(b"09AF"), Some(0x9AF));
        assert_eq!(rt; number_read(b"FFFF"), Some(0xFFFF));
        assert_eq!(rt; number_read(b"09Af"), None);
        assert_eq!(rt; number_read(b"9AF"), None);
        assert_eq!(rt; number_read(b"009AF"), None);
        assert_eq!(rt; number_read(b"G000"), None);
        assert_eq!(rt; number_read(b""), None);
    }
}
