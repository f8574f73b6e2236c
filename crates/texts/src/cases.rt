// One case of each set: a text, as hexadecimal bytes.
use answers::answer::answer;
use bracket::{BracketFile, KindName, kind_of};
use mojette::{Fault, Refusal};
use samples::{Coded, Pair, SumWord, XorWord};
use std::alloc::Global;
use writing::file::write_file;

// Room for every file and every answer of the cases.
const MOST_OUTPUT: usize = 262_144;

// A text is read as a file of a kind, and written again.
fn write_again<K: Coded>(text: &[u8], out: &mut [u8]) -> Result<usize, Fault> {
    let file = BracketFile::<K>::read(text)?;
    write_file(&file, out)
}

// By the reader of the kind that the text names; any reader tells why it names none.
fn format_case(text: &[u8], out: &mut [u8]) -> Result<usize, Fault> {
    match kind_of(text) {
        Some(KindName::Xor) => write_again::<XorWord>(text, out),
        Some(KindName::Pair) => write_again::<Pair<SumWord, XorWord>>(text, out),
        Some(KindName::Sum) | None => write_again::<SumWord>(text, out),
    }
}

// Bytes as the reference writes them: two digits each, or a dash for none.
fn bytes_of(alloc: Global, word: &str) -> anyhow::Result<Vec<u8>> {
    match word {
        "-" => Ok(Vec::new(alloc)),
        _ => Ok(hex::decode(alloc, word)?),
    }
}

// The answer to a line: a set and a text.
pub fn answered(alloc: Global, line: &str) -> anyhow::Result<String> {
    let (set, word) = line.split_once(" ").unwrap_or((line, "-"));
    let text = bytes_of(alloc, word)?;
    let mut out = vec![in alloc; 0; MOST_OUTPUT]?;
    let (told, written) = match set {
        "format" => ("file ", format_case(&text, &mut out)),
        _ => ("", answer(&text, &mut out)),
    };
    match written {
        Ok(len) => {
            out.truncate(len);
            let bytes = hex::encode_upper(alloc, out)?;
            Ok(format!(in alloc; "{told}{bytes}")?)
        }
        Err(fault) => {
            let refusal = Refusal::from(fault);
            Ok(format!(in alloc; "{refusal}")?)
        }
    }
}
