// A file as a source: it is read, and then asked.
ghost use Rattle.std.specs.Prelude.{◌≡◌, ◌^◌, ◌<◌, slice_get, IfOk};
ghost use Rattle.std.specs.Option.{ok_or};
ghost use Rattle.mojette.specs.declared.fault.Fault.TheVariants.{NoPlace};
ghost use Rattle.format.specs.Format.{file, read_file};
ghost use Rattle.format.specs.Laws.{OneText};
ghost use Rattle.bracket.specs.Files.{text_of, file_meaning, made, asked_file};
ghost use Rattle.bracket.specs.Found.{found_at};
ghost use Rattle.bracket.specs.Lines.{held_lines};

use crate::bracket_file::BracketFile;
use crate::file::lines_of;
use crate::line::{Held, Line};
use format::one_text;
use mojette::{Fault, Record};
use samples::Coded;
use samples::codes::read_code;
use source::{Sizes, Source};
use std::marker::PhantomData;

// The sample whose code begins at a byte; zero where there is no code.
fn found<K: Coded>(text: &[u8], byte: usize) -> K
    requires { byte < 2 ^ 32 }
    ensures { result ≡ found_at K.Kind K.Coded.own text.now byte }
{
    text.get(byte..byte + K::digits())
        .and_then(|code| read_code::<K>(code))
        .unwrap_or(K::zero_sample())
}

impl<'a, K: Coded> BracketFile<'a, K> {
    // Reads a text of any content and length as a file of a kind of sample. A lawful meaning has one such text, and all other text is refused.
    pub fn read(text: &'a [u8]) -> Result<BracketFile<'a, K>, Fault>
        ensures read { made result ≡ asked_file (read_file K.Coded.own text.now) }
        ensures text { IfOk result (λ f. text_of f ≡ text.now) }
        ensures law { OneText K.Kind K.Coded.own }
    {
        one_text::<K>();
        let (size, lines) = lines_of::<K>(text)?;
        Ok(BracketFile {
            text,
            size,
            lines,
            kind: PhantomData,
        })
    }

    // The text, of which the meaning is what reading it gives.
    pub fn text(&self) -> &'a [u8]
        ensures is { result.now ≡ text_of self.now }
        ensures read { read_file K.Coded.own result.now ≡ file (file_meaning self.now) }
    {
        self.text
    }

    // The line of place i.
    fn line(&self, i: usize) -> Result<Line, Fault>
        ensures { result ≡ ok_or (slice_get (held_lines self.now.lines) i) NoPlace }
    {
        let lines = self.lines.as_slice();
        lines.get(i).copied().ok_or(Fault::NoPlace)
    }
}

impl<'a, K: Coded> Source for BracketFile<'a, K> {
    type Sample = K;

    ghost meaning = { file_meaning };

    fn sizes(&self) -> Sizes {
        Sizes {
            columns: self.size.columns,
            rows: self.size.rows,
            places: self.lines.len(),
        }
    }

    fn place(&self, i: usize) -> Result<Record, Fault> {
        let line = self.line(i)?;
        Ok(line.record())
    }

    // Found in the text.
    fn bin(&self, i: usize, b: usize) -> Result<K, Fault> {
        let line = self.line(i)?;
        let begin = match line.held {
            Held::Bins(begin) => begin,
            Held::Lost(cause) => return Err(Fault::Lost(cause.get())),
        };
        if b >= self.size.bins(line.direction) {
            return Err(Fault::NoBin);
        }
        let codes = &self.text[begin.min(self.text.len())..];
        Ok(found::<K>(codes, b * (K::digits() + 1) + 1))
    }
}
