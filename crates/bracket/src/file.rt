// Reading a whole file: the layers above the text.
ghost use Rattle.std.specs.Prelude.{◌≡◌, ◌+◌, take};
ghost use Rattle.format.specs.Format.{file_reader, line_ends, read_file};
ghost use Rattle.bracket.specs.Lexing.{ReadsAs};
ghost use Rattle.bracket.specs.Lines.{held_lines};
ghost use Rattle.bracket.specs.Means.{meaning_from, file_fault, file_read};

use crate::fault_in_text::FaultInText;
use crate::lexer::Lexer;
use crate::line::Lines;
use mojette::{FileFault, Size};
use samples::Coded;

/// The line of a byte of the text, from 1.
fn line_of(text: &[u8], byte: usize) -> usize
    ensures { result ≡ 1 + line_ends (take byte text.now) }
{
    let before = &text[..byte.min(text.len())];
    1 + before.iter().filter(|b| **b == b'\n').count()
}

impl<'a> From<FaultInText<'a>> for FileFault {
    ghost from_gives = { λ wrong fault. fault ≡ file_fault wrong };

    /// The file's fault has the line of the wrong token too.
    fn from(wrong: FaultInText<'a>) -> FileFault {
        FileFault {
            line: line_of(wrong.text, wrong.fault.byte),
            text: wrong.fault,
        }
    }
}

impl<'a> Lexer<'a> {
    /// A whole file.
    fn file<K: Coded>(&mut self) -> Result<(Size, Lines), FaultInText<'a>>
        ensures { ReadsAs (λ v. meaning_from K.Kind K.Coded.own self.old.text.now v.0 (held_lines v.1))
            (λ n. file_reader K.Coded.own n) self.old result self.new }
    {
        let size = self.head::<K>()?;
        let lines = self.places::<K>(size)?;
        Ok((size, lines))
    }
}

/// Reads a whole file: a wrong token is told with its line.
pub(crate) fn lines_of<K: Coded>(text: &[u8]) -> Result<(Size, Lines), FileFault>
    ensures { file_read (λ v. meaning_from K.Kind K.Coded.own text.now v.0 (held_lines v.1)) result
        ≡ read_file K.Coded.own text.now }
{
    let mut lexer = Lexer::new(text);
    Ok(lexer.file::<K>()?)
}
