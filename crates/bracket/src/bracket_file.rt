// A file that is read. A file of its own, so that `specs/` can name the type.
ghost use Rattle.std.specs.Prelude.{◌≡◌};
ghost use Rattle.format.specs.Format.{file, read_file};
ghost use Rattle.bracket.specs.Lines.{held_lines};
ghost use Rattle.bracket.specs.Means.{meaning_from};

use crate::line::Lines;
use mojette::Size;
use samples::Coded;
use std::marker::PhantomData;

// The text of a file of a kind of sample, with its size and the lines of its places. Sums stay in the text.
#[derive(Drop)]
pub struct BracketFile<'a, K: Coded> {
    pub(crate) text: &'a [u8],
    pub(crate) size: Size,
    pub(crate) lines: Lines,
    pub(crate) kind: PhantomData<K>,
    ghost read: { read_file K.Coded text.now
        ≡ file (meaning_from K.Kind K.Coded text.now size (held_lines lines)) },
}
