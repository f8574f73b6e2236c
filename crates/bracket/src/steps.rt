// Reading a file word by word.
ghost use Rattle.std.specs.Prelude.{◌≡◌, true, IfOk};
ghost use Rattle.std.specs.NonZero.{non_zero_u8_get};
ghost use Rattle.mojette.specs.Meaning.{side_ok};
ghost use Rattle.format.specs.Format.{size_word, cause_word, p_word, q_word, bins_word, line_word, direction_reader};
ghost use Rattle.format.specs.Readers.{accept};
ghost use Rattle.bracket.specs.Lexing.{Reads, ReadsAs};
ghost use Rattle.bracket.specs.Lines.{is_bins, is_dir, start_reader};

use crate::fault_in_text::FaultInText;
use crate::lexer::Lexer;
use crate::line::{Holding, Start};
use crate::words::{cause_of, holding_of, p_of, q_of, side_of, start_of};
use mojette::Direction;
use std::num::NonZeroU8;

impl<'a> Lexer<'a> {
    /// The columns or the rows of a tile.
    pub(crate) fn side(&mut self) -> Result<usize, FaultInText<'a>>
        ensures reads { Reads (λ n. accept n size_word) self.old result self.new }
        ensures range { IfOk result (λ side. side_ok side ≡ true) }
    {
        self.accept(side_of)
    }

    /// Why a place is lost.
    pub(crate) fn cause(&mut self) -> Result<NonZeroU8, FaultInText<'a>>
        ensures { ReadsAs non_zero_u8_get (λ n. accept n cause_word) self.old result self.new }
    {
        self.accept(cause_of)
    }

    /// The p of a direction.
    fn p(&mut self) -> Result<i32, FaultInText<'a>>
        ensures { Reads (λ n. accept n p_word) self.old result self.new }
    {
        self.accept(p_of)
    }

    /// The q of a direction with p, which is to be lawful and to stand after the last one.
    fn q(&mut self, p: i32, last: Option<Direction>) -> Result<Direction, FaultInText<'a>>
        ensures { Reads (λ n. accept n (q_word last p)) self.old result self.new }
    {
        self.accept(|word| q_of(word, p, last))
    }

    /// A direction, lawful and after the last one.
    pub(crate) fn direction(
        &mut self,
        last: Option<Direction>,
    ) -> Result<Direction, FaultInText<'a>>
        ensures { Reads (λ n. direction_reader n last) self.old result self.new }
    {
        self.space()?;
        let p = self.p()?;
        self.space()?;
        self.q(p, last)
    }

    /// `bins` or `lost`.
    pub(crate) fn holding(&mut self) -> Result<Holding, FaultInText<'a>>
        ensures { ReadsAs is_bins (λ n. accept n bins_word) self.old result self.new }
    {
        self.accept(holding_of)
    }

    /// The start of a line. The last direction is none at the first place.
    pub(crate) fn start(
        &mut self,
        last: Option<Direction>,
        room: bool,
    ) -> Result<Start, FaultInText<'a>>
        ensures reads { ReadsAs is_dir (λ n. start_reader n last room) self.old result self.new }
        ensures room { IfOk result (λ start. (is_dir start ≡ true → room ≡ true)) }
    {
        self.open()?;
        self.dir_or_end(last.is_none(), room)
    }

    /// `dir` or `end`. An `end` at the first place, and a `dir` without room, are wrong.
    fn dir_or_end(&mut self, first: bool, room: bool) -> Result<Start, FaultInText<'a>>
        ensures reads { ReadsAs is_dir (λ n. accept n (line_word first room)) self.old result self.new }
        ensures room { IfOk result (λ start. (is_dir start ≡ true → room ≡ true)) }
    {
        self.accept(|word| start_of(word, first, room))
    }
}
