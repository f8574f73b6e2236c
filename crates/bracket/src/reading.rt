// Reading the lines of a file.
ghost use Rattle.std.specs.Prelude.{[], map, None};
ghost use Rattle.mojette.specs.Bounds.{most_places};
ghost use Rattle.mojette.specs.Meaning.{Place};
ghost use Rattle.format.specs.Format.{codes_reader, sums_reader, held_reader, dir_reader, end_reader, places_reader, head_reader};
ghost use Rattle.bracket.specs.Found.{found_from};
ghost use Rattle.bracket.specs.Lexing.{ReadsAs};
ghost use Rattle.bracket.specs.Lines.{is_bins, held_from, place_from, held_lines};

use crate::fault_in_text::FaultInText;
use crate::lexer::Lexer;
use crate::line::{Held, Holding, Line, Lines, Start};
use mojette::{Direction, MOST_PLACES, Size};
use samples::Coded;

impl<'a> Lexer<'a> {
    /// Passes `count` codes, each after a space.
    fn skip_codes<K: Coded>(&mut self, count: usize) -> Result<(), FaultInText<'a>>
        ensures { ReadsAs (λ _. found_from K.Kind K.Coded.own self.old.text.now self.old.at count)
            (λ n. codes_reader K.Coded.own n count) self.old result self.new }
    {
        // So many turns: the codes are not in a list.
        for _i in 0..count {
            self.space()?;
            let _ = self.code::<K>()?;
        }
        Ok(())
    }

    /// What follows `bins` or `lost`: the codes of so many bins, or the cause.
    fn sums<K: Coded>(&mut self, bins: usize, holding: Holding) -> Result<Held, FaultInText<'a>>
        ensures { ReadsAs (held_from K.Kind K.Coded.own self.old.text.now bins)
            (λ n. sums_reader K.Coded.own n bins (is_bins holding)) self.old result self.new }
    {
        match holding {
            Holding::Bins => {
                let begin = self.at;
                self.skip_codes::<K>(bins)?;
                Ok(Held::Bins(begin))
            }
            Holding::Lost => {
                self.space()?;
                let cause = self.cause()?;
                Ok(Held::Lost(cause))
            }
        }
    }

    /// What a place holds, with the line end.
    fn held<K: Coded>(&mut self, bins: usize) -> Result<Held, FaultInText<'a>>
        ensures { ReadsAs (held_from K.Kind K.Coded.own self.old.text.now bins)
            (λ n. held_reader K.Coded.own n bins) self.old result self.new }
    {
        self.space()?;
        self.open()?;
        let holding = self.holding()?;
        let held = self.sums::<K>(bins, holding)?;
        self.close()?;
        self.close()?;
        self.newline()?;
        Ok(held)
    }

    /// What follows `(dir`, with the line end.
    fn place<K: Coded>(
        &mut self,
        size: Size,
        last: Option<Direction>,
    ) -> Result<Line, FaultInText<'a>>
        ensures { ReadsAs (place_from K.Kind K.Coded.own self.old.text.now size)
            (λ n. dir_reader K.Coded.own n size.columns size.rows last) self.old result self.new }
    {
        let direction = self.direction(last)?;
        let held = self.held::<K>(size.bins(direction))?;
        Ok(Line { direction, held })
    }

    /// What follows `(end`.
    fn finish<K: Coded>(&mut self) -> Result<(), FaultInText<'a>>
        ensures { ReadsAs (λ _. []) (λ n. end_reader {A = Place K} n) self.old result self.new }
    {
        self.close()?;
        self.newline()?;
        self.end()
    }

    /// The lines after the first.
    pub(crate) fn places<K: Coded>(&mut self, size: Size) -> Result<Lines, FaultInText<'a>>
        ensures { ReadsAs
            (λ lines. map (place_from K.Kind K.Coded.own self.old.text.now size) (held_lines lines))
            (λ n. places_reader K.Coded.own n size.columns size.rows None most_places)
            self.old result self.new }
    {
        let mut lines = Lines::new();
        let mut last = None;
        // Until a line ends the file: how many lines come is not known before.
        while let Start::Dir = self.start(last, lines.len() < MOST_PLACES)? {
            let line = self.place::<K>(size, last)?;
            last = Some(line.direction);
            lines.push(line);
        }
        self.finish::<K>()?;
        Ok(lines)
    }

    /// The first line of a file.
    pub(crate) fn head<K: Coded>(&mut self) -> Result<Size, FaultInText<'a>>
        ensures { ReadsAs (λ size. (size.columns, size.rows)) (head_reader K.Coded.name)
            self.old result self.new }
    {
        self.open()?;
        self.word(b"tile")?;
        self.space()?;
        self.word(K::kind_name())?;
        self.space()?;
        let columns = self.side()?;
        self.space()?;
        let rows = self.side()?;
        self.close()?;
        self.newline()?;
        Ok(Size { columns, rows })
    }
}
