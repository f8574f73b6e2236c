// The lines of the places, one by one.
ghost use Rattle.std.specs.Prelude.{◌≡◌, ◌<◌, [], ◌∷◌, ◌++◌, length};
ghost use Rattle.mojette.specs.Bounds.{most_places};
ghost use Rattle.bracket.specs.Lines.{record_of, held_lines};

use crate::line::{Held, Line, Lines};
use mojette::{Direction, MOST_PLACES, Record};

impl Line {
    // The record of the place: cause 0 where it holds bins.
    pub(crate) fn record(&self) -> Record
        ensures { result ≡ record_of self.now }
    {
        let cause = match self.held {
            Held::Bins(_) => 0,
            Held::Lost(cause) => cause.get(),
        };
        Record {
            direction: self.direction,
            cause,
        }
    }
}

impl Lines {
    pub(crate) fn new() -> Lines
        ensures { held_lines result ≡ [] }
    {
        let line = Line {
            direction: Direction { p: 0, q: 1 },
            held: Held::Bins(0),
        };
        Lines {
            table: [line; MOST_PLACES],
            count: 0,
        }
    }

    pub(crate) fn as_slice(&self) -> &[Line]
        ensures { result.now ≡ held_lines self.now }
    {
        &self.table[..self.count]
    }

    pub(crate) fn len(&self) -> usize
        ensures { result ≡ length (held_lines self.now) }
    {
        self.count
    }

    pub(crate) fn push(&mut self, line: Line)
        requires { length (held_lines self.old) < most_places }
        ensures { held_lines self.new ≡ held_lines self.old ++ line ∷ [] }
    {
        self.table[self.count] = line;
        self.count += 1;
    }
}
