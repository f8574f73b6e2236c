// A fault in words, where the places that were asked about are known.
ghost use Rattle.std.specs.Prelude.{◌≡◌, Some};
ghost use Rattle.reports.specs.Sentences.{direction_at, sentence_among};

use mojette::{Direction, Fault, Record};
use std::fmt;

/// A fault in words, beside the places that were asked about: an unlawful direction is told by its
/// numbers where it is among these.
#[derive(Clone, Copy)]
pub struct Sentence<'a> {
    pub fault: Fault,
    pub records: &'a [Record],
}

impl Sentence<'_> {
    /// The direction that the fault says is not lawful, if it is known.
    fn direction(&self, i: usize) -> Option<Direction>
        ensures { result ≡ direction_at self.now.records.now i }
    {
        self.records.get(i).map(|record| record.direction)
    }
}

impl fmt::Display for Sentence<'_> {
    ghost output = { λ s. Some (sentence_among s.records.now s.fault) };

    fn fmt<W: fmt::Write>(&self, f: &mut fmt::Formatter<W>) -> fmt::Result {
        let fault = self.fault;
        match fault {
            Fault::Unlawful(i) => match self.direction(i) {
                Some(direction) => {
                    write!(f, "place {i}: the direction {direction} is not lawful")
                }
                None => write!(f, "{fault}"),
            },
            _ => write!(f, "{fault}"),
        }
    }
}
