//! What a fault tells people: each in a sentence. `refusal` gives the same in numbers.
ghost use Rattle.std.specs.Prelude.{Some};
ghost use Rattle.mojette.specs.Sentences.{direction_words, table_words, reason_words, file_words, sentence};

use crate::direction::Direction;
use crate::fault::{Fault, FileFault, Reason, Table, TextFault};
use std::error::Error;
use std::fmt;

/// p and q in round brackets, as `(-3, 2)`.
impl fmt::Display for Direction {
    ghost output = { λ d. Some (direction_words d) };

    fn fmt<W: fmt::Write>(&self, f: &mut fmt::Formatter<W>) -> fmt::Result {
        let Direction { p, q } = *self;
        write!(f, "({p}, {q})")
    }
}

/// What the table holds, in one word.
impl fmt::Display for Table {
    ghost output = { λ t. Some (table_words t) };

    fn fmt<W: fmt::Write>(&self, f: &mut fmt::Formatter<W>) -> fmt::Result {
        f.write_str(match self {
            Table::Picture => "picture",
            Table::Marks => "marks",
            Table::Sums => "sums",
            Table::Counts => "counts",
            Table::Queue => "queue",
        })
    }
}

/// What is wrong with the token.
impl fmt::Display for Reason {
    ghost output = { λ r. Some (reason_words r) };

    fn fmt<W: fmt::Write>(&self, f: &mut fmt::Formatter<W>) -> fmt::Result {
        f.write_str(match self {
            Reason::Token => "not what belongs there, or not well formed",
            Reason::Size => "a size outside 1 to 64",
            Reason::Count => "an end before the first place, or a place after the 16th",
            Reason::Direction => "a direction that is not lawful",
            Reason::Order => "a direction that does not come after the one before it",
        })
    }
}

/// Where the wrong token stands, and what is wrong with it.
impl fmt::Display for FileFault {
    ghost output = { λ e. Some (file_words e) };

    fn fmt<W: fmt::Write>(&self, f: &mut fmt::Formatter<W>) -> fmt::Result {
        let FileFault { line, text } = *self;
        let TextFault { byte, reason } = text;
        write!(f, "line {line}, byte {byte} of the text: {reason}")
    }
}

/// The fault in one sentence, with all the values that it tells.
impl fmt::Display for Fault {
    ghost output = { λ e. Some (sentence e) };

    fn fmt<W: fmt::Write>(&self, f: &mut fmt::Formatter<W>) -> fmt::Result {
        match *self {
            Fault::Size => write!(f, "a tile has 1 to 64 columns and 1 to 64 rows"),
            Fault::PlaceCount => write!(f, "a tile has 1 to 16 places"),
            Fault::Unlawful(i) => write!(f, "place {i}: its direction is not lawful"),
            Fault::Disorder(i) => write!(
                f,
                "place {i}: its direction does not come after the one before it"
            ),
            Fault::ShortTable(table) => write!(f, "the table for the {table} is too short"),
            Fault::AllLoaded => write!(f, "all places are loaded already"),
            Fault::OtherSource => write!(
                f,
                "the source differs from the plan in size, number of places, or this place"
            ),
            Fault::NotLoaded(n) => write!(f, "places not loaded yet: {n}"),
            Fault::Ghost(c, r) => write!(
                f,
                "too few places are whole: their steps add up to {c} across and {r} down"
            ),
            Fault::NoneWaits => write!(f, "no position waits in the queue"),
            Fault::BadCell(i) => write!(f, "cell {i} of the queue holds no position of the tile"),
            Fault::BadGrant => write!(f, "the grant belongs to a larger tile"),
            Fault::PixelsMissing(n) => write!(f, "pixels still missing: {n}"),
            Fault::GrantsOut(n) => write!(f, "grants neither settled nor given back: {n}"),
            Fault::LeftOver(i, b) => write!(
                f,
                "the sums contradict one another, first at place {i}, bin {b}"
            ),
            Fault::NoPlace => write!(f, "the source has no such place"),
            Fault::Lost(cause) => write!(f, "the place is lost, by cause {cause}"),
            Fault::NoBin => write!(f, "the place has no such bin"),
            Fault::RunLength(n) => write!(f, "the rack needs a run of {n} samples"),
            Fault::NoFile(file) => write!(f, "{file}"),
            Fault::ShortOutput(n) => write!(f, "the output must be at least {n} long"),
            Fault::Oversize => write!(f, "more than 65536 bytes of text, or more than 8192 bins"),
        }
    }
}

impl Error for Fault {}

#[cfg(test)]
mod tests {
    use super::*;
    use std::alloc::AllocError;

    #[test]
    fn sentences(rt: HostRuntime) -> Result<(), AllocError> {
        let alloc = rt.alloc();
        let unlawful = Fault::Unlawful(3).to_string(alloc)?;
        assert_eq!(rt; unlawful.as_str(), "place 3: its direction is not lawful");
        let too_few = Fault::Ghost(2, 1).to_string(alloc)?;
        assert_eq!(rt;
            too_few.as_str(),
            "too few places are whole: their steps add up to 2 across and 1 down"
        );
        let left_over = Fault::LeftOver(1, 70).to_string(alloc)?;
        assert_eq!(rt;
            left_over.as_str(),
            "the sums contradict one another, first at place 1, bin 70"
        );
        let short = Fault::ShortTable(Table::Queue).to_string(alloc)?;
        assert_eq!(rt; short.as_str(), "the table for the queue is too short");
        Ok(())
    }

    #[test]
    fn a_wrong_token(rt: HostRuntime) -> Result<(), AllocError> {
        let reason = Reason::Direction;
        let text = TextFault { byte: 57, reason };
        let fault = Fault::NoFile(FileFault { line: 3, text });
        let told = fault.to_string(rt.alloc())?;
        assert_eq!(rt;
            told.as_str(),
            "line 3, byte 57 of the text: a direction that is not lawful"
        );
        Ok(())
    }

    #[test]
    fn directions_in_brackets(rt: HostRuntime) -> Result<(), AllocError> {
        let told = Direction { p: -3, q: 2 }.to_string(rt.alloc())?;
        assert_eq!(rt; told.as_str(), "(-3, 2)");
        Ok(())
    }
}
