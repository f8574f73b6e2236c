// What the words of a file are worth: a value, or the reason why one is wrong.
ghost use Rattle.std.specs.Prelude.{◌≡◌};
ghost use Rattle.std.specs.NonZero.{non_zero_u8_get};
ghost use Rattle.format.specs.Format.{size_word, cause_word, p_word, q_word, bins_word, line_word};
ghost use Rattle.format.specs.Readers.{exactly as exactly_one};
ghost use Rattle.bracket.specs.Lexing.{worth_of, worth_as};
ghost use Rattle.bracket.specs.Lines.{is_bins, is_dir};

use crate::line::{Holding, Start};
use crate::number::numeral;
use mojette::{Direction, MOST_STEP, Reason, is_side};
use std::num::NonZeroU8;

// The word `want`.
pub(crate) fn exactly(word: &[u8], want: &[u8]) -> Result<(), Reason>
    ensures { worth_of result ≡ exactly_one want.now word.now }
{
    if word == want {
        Ok(())
    } else {
        Err(Reason::Token)
    }
}

// The columns or the rows of a tile.
pub(crate) fn side_of(word: &[u8]) -> Result<usize, Reason>
    ensures { worth_of result ≡ size_word word.now }
{
    let n = numeral(word).ok_or(Reason::Token)?;
    match usize::try_from(n) {
        Ok(side) if is_side(side) => Ok(side),
        _ => Err(Reason::Size),
    }
}

// Why a place is lost.
pub(crate) fn cause_of(word: &[u8]) -> Result<NonZeroU8, Reason>
    ensures { worth_as non_zero_u8_get result ≡ cause_word word.now }
{
    numeral(word)
        .and_then(|n| u8::try_from(n).ok())
        .and_then(NonZeroU8::new)
        .ok_or(Reason::Token)
}

// The p of a direction.
pub(crate) fn p_of(word: &[u8]) -> Result<i32, Reason>
    ensures { worth_of result ≡ p_word word.now }
{
    let p = numeral(word).ok_or(Reason::Token)?;
    if p.unsigned_abs() <= MOST_STEP {
        Ok(p)
    } else {
        Err(Reason::Direction)
    }
}

// The direction that q makes with p, which is to be lawful and to stand after the last one.
pub(crate) fn q_of(word: &[u8], p: i32, last: Option<Direction>) -> Result<Direction, Reason>
    ensures { worth_of result ≡ q_word last p word.now }
{
    let q = numeral(word).ok_or(Reason::Token)?;
    let direction = Direction { p, q };
    if !direction.is_lawful() {
        return Err(Reason::Direction);
    }
    if !direction.follows(last) {
        return Err(Reason::Order);
    }
    Ok(direction)
}

// What a place holds.
pub(crate) fn holding_of(word: &[u8]) -> Result<Holding, Reason>
    ensures { worth_as is_bins result ≡ bins_word word.now }
{
    match word {
        b"bins" => Ok(Holding::Bins),
        b"lost" => Ok(Holding::Lost),
        _ => Err(Reason::Token),
    }
}

// How a line begins. An `end` at the first place, and a `dir` without room, are wrong: two facts, each true or false by itself.
pub(crate) fn start_of(word: &[u8], first: bool, room: bool) -> Result<Start, Reason>
    ensures { worth_as is_dir result ≡ line_word first room word.now }
{
    match word {
        b"dir" if room => Ok(Start::Dir),
        b"end" if !first => Ok(Start::End),
        b"dir" | b"end" => Err(Reason::Count),
        _ => Err(Reason::Token),
    }
}
