//! What a fault tells in numbers. `sentences` gives the same in words.
ghost use Rattle.std.specs.Prelude.{◌≡◌, ◌++◌, codes, decimal, Some};
ghost use Rattle.mojette.specs.Faults.{table_number, reason_number, refusal_of};

use crate::fault::{Fault, Reason, Refusal, Table};
use std::fmt;

impl Table {
    /// The number by which refusals tell the table, 1 to 5.
    pub fn number(self) -> usize
        ensures { result ≡ table_number self }
    {
        self as usize
    }
}

impl Reason {
    /// The number by which refusals tell the reason, 0 to 4.
    pub fn number(self) -> usize
        ensures { result ≡ reason_number self }
    {
        self as usize
    }
}

fn told(number: usize, first: usize, second: usize, third: usize) -> Refusal
    ensures { result ≡ record { number = number; first = first; second = second; third = third } }
{
    Refusal {
        number,
        first,
        second,
        third,
    }
}

impl From<Fault> for Refusal {
    ghost from_gives = { λ fault refusal. refusal ≡ refusal_of fault };

    /// The number of the refusal, and the values that the fault tells.
    fn from(fault: Fault) -> Refusal {
        match fault {
            Fault::Size => told(1, 0, 0, 0),
            Fault::PlaceCount => told(2, 0, 0, 0),
            Fault::Unlawful(place) => told(3, place, 0, 0),
            Fault::Disorder(place) => told(4, place, 0, 0),
            Fault::ShortTable(table) => told(5, table.number(), 0, 0),
            Fault::AllLoaded => told(6, 0, 0, 0),
            Fault::OtherSource => told(7, 0, 0, 0),
            Fault::NotLoaded(places) => told(8, places, 0, 0),
            Fault::Ghost(columns, rows) => told(9, columns, rows, 0),
            Fault::NoneWaits => told(10, 0, 0, 0),
            Fault::BadCell(cell) => told(11, cell, 0, 0),
            Fault::BadGrant => told(12, 0, 0, 0),
            Fault::PixelsMissing(pixels) => told(13, pixels as usize, 0, 0),
            Fault::GrantsOut(grants) => told(14, grants as usize, 0, 0),
            Fault::LeftOver(place, bin) => told(15, place, bin, 0),
            Fault::NoPlace => told(16, 0, 0, 0),
            Fault::Lost(cause) => told(17, cause as usize, 0, 0),
            Fault::NoBin => told(18, 0, 0, 0),
            Fault::RunLength(total) => told(19, total, 0, 0),
            Fault::NoFile(file) => told(20, file.line, file.text.byte, file.text.reason.number()),
            Fault::ShortOutput(needed) => told(21, needed, 0, 0),
            Fault::Oversize => told(22, 0, 0, 0),
        }
    }
}

/// `refused` and the four numbers.
impl fmt::Display for Refusal {
    ghost output = { λ r. Some (codes "refused " ++ decimal r.number ++ codes " " ++ decimal r.first
        ++ codes " " ++ decimal r.second ++ codes " " ++ decimal r.third) };

    fn fmt<W: fmt::Write>(&self, f: &mut fmt::Formatter<W>) -> fmt::Result {
        let Refusal {
            number,
            first,
            second,
            third,
        } = *self;
        write!(f, "refused {number} {first} {second} {third}")
    }
}
