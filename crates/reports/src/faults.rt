// The fault that a refusal's number and values tell.
ghost use Rattle.std.specs.Prelude.{◌≡◌, None};
ghost use Rattle.reports.specs.Faults.{table_at, reason_at, file_fault, guessed, fault_told, KnowsFaults};

use mojette::{Fault, FileFault, Reason, Refusal, Table, TextFault};

/// The table with this number.
fn table_at(number: usize) -> Option<Table>
    ensures { result ≡ table_at number }
{
    match number {
        1 => Some(Table::Picture),
        2 => Some(Table::Marks),
        3 => Some(Table::Sums),
        4 => Some(Table::Counts),
        5 => Some(Table::Queue),
        _ => None,
    }
}

/// The reason with this number.
fn reason_at(number: usize) -> Option<Reason>
    ensures { result ≡ reason_at number }
{
    match number {
        0 => Some(Reason::Token),
        1 => Some(Reason::Size),
        2 => Some(Reason::Count),
        3 => Some(Reason::Direction),
        4 => Some(Reason::Order),
        _ => None,
    }
}

/// The fault of a text that is no file.
fn file_fault(line: usize, byte: usize, reason: Reason) -> Fault
    ensures { result ≡ file_fault line byte reason }
{
    Fault::NoFile(FileFault {
        line,
        text: TextFault { byte, reason },
    })
}

/// The fault of a number, with as much of the values as it tells.
fn guess(refusal: Refusal) -> Option<Fault>
    ensures { result ≡ guessed refusal }
{
    let Refusal {
        number,
        first,
        second,
        third,
    } = refusal;
    match number {
        1 => Some(Fault::Size),
        2 => Some(Fault::PlaceCount),
        3 => Some(Fault::Unlawful(first)),
        4 => Some(Fault::Disorder(first)),
        5 => table_at(first).map(Fault::ShortTable),
        6 => Some(Fault::AllLoaded),
        7 => Some(Fault::OtherSource),
        8 => Some(Fault::NotLoaded(first)),
        9 => Some(Fault::Ghost(first, second)),
        10 => Some(Fault::NoneWaits),
        11 => Some(Fault::BadCell(first)),
        12 => Some(Fault::BadGrant),
        13 => u32::try_from(first).ok().map(Fault::PixelsMissing),
        14 => u32::try_from(first).ok().map(Fault::GrantsOut),
        15 => Some(Fault::LeftOver(first, second)),
        16 => Some(Fault::NoPlace),
        17 => u8::try_from(first).ok().map(Fault::Lost),
        18 => Some(Fault::NoBin),
        19 => Some(Fault::RunLength(first)),
        20 => reason_at(third).map(|reason| file_fault(first, second, reason)),
        21 => Some(Fault::ShortOutput(first)),
        22 => Some(Fault::Oversize),
        _ => None,
    }
}

/// The fault that has this refusal, if there is one.
pub fn fault_of(refusal: Refusal) -> Option<Fault>
    ensures value { result ≡ fault_told refusal }
    ensures law { KnowsFaults }
{
    guess(refusal).filter(|fault| Refusal::from(*fault) == refusal)
}
