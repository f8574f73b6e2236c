//! Why the bench refuses. A file of its own, so that `specs/` can name the types.

/// The caller's tables, by their numbers. A position is a bin of a place, counted over all places.
#[derive(Clone, Copy, Debug, PartialEq, Eq)]
pub enum Table {
    /// A sample for each pixel.
    Picture = 1,
    /// A byte for each pixel: 0 while it is missing.
    Marks = 2,
    /// A sample for each position.
    Sums = 3,
    /// A byte for each position: how many pixels of its bin are missing.
    Counts = 4,
    /// A ring of positions.
    Queue = 5,
}

/// Why a token of a text is wrong.
#[derive(Clone, Copy, Debug, PartialEq, Eq)]
pub enum Reason {
    /// It is not the token that belongs there, or not well formed.
    Token = 0,
    /// P or Q is out of range.
    Size = 1,
    /// An `end` before any `dir`, or a `dir` past the last place.
    Count = 2,
    /// p or q is out of range, or q makes an unlawful direction.
    Direction = 3,
    /// q breaks the order of the directions.
    Order = 4,
}

/// A fault of a text: where its first wrong token stands, and why it is wrong.
#[derive(Clone, Copy, Debug, PartialEq, Eq)]
pub struct TextFault {
    /// The first byte of the token, counted from 0 over the whole text.
    pub byte: usize,
    pub reason: Reason,
}

/// A fault of a file: the line of the wrong token beside the fault of the text.
#[derive(Clone, Copy, Debug, PartialEq, Eq)]
pub struct FileFault {
    /// The line, counted from 1.
    pub line: usize,
    pub text: TextFault,
}

/// The bench's fault. docs/REFUSALS.md gives each case its number and what it tells.
#[derive(Clone, Copy, Debug, PartialEq, Eq)]
pub enum Fault {
    /// P or Q is outside 1 to 64.
    Size,
    /// There are fewer than 1 or more than 16 places.
    PlaceCount,
    /// The direction of this place is not lawful.
    Unlawful(usize),
    /// The direction of this place does not come after the one before it.
    Disorder(usize),
    /// This table is too short, the first of those that the call uses.
    ShortTable(Table),
    /// All places are loaded.
    AllLoaded,
    /// The source differs from the plan in P, Q or N, or in this place's direction or cause.
    OtherSource,
    /// So many places are not loaded.
    NotLoaded(usize),
    /// Katz's criterion fails, by C and R.
    Ghost(usize, usize),
    /// No position waits in the queue.
    NoneWaits,
    /// This cell of the queue holds T or more.
    BadCell(usize),
    /// A grant of T or more, which comes from a larger tile.
    BadGrant,
    /// So many pixels are missing.
    PixelsMissing(u32),
    /// So many grants are out.
    GrantsOut(u32),
    /// The first sum that is not zero is that of this place and bin.
    LeftOver(usize, usize),
    /// The source has no such place.
    NoPlace,
    /// The projection of this place is lost, by this cause.
    Lost(u8),
    /// The place has no such bin.
    NoBin,
    /// A rack's run is not of this length, which is T.
    RunLength(usize),
    /// The text is no file.
    NoFile(FileFault),
    /// The output is shorter than this, which it needs: bytes of a text, or cells of a table.
    ShortOutput(usize),
    /// The program alone: an input of more than 65,536 bytes, or a tile of more than 8,192
    /// positions.
    Oversize,
}

/// A refusal by its number, with the three values that it tells: 0 where it tells nothing. These
/// are the numbers that docs/REFUSALS.md gives and files show; code tells refusals apart by
/// `Fault`. Laid out as in C, where programs are told them.
#[repr(C)]
#[derive(Clone, Copy, Debug, PartialEq, Eq)]
pub struct Refusal {
    /// The number of the refusal, 1 to 22.
    pub number: usize,
    pub first: usize,
    pub second: usize,
    pub third: usize,
}
