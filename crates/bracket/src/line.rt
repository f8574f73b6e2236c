// The lines of a file. A file of its own, so that `specs/` can name the types.
ghost use Rattle.std.specs.Prelude.{◌≤◌};
ghost use Rattle.mojette.specs.Bounds.{most_places};

use mojette::{Direction, MOST_PLACES};
use std::num::NonZeroU8;

// How a line after the first begins: with `(dir`, or with `(end`.
#[derive(Clone, Copy)]
pub(crate) enum Start {
    Dir,
    End,
}

// What stands after a direction: `bins`, or `lost`.
#[derive(Clone, Copy)]
pub(crate) enum Holding {
    Bins,
    Lost,
}

// What a place holds: codes, each after a space, from this byte of the text on; or nothing, and why.
#[derive(Clone, Copy)]
pub(crate) enum Held {
    Bins(usize),
    Lost(NonZeroU8),
}

// The line of a place.
#[derive(Clone, Copy)]
pub(crate) struct Line {
    pub direction: Direction,
    pub held: Held,
}

// The lines of the places: the first `count` of a table, which is copied, as no vector is.
#[derive(Clone, Copy)]
pub(crate) struct Lines {
    pub table: [Line; MOST_PLACES],
    pub count: usize,
    ghost few: { count ≤ most_places },
}
