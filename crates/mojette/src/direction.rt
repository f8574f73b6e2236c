//! Directions of projection. A file of its own, so that `specs/` can name the types.
ghost use Rattle.std.specs.Prelude.{◌≡◌};

/// The direction (p, q): its lines step p columns to the right and q rows down. Callers hand in any
/// two numbers; what is lawful is asked by clauses where it is needed. Laid out as in C, since a
/// record is.
#[repr(C)]
#[derive(Clone, Copy, Debug, PartialEq, Eq)]
pub struct Direction {
    /// Columns to the right; below 0 it is to the left.
    pub p: i32,
    /// Rows down.
    pub q: i32,
}

/// A place of a plan: a direction, and why its projection is lost; cause 0 for a whole one. Records
/// are cells of lent tables, whose cause is a byte by the rules, and is compared as one where it is
/// asked for. Laid out as in C, where programs lend rows of them.
#[repr(C)]
#[derive(Clone, Copy, Debug, PartialEq, Eq)]
pub struct Record {
    pub direction: Direction,
    /// Why the projection is lost, 1 to 255; 0 where it is whole.
    pub cause: u8,
}

impl Record {
    /// The place of the direction (p, q).
    pub fn new(p: i32, q: i32, cause: u8) -> Record
        ensures { result ≡ record { direction = record { p = p; q = q }; cause = cause } }
    {
        Record {
            direction: Direction { p, q },
            cause,
        }
    }
}
