//! Sizes of tiles, with their pixels and bins.
ghost use Rattle.std.specs.Prelude.{◌≡◌, ◌*◌, ◌≤◌, true, IfOk};
ghost use Rattle.mojette.specs.Bins.{bins};
ghost use Rattle.mojette.specs.Bounds.{most_bins};
ghost use Rattle.mojette.specs.Directions.{lawful};
ghost use Rattle.mojette.specs.Faults.{refused};
ghost use Rattle.mojette.specs.Meaning.{side_ok, sides_verdict};

use crate::direction::Direction;
use crate::fault::Fault;
use crate::order::MOST_SIDE;
use crate::size::Size;

/// Whether a tile may have so many columns, or rows: 1 to 64.
pub fn is_side(n: usize) -> bool
    ensures { result ≡ side_ok n }
{
    1 <= n && n <= MOST_SIDE
}

impl Size {
    /// The size of a tile of so many columns and rows. `Fault::Size` if no tile has them.
    pub fn of(columns: usize, rows: usize) -> Result<Size, Fault>
        ensures verdict { refused result ≡ sides_verdict columns rows }
        ensures value { IfOk result (λ size. (size.columns ≡ columns) × (size.rows ≡ rows)) }
    {
        if is_side(columns) && is_side(rows) {
            Ok(Size { columns, rows })
        } else {
            Err(Fault::Size)
        }
    }

    /// How many pixels a tile has, which is at most 4,096.
    pub fn pixels(self) -> usize
        ensures { result ≡ self.columns * self.rows }
    {
        self.columns * self.rows
    }

    /// B, the number of bins along a direction. The direction may be any two numbers; an unlawful
    /// one may have more than `MOST_BINS`.
    pub fn bins(self, direction: Direction) -> usize
        ensures value { result ≡ bins self.columns self.rows direction }
        ensures few { lawful direction ≡ true → result ≤ most_bins }
    {
        let across = direction.p.unsigned_abs() as usize;
        let down = direction.q.unsigned_abs() as usize;
        (self.columns - 1) * down + (self.rows - 1) * across + 1
    }
}

#[cfg(test)]
mod tests {
    use super::*;
    use crate::order::MOST_BINS;

    #[test]
    fn sizes_at_the_bounds(rt: HostRuntime) {
        assert_eq!(rt; Size::of(64, 1).map(|size| size.pixels()), Ok(64));
        for (columns, rows) in [(65, 1), (1, 65), (0, 1), (1, 0)] {
            assert!(rt; Size::of(columns, rows) == Err(Fault::Size));
        }
    }

    // B of directions of a tile of 3 by 2.
    const BINS: [(i32, i32, usize); 4] = [
        (1, 0, 2),
        (0, 1, 3),
        (-3, 2, 8),
        (i32::MIN, 0, 0x8000_0001),
    ];

    #[test]
    fn bins_of_directions(rt: HostRuntime) {
        for (p, q, wanted) in BINS {
            let bins = Size::of(3, 2).map(|size| size.bins(Direction { p, q }));
            assert!(rt; bins == Ok(wanted));
        }
    }

    // The bound is no larger than it has to be.
    #[test]
    fn the_most_bins_are_reached(rt: HostRuntime) {
        for (p, q) in [(7, 6), (6, 7), (-7, 6), (-6, 7)] {
            let direction = Direction { p, q };
            assert!(rt; direction.is_lawful());
            let bins = Size::of(64, 64).map(|size| size.bins(direction));
            assert!(rt; bins == Ok(MOST_BINS));
        }
    }
}
