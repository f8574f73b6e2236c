// Laying out a place of a tile.
ghost use Rattle.std.specs.Prelude.{◌≡◌, ◌+◌, ◌*◌, ◌<◌, ◌≤◌};
ghost use Rattle.mojette.specs.Bins.{bins};
ghost use Rattle.mojette.specs.Bounds.{most_step};
ghost use Rattle.plan.specs.Laid.{laid, direction_of, bin_number};

use crate::places::Place;
use mojette::{Record, Size};

// The place of a record, from a position on. A place does not hold the size of its tile, which all places of
// a plan share: so functions take both.
pub(crate) fn lay(size: Size, entry: Record, start: usize) -> Place
    ensures { result ≡ laid size.columns size.rows entry start }
{
    let direction = entry.direction;
    Place {
        slope: direction.p.unsigned_abs() as usize,
        leftward: direction.p < 0,
        q: direction.q.unsigned_abs() as usize,
        cause: entry.cause,
        start,
        bins: size.bins(direction),
    }
}

// The cell of the pixel in column k and row l, counted from the top left; walk counts along a line of pixels.
pub(crate) fn cell_of(size: Size, k: usize, l: usize) -> usize
    requires { (k < size.columns) × (l < size.rows) }
    ensures value { result ≡ l * size.columns + k }
    ensures inside { result < size.columns * size.rows }
{
    l * size.columns + k
}

impl Place {
    // The bin of the pixel in column k and row l; a projection asks for the first column of each row. (Size
    // and place, as for `lay`.)
    pub(crate) fn bin_of(self, size: Size, k: usize, l: usize) -> usize
        requires pixel { (k < size.columns) × (l < size.rows) }
        requires steps { (self.q ≤ most_step) × (self.slope ≤ most_step) }
        ensures value { result ≡ bin_number size.columns size.rows self k l }
        ensures inside { result < bins size.columns size.rows (direction_of self) }
    {
        let along = if self.leftward { size.rows - 1 - l } else { l };
        (size.columns - 1 - k) * self.q + along * self.slope
    }
}
