// A lawful plan. A file of its own, so that `specs/` can name the type.
ghost use Rattle.std.specs.Prelude.{◌≡◌, ◌≤◌, false, take, is_some};
ghost use Rattle.mojette.specs.Bins.{all_bins};
ghost use Rattle.mojette.specs.Bounds.{most_places, most_positions};
ghost use Rattle.mojette.specs.Meaning.{verdict};
ghost use Rattle.plan.specs.Laid.{shape_from, records_of, Starts, Sizes};

use crate::places::Place;
use mojette::{MOST_PLACES, Size};

/// The size of a tile, and its 1 to 16 places laid out one after another. It stands for a lawful shape, and
/// only for one.
// There are `count` places; `total` is T, the number of all bins. A plan is copied, as no vector is, so that
// the places are an array beside their count.
#[derive(Clone, Copy)]
pub struct Plan {
    pub(crate) size: Size,
    pub(crate) places: [Place; MOST_PLACES],
    pub(crate) count: usize,
    pub(crate) total: usize,
    ghost lawful: { is_some (verdict (shape_from size.columns size.rows (take count places))) ≡ false },
    ghost starts: { Starts size.columns size.rows (take count places) },
    ghost sizes: { Sizes size.columns size.rows (take count places) },
    ghost full: { total ≡ all_bins size.columns size.rows (records_of (take count places)) },
    // what follows of the numbers, at hand for the code
    ghost some_places: { 1 ≤ count },
    ghost few_places: { count ≤ most_places },
    ghost some_bins: { 1 ≤ total },
    ghost few_bins: { total ≤ most_positions },
}
