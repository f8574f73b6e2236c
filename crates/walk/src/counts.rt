// Counting the pixels of all bins.
ghost use Rattle.std.specs.Prelude.{◌≡◌, ℕ, ◌≤◌, ◌<◌, true, length, slice_index, OnOk};
ghost use Rattle.mojette.specs.Bins.{whole};
ghost use Rattle.mojette.specs.Faults.{refused};
ghost use Rattle.law.specs.Steps.{written};
ghost use Rattle.plan.specs.Laid.{record_of};
ghost use Rattle.plan.specs.Shapes.{shape};
ghost use Rattle.walk.specs.Counts.{counting_refused, counts_after, FewPixels, LaidWithin, pixels_of_bin};
ghost use Rattle.walk.specs.Lines.{OnTile};
ghost use Rattle.walk.specs.Passing.{Passes};

use crate::columns::Columns;
use mojette::{Fault, Size, Table};
use plan::{Place, Plan};

impl Columns {
    // How many of them are at a bin, 0 or 1. The bins before it have been passed.
    fn pass(&mut self, bin: usize) -> u8
        ensures { Passes self.old bin result self.new }
    {
        if self.next == bin && bin < self.end {
            self.next += self.q;
            1
        } else {
            0
        }
    }
}

// Counts the pixels of a direction that goes both across and down, in the bins of its place. A bin has the pixels of the bin one
// row before it, moved by that row, with those of a column that begins there, and without those of a column that has come to its end.
// (Size and place, which a plan holds apart.)
fn count_slanted(size: Size, place: Place, bins: &mut [u8])
    requires line { OnTile size.columns size.rows place.q place.slope 0 }
    requires place { whole (record_of place) ≡ true }
    requires slanted { (1 ≤ place.q) × (1 ≤ place.slope) }
    ensures { (b : ℕ) → b < length bins.old →
        slice_index bins.new b ≡ pixels_of_bin size.columns size.rows place b }
{
    let width = size.columns * place.q;
    let height = size.rows * place.slope;
    let mut begins = Columns {
        next: 0,
        end: width,
        q: place.q,
    };
    let mut ends = Columns {
        next: height,
        end: height + width,
        q: place.q,
    };
    // By index, since a bin is counted from an earlier one.
    for b in 0..bins.len() {
        let before = if b < place.slope {
            0
        } else {
            bins[b - place.slope]
        };
        bins[b] = before + begins.pass(b) - ends.pass(b);
    }
}

// Counts the pixels of the bins of one place. Rows and columns are at most 64, and fit a byte. (Size and place, which a plan holds apart.)
fn count_place(size: Size, place: Place, counts: &mut [u8])
    requires { LaidWithin size.columns size.rows place (length counts.old) }
    ensures { counts.new
        ≡ written place.start place.bins (pixels_of_bin size.columns size.rows place) counts.old }
{
    let bins = &mut counts[place.start..place.start + place.bins];
    if !place.is_whole() {
        bins.fill(0);
    } else if place.slope == 0 {
        bins.fill(size.rows as u8);
    } else if place.q == 0 {
        bins.fill(size.columns as u8);
    } else {
        count_slanted(size, place, bins);
    }
}

// Sets each count to the number of pixels of its bin, 0 in lost places.
pub fn count_pixels(plan: &Plan, counts: &mut [u8]) -> Result<(), Fault>
    ensures answer { refused result ≡ counting_refused (shape plan.now) counts.old }
    ensures counts { counts.new ≡ counts_after (shape plan.now) counts.old }
    ensures few { OnOk result (FewPixels (shape plan.now) counts.new) }
{
    if counts.len() < plan.total() {
        return Err(Fault::ShortTable(Table::Counts));
    }
    let size = plan.size();
    for place in plan.places() {
        count_place(size, *place, counts);
    }
    Ok(())
}
