// Reading a plan.
ghost use Rattle.std.specs.Prelude.{◌≡◌, ◌≤◌, All, length};
ghost use Rattle.mojette.specs.Bins.{start};
ghost use Rattle.mojette.specs.Bounds.{most_bins, most_positions};
ghost use Rattle.mojette.specs.Meaning.{pixels_of, bins_of};
ghost use Rattle.plan.specs.Shapes.{shape, places_of};

use crate::places::Place;
use crate::plan::Plan;
use mojette::Size;

impl Plan {
    /// The places, in order, lost ones too.
    pub fn places(&self) -> &[Place]
        ensures value { result.now ≡ places_of self.now }
        ensures few_bins { All (λ place. place.bins ≤ most_bins) result.now }
    {
        &self.places[0..self.count]
    }

    /// P and Q.
    pub fn size(&self) -> Size
        ensures columns { result.columns ≡ (shape self.now).P }
        ensures rows { result.rows ≡ (shape self.now).Q }
    {
        self.size
    }

    /// P, the number of columns.
    pub fn columns(&self) -> usize
        ensures { result ≡ (shape self.now).P }
    {
        self.size.columns
    }

    /// Q, the number of rows.
    pub fn rows(&self) -> usize
        ensures { result ≡ (shape self.now).Q }
    {
        self.size.rows
    }

    /// N, the number of places.
    pub fn count(&self) -> usize
        ensures { result ≡ length (shape self.now).records }
    {
        self.places().len()
    }

    /// The position of bin 0 of place i; T, where the last place ends, if there is no place i.
    pub fn start(&self, i: usize) -> usize
        ensures value { result ≡ start (shape self.now).P (shape self.now).Q (shape self.now).records i }
        ensures few { result ≤ most_positions }
    {
        match self.places().get(i) {
            Some(place) => place.start,
            None => self.total,
        }
    }

    /// P·Q, how many pixels the tile has.
    pub fn pixels(&self) -> usize
        ensures { result ≡ pixels_of (shape self.now) }
    {
        self.size.pixels()
    }

    /// T, the number of all bins, of lost places too.
    pub fn total(&self) -> usize
        ensures value { result ≡ bins_of (shape self.now) }
        ensures some { 1 ≤ result }
        ensures few { result ≤ most_positions }
    {
        self.total
    }
}
