// The ghost of a plan, written once for every kind of sample.
ghost use Rattle.std.specs.Prelude.{◌≡◌, ◌+◌, ◌-◌, ◌*◌, ◌<◌, ◌≤◌, ◌↔◌, true, false, length, drop, if◌then◌else◌};
ghost use Rattle.std.specs.Prelude.{IsErrOf, IsOkUnless, IfOk, OnErr};
ghost use Rattle.mojette.specs.Directions.{lawful};
ghost use Rattle.mojette.specs.Faults.{outcome};
ghost use Rattle.mojette.specs.Meaning.{pixels_of};
ghost use Rattle.katz.specs.Made.{left as left_of, leftward as leftward_of, start as start_of, step};
ghost use Rattle.plan.specs.Criteria.{whole_of, criterion_of};
ghost use Rattle.plan.specs.Laid.{direction_of};
ghost use Rattle.plan.specs.Pictures.{picture_of};
ghost use Rattle.plan.specs.Shapes.{shape};
ghost use Rattle.plan.specs.Showing.{shown, showing, ghosted, HoldsGhost};

use crate::clear::clear;
use crate::criterion::Criterion;
use crate::lay::cell_of;
use crate::places::Place;
use crate::plan::Plan;
use mojette::{Fault, Size, Table};
use samples::{Kind, minus};

// Zeros with one spark among them.
fn write_spark<K: Kind>(size: Size, at: usize, picture: &mut [K])
    requires room { size.columns * size.rows ≤ length picture.old }
    requires inside { at < size.columns }
    ensures shows { picture_of K.Kind size.columns size.rows picture.new ≡ start_of K.Kind at }
    ensures others { let pixels = size.columns * size.rows in
        drop pixels picture.new ≡ drop pixels picture.old }
{
    let cells = &mut picture[..size.pixels()];
    clear(cells);
    cells[at] = K::spark_sample();
}

// The columns whose pixels take from a pixel inside the tile, from the first to before the last, and how many
// cells before them that pixel stands.
#[derive(Clone, Copy)]
struct Span {
    first: usize,
    last: usize,
    back: usize,
}

impl Place {
    // How far the direction goes left.
    fn left(self) -> usize
        ensures { result ≡ left_of (direction_of self).p }
    {
        if self.leftward { self.slope } else { 0 }
    }

    // What a step of the ghost changes in each row. (Size and place, as for `lay`.)
    fn span(self, size: Size) -> Span
        requires narrow { self.slope < size.columns }
        requires direction { lawful (direction_of self) ≡ true }
        ensures first { result.first ≡ (if self.leftward then 0 else self.slope) }
        ensures last { result.last ≡ (if self.leftward then size.columns - self.slope else size.columns) }
        ensures back { let down = self.q * size.columns in
            result.back ≡ (if self.leftward then down - self.slope else down + self.slope) }
    {
        let down = self.q * size.columns;
        if self.leftward {
            Span {
                first: 0,
                last: size.columns - self.slope,
                back: down - self.slope,
            }
        } else {
            Span {
                first: self.slope,
                last: size.columns,
                back: down + self.slope,
            }
        }
    }
}

// One step of the ghost in place, from the last cell down: a pixel takes from an earlier cell, which still
// holds the old sample, so that the loops count columns and rows. Pixels that take from outside the tile
// stay. (Size and place, as for `lay`.)
fn take_off<K: Kind>(size: Size, place: Place, picture: &mut [K])
    requires room { size.columns * size.rows ≤ length picture.old }
    requires direction { lawful (direction_of place) ≡ true }
    requires narrow { place.slope < size.columns }
    ensures shows { let pixels = picture_of K.Kind size.columns size.rows in
        pixels picture.new ≡ step K.Kind size.columns size.rows (direction_of place) (pixels picture.old) }
    ensures others { let pixels = size.columns * size.rows in
        drop pixels picture.new ≡ drop pixels picture.old }
{
    let q = place.q;
    let Span { first, last, back } = place.span(size);
    for l in (q..size.rows).rev() {
        for k in (first..last).rev() {
            let cell = cell_of(size, k, l);
            let from = cell - back;
            picture[cell] = minus(picture[cell], picture[from]);
        }
    }
}

impl Plan {
    // k₀, the column of the spark.
    fn spark_column(&self) -> usize
        ensures { result ≡ leftward_of (whole_of (shape self.now)) }
    {
        let mut column = 0;
        for place in self.places() {
            if place.is_whole() {
                column += place.left();
            }
        }
        column
    }

    // Writes the ghost where the criterion fails.
    pub(crate) fn write_ghost<K: Kind>(&self, picture: &mut [K])
        requires room { pixels_of (shape self.now) ≤ length picture.old }
        requires fails { (criterion_of (shape self.now)).enough ≡ false }
        ensures written { picture.new ≡ ghosted K.Kind (shape self.now) picture.old }
        ensures unseen { HoldsGhost K.Kind (shape self.now) picture.new }
    {
        write_spark(self.size, self.spark_column(), picture);
        for place in self.places() {
            if place.is_whole() {
                take_off(self.size, *place, picture);
            }
        }
    }

    /// Tells Katz's criterion, and where it fails writes the ghost of the whole places into the first P·Q
    /// cells of the picture. Pixel (k, l) lies in cell l·P + k. A picture with fewer cells is refused.
    pub fn show_ghost<K: Kind>(&self, picture: &mut [K]) -> Result<Criterion, Fault>
        ensures value { shown (outcome result) picture.new ≡ showing K.Kind (shape self.now) picture.old }

        // The same as a caller reads it: when it refuses, what it answers, and what the picture holds then.
        ensures error { IsErrOf result (Fault.ShortTable Table.Picture)
            ↔ (length picture.old < pixels_of (shape self.now)) }
        ensures only { IsOkUnless result (Fault.ShortTable Table.Picture) }
        ensures criterion { IfOk result (λ c. c ≡ criterion_of (shape self.now)) }
        ensures unseen { IfOk result (λ c. c.enough ≡ false →
            HoldsGhost K.Kind (shape self.now) picture.new) }
        ensures enough { IfOk result (λ c. c.enough ≡ true → picture.new ≡ picture.old) }
        ensures beyond { let pixels = pixels_of (shape self.now) in
            drop pixels picture.new ≡ drop pixels picture.old }
        ensures unchanged { OnErr result (picture.new ≡ picture.old) }
    {
        if picture.len() < self.pixels() {
            return Err(Fault::ShortTable(Table::Picture));
        }
        let criterion = self.criterion::<K>();
        if !criterion.enough {
            self.write_ghost(picture);
        }
        Ok(criterion)
    }
}

#[cfg(test)]
mod tests {
    use super::*;
    use mojette::Record;
    use samples::SumWord;

    // A picture of sevens after the call.
    fn shown(records: &[Record]) -> [u16; 5] {
        let mut picture = [SumWord { value: 7 }; 5];
        if let Ok(plan) = Plan::of(2, 2, records) {
            let _ = plan.show_ghost(&mut picture);
        }
        picture.map(|sample| sample.value)
    }

    #[test]
    fn ghosts_of_two_by_two(rt: HostRuntime) {
        let upright = [Record::new(1, 0, 0), Record::new(0, 1, 0)];
        assert_eq!(rt; shown(&upright), [1, 0xffff, 0xffff, 1, 7]);
        assert_eq!(rt; shown(&[Record::new(-1, 1, 0)]), [0, 1, 0xffff, 0, 7]);
        assert_eq!(rt; shown(&[Record::new(0, 1, 3)]), [1, 0, 0, 0, 7]);
        let enough = [
            Record::new(1, 1, 0),
            Record::new(0, 1, 4),
            Record::new(-1, 1, 0),
        ];
        assert_eq!(rt; shown(&enough), [7, 7, 7, 7, 7]);
    }

    #[test]
    fn a_short_picture_stays(rt: HostRuntime) {
        let mut picture = [SumWord { value: 7 }; 3];
        if let Ok(plan) = Plan::of(2, 2, &[Record::new(-1, 1, 0)]) {
            assert!(rt; plan.show_ghost(&mut picture).is_err());
        }
        assert_eq!(rt; (picture[0].value, picture[1].value), (7, 7));
    }
}
