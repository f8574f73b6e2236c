// How it is kept which pixels of the bins are missing. A file of its own, so that `specs/` can name the trait's ghost members.
ghost use Rattle.std.specs.Prelude.{◌≡◌, ℕ, ◌-◌, ◌==◌, ◌<◌, ◌≤◌, true, List, length, slice_index, IfSome};
ghost use Rattle.mojette.specs.Meaning.{Shape, pixels_of, bins_of};
ghost use Rattle.plan.specs.Shapes.{shape};
ghost use Rattle.walk.specs.Counts.{counted};
ghost use Rattle.walk.specs.Finding.{lone, OfTile};
ghost use Rattle.notes.specs.Missing.{Missing, Alike, all_missing, by_marks, found_in, one_less};

use plan::Plan;
use walk::Pixel;

// What is kept of the missing pixels of the bins. All peeling is written over one of these and a kind of sample.
pub trait Tally {
    // The counts that it stands for, beside a lent table of counts.
    ghost counts_by: { Shape → Self → List ℕ → List ℕ };

    // What is kept is true where just these pixels are missing.
    ghost knows: { Shape → Missing → Self → Type 0 };

    // Only the bins and pixels of the tile count.
    ghost alike: { (s : Shape) (m m' : Missing) (x : Self) →
        Alike s m m' → knows s m x → knows s m' x };

    // It stands for as many counts as the table has.
    ghost as_long: { (s : Shape) (x : Self) (counts : List ℕ) →
        length (counts_by s x counts) ≡ length counts };

    // All pixels are missing.
    fn set_up(&mut self, plan: &Plan, counts: &mut [u8])
        requires { bins_of (shape plan.now) ≤ length counts.old }
        ensures counts { let s = shape plan.now in
            counts_by s self.new counts.new ≡ counted s counts.old }
        ensures knows { knows (shape plan.now) (all_missing (shape plan.now)) self.new };

    // Whether the count of the bin at a position is 1.
    fn is_one(&self, plan: &Plan, at: usize, counts: &[u8]) -> bool
        requires { (at < bins_of (shape plan.now)) × (bins_of (shape plan.now) ≤ length counts.now) }
        ensures { result ≡ (slice_index (counts_by (shape plan.now) self.now counts.now) at == 1) };

    // The one missing pixel of the bin at a position, if its place is whole and exactly one is missing.
    fn lone(&self, plan: &Plan, at: usize, marks: &[u8]) -> Option<Pixel>
        requires at { at < bins_of (shape plan.now) }
        requires marks { pixels_of (shape plan.now) ≤ length marks.now }
        requires knows { knows (shape plan.now) (by_marks (shape plan.now) marks.now) self.now }
        ensures is { result ≡ lone (shape plan.now) marks.now at }
        ensures pixel { IfSome result (OfTile (shape plan.now).P (shape plan.now).Q) };

    // The pixel in a cell is found, and taken off the bin at a position. Whether its count becomes 1.
    fn take_off(&mut self, plan: &Plan, at: usize, cell: usize, counts: &mut [u8]) -> bool
        requires at { at < bins_of (shape plan.now) }
        requires cell { cell < pixels_of (shape plan.now) }
        requires room { bins_of (shape plan.now) ≤ length counts.old }
        requires knows { (m : Missing) × knows (shape plan.now) m self.old × (m at cell ≡ true) }
        ensures counts { let s = shape plan.now in
            counts_by s self.new counts.new ≡ one_less at (counts_by s self.old counts.old) }
        ensures one { result ≡ (slice_index (counts_by (shape plan.now) self.old counts.old) at - 1 == 1) }
        ensures knows { let s = shape plan.now in
            (m : Missing) → knows s m self.old → m at cell ≡ true → knows s (found_in at cell m) self.new };
}
