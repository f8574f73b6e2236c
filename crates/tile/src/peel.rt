// Peeling one bin: its missing pixel is found, and taken off its bins. Written once for every kind of sample, and however the missing pixels are kept.
ghost use Rattle.std.specs.Prelude.{◌≡◌, ◌<◌, true};
ghost use Rattle.mojette.specs.Meaning.{pixels_of, bins_of};
ghost use Rattle.peeling.specs.Steps.{take_off, take_off_all, peeled};
ghost use Rattle.plan.specs.Shapes.{shape};
ghost use Rattle.law.specs.Life.{LongEnough};
ghost use Rattle.law.specs.Positions.{incidence};
ghost use Rattle.law.specs.Steps.{finds, world_of};
ghost use Rattle.walk.specs.Finding.{OfTile};
ghost use Rattle.notes.specs.Missing.{Missing, Misses, by_marks, found_in, found};
ghost use Rattle.tile.specs.Worlds.{IsStillLent, contents, told};

use crate::lent::Tables;
use crate::ring::append;
use notes::Tally;
use peeling::State;
use plan::Plan;
use samples::{Kind, minus};
use walk::{Pixel, bin_of};

// Takes v, and a found pixel, off the bin at one position, which is appended where its count becomes 1. Plan, state, tables and tally are lent one by one:
// a state with its tables in one struct would be made of lent parts, and what is written through such a one is not known afterwards.
#[tactic(auto, using(std::proofs::lemmas::Bool::Decides::nat_tests), unfolding(peeling::specs::Steps::take_off, peeling::specs::Steps::append, peeling::specs::Steps::lowered))]
fn take_off<K: Kind, T: Tally>(
    plan: &Plan,
    v: K,
    at: usize,
    cell: usize,
    state: &mut State,
    tables: &mut Tables<K>,
    tally: &mut T,
)
    requires at { at < bins_of (shape plan.now) }
    requires cell { cell < pixels_of (shape plan.now) }
    requires long { LongEnough (shape plan.now) (contents tables.old) }
    requires knows { (m : Missing) × T.knows (shape plan.now) m tally.old × (m at cell ≡ true) }
    ensures lent { IsStillLent tables.old tables.new }
    ensures marks { tables.new.marks.now ≡ tables.old.marks.now }
    ensures world { world_of state.new (told T.Tally (shape plan.now) tally.new tables.new)
        ≡ take_off K.Kind (bins_of (shape plan.now)) v at
        (world_of state.old (told T.Tally (shape plan.now) tally.old tables.old)) }
    ensures knows { (m : Missing) → T.knows (shape plan.now) m tally.old → m at cell ≡ true →
        T.knows (shape plan.now) (found_in at cell m) tally.new }
{
    tables.sums[at] = minus(tables.sums[at], v);
    if tally.take_off(plan, at, cell, tables.counts) {
        append(state, tables.queue, plan.total(), at);
    }
}

// Takes v, and a found pixel, off its bin in each whole place, in order. (Lent one by one, as above.)
fn take_off_all<K: Kind, T: Tally>(
    plan: &Plan,
    pixel: Pixel,
    v: K,
    state: &mut State,
    tables: &mut Tables<K>,
    tally: &mut T,
)
    requires pixel { OfTile (shape plan.now).P (shape plan.now).Q pixel }
    requires long { LongEnough (shape plan.now) (contents tables.old) }
    requires knows { (m : Missing) × T.knows (shape plan.now) m tally.old
        × Misses (shape plan.now) m pixel.cell }
    ensures lent { IsStillLent tables.old tables.new }
    ensures marks { tables.new.marks.now ≡ tables.old.marks.now }
    ensures world { world_of state.new (told T.Tally (shape plan.now) tally.new tables.new)
        ≡ take_off_all K.Kind (incidence (shape plan.now)) pixel.cell v (bins_of (shape plan.now))
        (world_of state.old (told T.Tally (shape plan.now) tally.old tables.old)) }
    ensures knows { (m : Missing) → T.knows (shape plan.now) m tally.old →
        Misses (shape plan.now) m pixel.cell → T.knows (shape plan.now) (found pixel.cell m) tally.new }
{
    let places = plan.places();
    let columns = plan.columns();
    let rows = plan.rows();
    for (i, place) in places.iter().enumerate() {
        if place.is_whole() {
            let at = plan.start(i) + bin_of(columns, rows, place, pixel);
            take_off(plan, v, at, pixel.cell, state, tables, tally);
        }
    }
}

// Where the bin at a position is whole and exactly one pixel of it is missing, that pixel takes the bin's sum.
// The answer is the pixel's cell. (Lent one by one, as above.)
#[tactic(auto, using(std::proofs::lemmas::Bool::Decides::nat_tests, walk::proofs::Finding::lone_there), unfolding(law::specs::Steps::finds, peeling::specs::Steps::peeled, peeling::specs::Steps::find, peeling::specs::Steps::placed, peeling::specs::Steps::one_found, peeling::specs::Steps::open_in))]
pub(crate) fn peel_bin<K: Kind, T: Tally>(
    plan: &Plan,
    at: usize,
    state: &mut State,
    tables: &mut Tables<K>,
    tally: &mut T,
) -> Option<usize>
    requires position { at < bins_of (shape plan.now) }
    requires long { LongEnough (shape plan.now) (contents tables.old) }
    requires knows { T.knows (shape plan.now) (by_marks (shape plan.now) tables.old.marks.now) tally.old }
    ensures lent { IsStillLent tables.old tables.new }
    ensures cell { result ≡ finds K.Kind (shape plan.now) at
        (world_of state.old (told T.Tally (shape plan.now) tally.old tables.old)) }
    ensures world { world_of state.new (told T.Tally (shape plan.now) tally.new tables.new)
        ≡ peeled K.Kind (incidence (shape plan.now)) at
        (world_of state.old (told T.Tally (shape plan.now) tally.old tables.old)) }
    ensures knows { T.knows (shape plan.now) (by_marks (shape plan.now) tables.new.marks.now) tally.new }
{
    let marks = &mut *tables.marks;
    let pixel = tally.lone(plan, at, marks)?;
    marks[pixel.cell] = 1;
    let v = tables.sums[at];
    tables.picture[pixel.cell] = v;
    state.left = state.left.saturating_sub(1);
    take_off_all(plan, pixel, v, state, tables, tally);
    Some(pixel.cell)
}
