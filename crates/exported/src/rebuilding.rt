// Rebuilding the tile of a rack.
ghost use Rattle.std.specs.Prelude.{◌≡◌, ◌*◌, ◌≢◌};
ghost use Rattle.mojette.specs.Bins.{all_bins};
ghost use Rattle.mojette.specs.Faults.{outcome};
ghost use Rattle.source.specs.Racks.{racking};
ghost use Rattle.tile.specs.Outcomes.{tables};
ghost use Rattle.tile.specs.Worlds.{IsStillLent, contents};
ghost use Rattle.exported.specs.Rebuilding.{pixels, rebuilding, RebuildsRack, SameBeyond};
ghost use Rattle.exported.specs.Told.{told};

use crate::told::tell;
use mojette::{Fault, Record, Refusal};
use plan::Plan;
use runs::rebuild::rebuild;
use samples::SumWord;
use source::Rack;
use tile::Tables;

// Makes the rack and rebuilds its tile, and answers how many pixels it has.
fn rebuild_rack(
    columns: usize,
    rows: usize,
    records: &[Record],
    run: &[SumWord],
    tables: &mut Tables<SumWord>,
) -> Result<usize, Fault>
    ensures lent { IsStillLent tables.old tables.new }
    ensures answer { outcome result
        ≡ pixels (rebuilding columns rows records.now run.now (contents tables.old)).0 }
    ensures left { contents tables.new
        ≡ (rebuilding columns rows records.now run.now (contents tables.old)).1 }
    ensures run { let left = rebuilding columns rows records.now run.now (contents tables.old) in
        RebuildsRack (racking columns rows records.now run.now) (contents tables.old) left.0 left.1 }
{
    let rack = Rack::new(columns, rows, records, run)?;
    let mut plan = Plan::fresh();
    rebuild(&rack, &mut plan, tables)?;
    Ok(plan.pixels())
}

/// Rebuilds the tile of a rack on the caller's tables, and answers how many pixels the picture has.
#[unsafe(no_mangle)]
pub extern "C" fn mojette_rebuild(
    columns: usize,
    rows: usize,
    records: &[Record],
    run: &[SumWord],
    picture: &mut [SumWord],
    marks: &mut [u8],
    sums: &mut [SumWord],
    counts: &mut [u8],
    queue: &mut [u16],
    refusal: &mut Refusal,
) -> usize
    ensures answer { let before = tables picture.old marks.old sums.old counts.old queue.old in
        (result, refusal.new) ≡ told (pixels (rebuilding columns rows records.now run.now before).0) }
    ensures left { let before = tables picture.old marks.old sums.old counts.old queue.old in
        tables picture.new marks.new sums.new counts.new queue.new
        ≡ (rebuilding columns rows records.now run.now before).1 }
    ensures run { let before = tables picture.old marks.old sums.old counts.old queue.old in
        let left = rebuilding columns rows records.now run.now before in
        RebuildsRack (racking columns rows records.now run.now) before left.0 left.1 }
    // A refusal writes no table, but for a ghost that is shown (9), and for sums that no tile has (15).
    ensures unwritten { let before = tables picture.old marks.old sums.old counts.old queue.old in
        refusal.new.number ≢ 0 → refusal.new.number ≢ 9 → refusal.new.number ≢ 15 →
        tables picture.new marks.new sums.new counts.new queue.new ≡ before }
    ensures beyond { let before = tables picture.old marks.old sums.old counts.old queue.old in
        let after = tables picture.new marks.new sums.new counts.new queue.new in
        SameBeyond (columns * rows) (all_bins columns rows records.now) before after }
{
    let mut tables = Tables {
        picture,
        marks,
        sums,
        counts,
        queue,
    };
    let answer = rebuild_rack(columns, rows, records, run, &mut tables);
    tell(answer, refusal)
}
