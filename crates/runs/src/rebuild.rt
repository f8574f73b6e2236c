// Rebuilding a tile from a source.
ghost use Rattle.std.specs.Prelude.{◌≡◌, None};
ghost use Rattle.mojette.specs.Meaning.{Lawful, shape_of};
ghost use Rattle.plan.specs.Shapes.{shape};
ghost use Rattle.law.specs.Law.{Law};
ghost use Rattle.law.specs.Steps.{short};
ghost use Rattle.runs.specs.Alone.{PeelsToRest};
ghost use Rattle.runs.specs.Rebuilding.{answer, Rebuilds, ServesExactly, Fills};
ghost use Rattle.runs.specs.Worker.{one_worker};
ghost use Rattle.tile.specs.Lives.{CallsLive};
ghost use Rattle.tile.specs.Worlds.{IsStillLent, contents, short_refusal};

use crate::steps::load_all;
use mojette::Fault;
use plan::Plan;
use source::Source;
use tile::{Finished, Loading, Tables, open};

// The tile that was opened, from its first load to its end.
fn run<S: Source>(
    tile: Loading,
    source: &S,
    plan: &Plan,
    tables: &mut Tables<S::Sample>,
) -> Result<Finished, Fault>
    requires lawful { Lawful (shape_of (S.meaning source.now)) }
    requires own { shape plan.now ≡ shape_of (S.meaning source.now) }
    requires opened { tile ≡ 0 }
    requires long { None ≡ short_refusal (short (shape plan.now) (contents tables.old)) }
    ensures lent { IsStillLent tables.old tables.new }
    ensures run { Rebuilds S.Sample.Kind (S.meaning source.now) (contents tables.old)
        (answer result) (contents tables.new) }
    ensures by_steps { (answer result, contents tables.new)
        ≡ one_worker S.Sample.Kind (S.meaning source.now) (contents tables.old) }
{
    let Ok(tile) = load_all(tile, source, plan, tables) else {
        unreachable()
    };
    let tile = tile.seal_and_peel(plan, tables)?;
    Ok(tile.finish(plan, tables)?)
}

/// Rebuilds the tile of a source: opens, loads, seals and peels, and finishes. The picture is then in the picture table, row by
/// row, and `Finished::picture` hands it out.
///
/// Refuses a source that is not lawful (1 to 4) and a table that is too short (5), and then leaves plan and tables as they were;
/// too few whole places (9), and then shows a ghost in the picture; and sums that contradict one another (15).
pub fn rebuild<S: Source>(
    source: &S,
    plan: &mut Plan,
    tables: &mut Tables<S::Sample>,
) -> Result<Finished, Fault>
    ensures lent { IsStillLent tables.old tables.new }
    ensures run { Rebuilds S.Sample.Kind (S.meaning source.now) (contents tables.old)
        (answer result) (contents tables.new) }
    ensures by_steps { (answer result, contents tables.new)
        ≡ one_worker S.Sample.Kind (S.meaning source.now) (contents tables.old) }
    ensures exactly { ServesExactly S.Sample.Kind (S.meaning source.now) (contents tables.old)
        (answer result) }
    ensures plan { Fills S.Sample.Kind (S.meaning source.now) (contents tables.old) plan.old plan.new }
    ensures law { Law S.Sample.Kind }
    ensures calls { CallsLive S.Sample.Kind }
    ensures alone { PeelsToRest S.Sample.Kind }
{
    let mut opened = Plan::fresh();
    let tile = open(source, &mut opened)?;
    tables.check(&opened)?;
    *plan = opened;
    run(tile, source, plan, tables)
}
