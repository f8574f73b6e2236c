// Loading all places.
ghost use Rattle.runs.specs.Runs.{LoadsAll};
ghost use Rattle.tile.specs.Worlds.{IsStillLent, contents};

use plan::Plan;
use source::Source;
use tile::{Loading, Refused, Tables};

// Loads every place of the source.
pub(crate) fn load_all<S: Source>(
    mut tile: Loading,
    source: &S,
    plan: &Plan,
    tables: &mut Tables<S::Sample>,
) -> Result<Loading, Refused<Loading>>
    ensures lent { IsStillLent tables.old tables.new }
    ensures all { LoadsAll S.Sample.Kind (S.meaning source.now) plan.now tile (contents tables.old)
        result (contents tables.new) }
{
    for _ in 0..plan.count() {
        tile = tile.load(source, plan, tables)?;
    }
    Ok(tile)
}
