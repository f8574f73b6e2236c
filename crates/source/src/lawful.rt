// Whether a source is lawful: the one check of every call that is handed a source.
ghost use Rattle.mojette.specs.Meaning.{shape_of};
ghost use Rattle.plan.specs.Layouts.{Plans};

use crate::source::Source;
use mojette::{Fault, MOST_PLACES, Record, Size};
use plan::Plan;

/// The plan of a source, or why the source is not lawful. It is asked for its sizes, then for its places, and
/// for no sum.
pub fn plan_of<S: Source>(source: &S) -> Result<Plan, Fault>
    ensures { Plans (shape_of (S.meaning source.now)) result }
{
    let sizes = source.sizes();
    let size = Size::of(sizes.columns, sizes.rows)?;
    let count = sizes.places;
    // As `Plan::of` tests it, here before the places are asked for.
    if count < 1 || count > MOST_PLACES {
        return Err(Fault::PlaceCount);
    }
    // As many as are asked for, in the first cells of an array: none is allocated.
    let mut records = [Record::new(0, 0, 0); MOST_PLACES];
    let places = &mut records[..count];
    for (i, entry) in places.iter_mut().enumerate() {
        *entry = source.place(i)?;
    }
    Plan::of(size.columns, size.rows, places)
}
