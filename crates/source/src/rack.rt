// A rack. A file of its own, so that `specs/` can name the type.
ghost use Rattle.std.specs.Prelude.{◌≡◌, length};
ghost use Rattle.mojette.specs.Meaning.{bins_of};
ghost use Rattle.plan.specs.Shapes.{shape};

use mojette::Record;
use plan::Plan;

/// A source that is lent one run of samples in order of position, beside the records of its places. The run
/// has cells for lost places too, which nobody reads.
// The plan is laid out of the records.
#[derive(Drop)]
pub struct Rack<'a, K> {
    pub(crate) plan: Plan,
    pub(crate) records: &'a [Record],
    pub(crate) run: &'a [K],
    ghost same: { (shape plan).records ≡ records.now },
    ghost full: { length run.now ≡ bins_of (shape plan) },
}
