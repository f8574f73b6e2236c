// Opening a tile: a lawful source fills the caller's plan.
ghost use Rattle.tile.specs.Calls.{Opens};

use crate::states::Loading;
use mojette::Fault;
use plan::Plan;
use source::{Source, plan_of};

/// Fills the plan, whatever it held, and gives a tile of which no place is loaded. Refuses a source that is not lawful (1 to 4),
/// and then leaves the plan as it was.
pub fn open<S: Source>(source: &S, plan: &mut Plan) -> Result<Loading, Fault>
    ensures { Opens (S.meaning source.now) plan.old result plan.new }
{
    *plan = plan_of(source)?;
    Ok(Loading { loaded: 0 })
}
