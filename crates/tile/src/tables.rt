// The tables that a call uses are checked first, in their order.
ghost use Rattle.std.specs.Prelude.{◌≡◌};
ghost use Rattle.mojette.specs.Faults.{refused};
ghost use Rattle.law.specs.Steps.{short};
ghost use Rattle.plan.specs.Shapes.{shape};
ghost use Rattle.tile.specs.Worlds.{contents, short_refusal, refusal_at};

use crate::lent::Tables;
use mojette::{Fault, Table};
use plan::Plan;

impl<K> Tables<'_, K> {
    /// Refuses where a table is too short for the plan, and tells the first, in the order of their numbers (5).
    #[tactic(auto, using(std::proofs::lemmas::Bool::Decides::nat_tests), unfolding(law::specs::Steps::short))]
    pub fn check(&self, plan: &Plan) -> Result<(), Fault>
        ensures { refused result ≡ short_refusal (short (shape plan.now) (contents self.now)) }
    {
        let pixels = plan.pixels();
        let bins = plan.total();
        let short = if self.picture.len() < pixels {
            Table::Picture
        } else if self.marks.len() < pixels {
            Table::Marks
        } else if self.sums.len() < bins {
            Table::Sums
        } else if self.counts.len() < bins {
            Table::Counts
        } else if self.queue.len() < bins {
            Table::Queue
        } else {
            return Ok(());
        };
        Err(Fault::ShortTable(short))
    }

    // Refuses where a table is too short, and then where the plan has no such position.
    pub(crate) fn check_at(&self, plan: &Plan, at: usize) -> Result<(), Fault>
        ensures { refused result
            ≡ refusal_at (shape plan.now) at (short (shape plan.now) (contents self.now)) }
    {
        self.check(plan)?;
        if at < plan.total() {
            Ok(())
        } else {
            Err(Fault::BadGrant)
        }
    }
}
