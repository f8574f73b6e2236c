// What one worker alone on a tile does after its seal: takes and settles until nothing waits.
ghost use Rattle.std.specs.Prelude.{◌≡◌, false};
ghost use Rattle.mojette.specs.Meaning.{bins_of};
ghost use Rattle.peeling.specs.Steps.{seal as peel_seal};
ghost use Rattle.plan.specs.Shapes.{shape};
ghost use Rattle.law.specs.Life.{LongEnough};
ghost use Rattle.law.specs.Positions.{incidence};
ghost use Rattle.law.specs.Steps.{blank, world_of};
ghost use Rattle.law.specs.Turns.{turn, turns};
ghost use Rattle.notes.specs.Missing.{by_marks};
ghost use Rattle.tile.specs.Worlds.{IsStillLent, contents, told};

use crate::lent::Tables;
use crate::peel::peel_bin;
use crate::ring::{first, pass_first};
use crate::seal::begin;
use crate::settle::count_settled;
use notes::{Notes, Tally};
use peeling::State;
use plan::Plan;
use samples::Kind;

// One turn: the first position that waits is taken, and settled. Whether there was one; else nothing changes. (Lent one by one, as to peel a bin.)
fn turn<K: Kind, T: Tally>(
    plan: &Plan,
    state: &mut State,
    tables: &mut Tables<K>,
    tally: &mut T,
) -> bool
    requires long { LongEnough (shape plan.now) (contents tables.old) }
    requires knows { T.knows (shape plan.now) (by_marks (shape plan.now) tables.old.marks.now) tally.old }
    ensures lent { IsStillLent tables.old tables.new }
    ensures world { world_of state.new (told T.Tally (shape plan.now) tally.new tables.new)
        ≡ turn K.Kind (shape plan.now)
        (world_of state.old (told T.Tally (shape plan.now) tally.old tables.old)) }
    ensures knows { T.knows (shape plan.now) (by_marks (shape plan.now) tables.new.marks.now) tally.new }
    ensures rests { result ≡ false →
        world_of state.new (told T.Tally (shape plan.now) tally.new tables.new)
        ≡ world_of state.old (told T.Tally (shape plan.now) tally.old tables.old) }
{
    let bins = plan.total();
    let queue = &mut *tables.queue;
    match first(state, queue, bins) {
        Ok(at) => {
            pass_first(state, bins);
            let _cell = peel_bin(plan, at as usize, state, tables, tally);
            count_settled(state);
            true
        }
        Err(_) => false,
    }
}

// All turns, until nothing waits. (Lent one by one, as to peel a bin.)
fn peel_all<K: Kind, T: Tally>(
    plan: &Plan,
    state: &mut State,
    tables: &mut Tables<K>,
    tally: &mut T,
)
    requires long { LongEnough (shape plan.now) (contents tables.old) }
    requires knows { T.knows (shape plan.now) (by_marks (shape plan.now) tables.old.marks.now) tally.old }
    ensures lent { IsStillLent tables.old tables.new }
    ensures world { world_of state.new (told T.Tally (shape plan.now) tally.new tables.new)
        ≡ turns K.Kind (shape plan.now) (bins_of (shape plan.now))
        (world_of state.old (told T.Tally (shape plan.now) tally.old tables.old)) }
    ensures knows { T.knows (shape plan.now) (by_marks (shape plan.now) tables.new.marks.now) tally.new }
{
    for _ in 0..plan.total() {
        if !turn(plan, state, tables, tally) {
            break;
        }
    }
}

// A seal that is accepted, and all turns of one worker after it. No pixel is searched: notes tell the last one of a bin.
pub(crate) fn peel_alone<K: Kind>(plan: &Plan, tables: &mut Tables<K>) -> State
    requires { LongEnough (shape plan.now) (contents tables.old) }
    ensures lent { IsStillLent tables.old tables.new }
    ensures world { world_of result (contents tables.new)
        ≡ turns K.Kind (shape plan.now) (bins_of (shape plan.now))
        (peel_seal K.Kind (incidence (shape plan.now)) (world_of blank (contents tables.old))) }
{
    let mut notes = Notes::fresh();
    let mut state = begin(plan, tables, &mut notes);
    peel_all(plan, &mut state, tables, &mut notes);
    notes.write_counts(plan, tables.counts);
    state
}
