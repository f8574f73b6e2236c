// What sealing a tile is made of, written once for every kind of sample.
ghost use Rattle.std.specs.Prelude.{◌≡◌, ◌<◌, ◌≤◌, length};
ghost use Rattle.mojette.specs.Meaning.{pixels_of, bins_of};
ghost use Rattle.peeling.specs.Steps.{filled, seal as peel_seal};
ghost use Rattle.plan.specs.Shapes.{shape};
ghost use Rattle.law.specs.Life.{LongEnough};
ghost use Rattle.law.specs.Positions.{incidence};
ghost use Rattle.law.specs.Steps.{blank, world_of};
ghost use Rattle.notes.specs.Missing.{by_marks};
ghost use Rattle.tile.specs.Seals.{singles_queued, Judges, Accepts};
ghost use Rattle.tile.specs.Worlds.{IsStillLent, contents, told};

use crate::lent::Tables;
use crate::ring::append;
use crate::states::{Loading, Refused};
use mojette::Fault;
use notes::Tally;
use peeling::State;
use plan::Plan;
use samples::Kind;

// One value in the first n cells. (`fill` would ask for a clone that cannot fail, which no kind promises.)
// It takes n, and not the n cells alone, since its contract also says what stands behind them, in the words of the steps; plan's `clear` says the
// like in the words of its sums.
pub(crate) fn fill<T: Copy>(n: usize, value: T, cells: &mut [T])
    requires { n ≤ length cells.old }
    ensures { cells.new ≡ filled n (λ _. value) cells.old }
{
    cells[..n].fill_with(|| value);
}

// Queues every position whose bin has one pixel, rising. Its parts are lent one by one, as for `append`.
#[tactic(auto, using(std::proofs::lemmas::Bool::Decides::nat_tests), unfolding(crate::specs::Seals::singles_queued))]
fn queue_singles<T: Tally>(
    plan: &Plan,
    tally: &T,
    counts: &[u8],
    state: &mut State,
    queue: &mut [u16],
)
    requires { (bins_of (shape plan.now) ≤ length counts.now)
        × (bins_of (shape plan.now) ≤ length queue.old) }
    ensures { (state.new, queue.new)
        ≡ singles_queued (bins_of (shape plan.now)) (bins_of (shape plan.now))
        (T.counts_by (shape plan.now) tally.now counts.now) (state.old, queue.old) }
{
    let bins = plan.total();
    for at in 0..bins {
        if tally.is_one(plan, at, counts) {
            append(state, queue, bins, at);
        }
    }
}

// The accepted part: all pixels missing, each bin counted, and those with one pixel queued.
pub(crate) fn begin<K: Kind, T: Tally>(plan: &Plan, tables: &mut Tables<K>, tally: &mut T) -> State
    requires { LongEnough (shape plan.now) (contents tables.old) }
    ensures lent { IsStillLent tables.old tables.new }
    ensures world { world_of result (told T.Tally (shape plan.now) tally.new tables.new)
        ≡ peel_seal K.Kind (incidence (shape plan.now)) (world_of blank (contents tables.old)) }
    ensures knows { T.knows (shape plan.now) (by_marks (shape plan.now) tables.new.marks.now) tally.new }
{
    let pixels = plan.pixels();
    fill(pixels, K::zero_sample(), tables.picture);
    fill(pixels, 0, tables.marks);
    let counts = &mut *tables.counts;
    tally.set_up(plan, counts);
    let mut state = State {
        head: 0,
        waiting: 0,
        out: 0,
        left: pixels as u32,
        settled: 0,
    };
    queue_singles(plan, tally, counts, &mut state, tables.queue);
    state
}

// Whether Katz's criterion holds; where it fails the ghost is written.
fn judge<K: Kind>(plan: &Plan, picture: &mut [K]) -> Result<(), Fault>
    requires { pixels_of (shape plan.now) ≤ length picture.old }
    ensures { Judges K.Kind (shape plan.now) picture.old result picture.new }
{
    let criterion = plan.show_ghost(picture)?;
    if criterion.enough {
        Ok(())
    } else {
        Err(Fault::Ghost(criterion.columns, criterion.rows))
    }
}

// What a seal asks first: tables, places loaded, and Katz's criterion; where that fails the ghost is written.
#[tactic(auto, using(std::proofs::lemmas::Bool::Decides::nat_tests, crate::proofs::Checks::all_long), unfolding(law::specs::Steps::seal, law::specs::Steps::ghosted))]
pub(crate) fn accept<K: Kind>(
    tile: Loading,
    plan: &Plan,
    tables: &mut Tables<K>,
) -> Result<(), Refused<Loading>>
    ensures lent { IsStillLent tables.old tables.new }
    ensures accepts { Accepts K.Kind (shape plan.now) tile (contents tables.old)
        result (contents tables.new) }
{
    // By hand: the closure of a `map_err` would move the state, which the steps below need.
    if let Err(fault) = tables.check(plan) {
        return Err(Refused { back: tile, fault });
    }
    let places = plan.count();
    if tile.loaded < places {
        let missing = places - tile.loaded;
        return Err(Refused {
            back: tile,
            fault: Fault::NotLoaded(missing),
        });
    }
    judge(plan, tables.picture).map_err(|fault| Refused { back: tile, fault })
}
