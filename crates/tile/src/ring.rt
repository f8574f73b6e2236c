// The ring of positions that wait.
ghost use Rattle.std.specs.Prelude.{◌≡◌, ◌%◌, ◌<◌, ◌≤◌, length};
ghost use Rattle.peeling.specs.Steps.{appended, queue_with, take_answers, taken};
ghost use Rattle.tile.specs.Ring.{Fronts};

use mojette::Fault;
use peeling::State;

// n mod bins, with no division where n is below twice that. That there are bins is a clause: a number cannot say that it is a plan's.
fn wrapped(n: usize, bins: usize) -> usize
    requires { 1 ≤ bins }
    ensures { result ≡ n % bins }
{
    if n < bins {
        n
    } else if n - bins < bins {
        n - bins
    } else {
        n % bins
    }
}

// Appends a position behind those that wait, unless all positions wait. (A struct for the ring would be shorter, but what is
// written through one that is made of lent tables is not known afterwards.)
#[tactic(auto, using(std::proofs::lemmas::Bool::Decides::nat_tests), unfolding(peeling::specs::Steps::appended, peeling::specs::Steps::one_waits, peeling::specs::Steps::queue_with))]
pub(crate) fn append(state: &mut State, queue: &mut [u16], bins: usize, at: usize)
    requires { (1 ≤ bins) × ((bins ≤ length queue.old) × (at < 65536)) }
    ensures state { state.new ≡ appended bins state.old }
    ensures queue { queue.new ≡ queue_with bins state.old at queue.old }
{
    if (state.waiting as usize) < bins {
        let cell = wrapped(state.head as usize + state.waiting as usize, bins);
        queue[cell] = at as u16;
        state.waiting = state.waiting.saturating_add(1);
    }
}

// The position in the cell at the head, which is the first that waits; or why none can be taken.
#[tactic(auto, using(std::proofs::lemmas::Bool::Decides::nat_tests), unfolding(peeling::specs::Steps::take_answers, peeling::specs::Steps::front))]
pub(crate) fn first(state: &State, queue: &[u16], bins: usize) -> Result<u16, Fault>
    requires { (1 ≤ bins) × (bins ≤ length queue.now) }
    ensures { Fronts (take_answers bins state.now queue.now) bins result }
{
    if state.waiting == 0 {
        return Err(Fault::NoneWaits);
    }
    let cell = wrapped(state.head as usize, bins);
    let position = queue[cell];
    if position as usize >= bins {
        return Err(Fault::BadCell(cell));
    }
    Ok(position)
}

// It leaves the ring, and is out.
#[tactic(auto, using(std::proofs::lemmas::Bool::Decides::nat_tests), unfolding(peeling::specs::Steps::taken))]
pub(crate) fn pass_first(state: &mut State, bins: usize)
    requires { (1 ≤ bins) × (bins < 65536) }
    ensures { state.new ≡ taken bins state.old }
{
    state.head = wrapped(state.head as usize + 1, bins) as u32;
    state.waiting = state.waiting.saturating_sub(1);
    state.out = state.out.saturating_add(1);
}
