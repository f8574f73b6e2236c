// What loading a place is made of.
ghost use Rattle.std.specs.Prelude.{◌≡◌, ◌+◌, ◌<◌, ◌≤◌, length};
ghost use Rattle.law.specs.Steps.{written, fits};
ghost use Rattle.mojette.specs.Bounds.{most_step};
ghost use Rattle.plan.specs.Laid.{record_of};
ghost use Rattle.plan.specs.Shapes.{shape, places_of};
ghost use Rattle.source.specs.Questions.{bins_at};
ghost use Rattle.tile.specs.Loads.{bin_value};

use mojette::{Direction, Record};
use plan::{Place, Plan};
use samples::Kind;
use source::{Sizes, Source};

// Bin b of a place, zero where it is lost. That the place is one of the source stands in a clause, as for the strip.
fn bin_or_zero<S: Source>(source: &S, i: usize, b: usize) -> S::Sample
    requires { (i < length (S.meaning source.now).places) × (b < bins_at (S.meaning source.now) i) }
    ensures { result ≡ bin_value S.Sample.Kind (S.meaning source.now) i b }
{
    source.bin(i, b).unwrap_or(S::Sample::zero_sample())
}

// Writes the bins of a place at their positions.
// It takes the positions, and not their cells alone, since its contract also says what stands before and behind them. That the place
// is one of the source stands in a clause, as for the strip.
pub(crate) fn write_place<S: Source>(
    source: &S,
    i: usize,
    from: usize,
    bins: usize,
    sums: &mut [S::Sample],
)
    requires place { (i < length (S.meaning source.now).places) × (bins ≡ bins_at (S.meaning source.now) i) }
    requires room { from + bins ≤ length sums.old }
    ensures { sums.new ≡ written from bins (bin_value S.Sample.Kind (S.meaning source.now) i) sums.old }
{
    for (b, sum) in sums[from..from + bins].iter_mut().enumerate() {
        *sum = bin_or_zero(source, i, b);
    }
}

// The record of a place. (No `From`: a clause rules out places without one. `TryFrom` would hand callers an error that cannot happen.)
fn record_of(place: Place) -> Record
    requires { (place.slope ≤ most_step) × (place.q ≤ most_step) }
    ensures { result ≡ record_of place }
{
    let across = place.slope as i32;
    Record {
        direction: Direction {
            p: if place.leftward { -across } else { across },
            q: place.q as i32,
        },
        cause: place.cause,
    }
}

// Whether a source has the plan's sizes, and the plan's direction and cause at place i.
#[tactic(auto, using(std::proofs::lemmas::Bool::Decides::nat_tests), unfolding(law::specs::Steps::fits))]
pub(crate) fn fits_plan<S: Source>(source: &S, plan: &Plan, i: usize) -> bool
    requires { i < length (places_of plan.now) }
    ensures { result ≡ fits (shape plan.now) (S.meaning source.now) i }
{
    let places = plan.places();
    let sizes = Sizes {
        columns: plan.columns(),
        rows: plan.rows(),
        places: places.len(),
    };
    if source.sizes() != sizes {
        return false;
    }
    let record = record_of(places[i]);
    source.place(i).is_ok_and(|other| other == record)
}
