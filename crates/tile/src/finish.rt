// What finishing a tile is made of, written once for every kind of sample.
ghost use Rattle.std.specs.Prelude.{◌≡◌, ◌≤◌, length, MatchOption};
ghost use Rattle.mojette.specs.Meaning.{bins_of};
ghost use Rattle.peeling.specs.Steps.{first_left_over};
ghost use Rattle.plan.specs.Shapes.{shape};
ghost use Rattle.walk.specs.Finding.{Stands};

use plan::Plan;
use samples::Kind;

// The first position whose sum is not zero, as place and bin: two numbers that the refusal tells.
pub(crate) fn first_left<K: Kind>(plan: &Plan, sums: &[K]) -> Option<(usize, usize)>
    requires { bins_of (shape plan.now) ≤ length sums.now }
    ensures { MatchOption result
        (first_left_over K.Kind (bins_of (shape plan.now)) sums.now ≡ bins_of (shape plan.now))
        (λ w. Stands plan.now (first_left_over K.Kind (bins_of (shape plan.now)) sums.now) w.0 w.1) }
{
    let zero = K::zero_sample();
    let places = plan.places();
    // The search is left by its label, one of the forms that docs/DECISIONS.md names.
    'places: {
        for (i, place) in places.iter().enumerate() {
            let own = &sums[place.start..place.start + place.bins];
            for (b, sum) in own.iter().enumerate() {
                if !sum.same(zero) {
                    break 'places Some((i, b));
                }
            }
        }
        None
    }
}
