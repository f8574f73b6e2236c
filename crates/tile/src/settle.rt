// What settling a grant is made of.
ghost use Rattle.std.specs.Prelude.{◌≡◌};
ghost use Rattle.peeling.specs.Steps.{spent};

use peeling::State;

// What is out is settled.
#[tactic(auto, using(std::proofs::lemmas::Bool::Decides::nat_tests), unfolding(peeling::specs::Steps::spent))]
pub(crate) fn count_settled(state: &mut State)
    ensures { state.new ≡ spent state.old }
{
    state.out = state.out.saturating_sub(1);
    state.settled = state.settled.saturating_add(1);
}
