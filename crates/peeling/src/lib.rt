// The law of the peeling decoder, over any pixels and bins of which one pixel is always alone.
#![tactic(auto)]

pub mod state;

ghost use Rattle.peeling.specs.Law.{PeelingLaw};

use samples::Kind;
pub use state::State;

// For every kind of sample, whatever calls a tile has met since its seal, in any order and number.
pub fn peeling_law<K: Kind>()
    ensures { PeelingLaw K.Kind }
{}
