// Katz's theorem on the projections of a tile, the span theorem that it rests on, and ghosts.
// Each function states one theorem in its contract; the statements are in specs/, the proofs in proofs/.
#![tactic(auto)]

ghost use Rattle.katz.specs.Ghosts.{Katz};
ghost use Rattle.katz.specs.Made.{GhostIsMade};
ghost use Rattle.katz.specs.Sets.{Spans, Peels, Tested};

use samples::Kind;

// A set of pixels in which none is alone in any bin reaches over C + 1 columns and R + 1 rows.
pub fn paired_sets_span()
    ensures { Spans }
{}

// Under Katz's criterion every nonempty set of pixels has one that is alone in its bin.
pub fn sets_peel()
    ensures { Peels }
{}

// Katz's criterion fails exactly when the directions of the whole places have a ghost. The test of it, which all crates above cite, says
// whether it holds.
pub fn katz_holds<K: Kind>()
    ensures ghosts { Katz K.Kind }
    ensures test { Tested }
{}

// Where the criterion fails, the spark spread direction by direction is a ghost.
pub fn ghost_is_made<K: Kind>()
    ensures { GhostIsMade K.Kind }
{}
