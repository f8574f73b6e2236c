// What the calls leave are the lives that the law speaks of.
ghost use Rattle.tile.specs.Lives.{CallsLive};

use samples::Kind;

/// For every kind of sample, and each of the seven calls.
pub fn calls_live<K: Kind>()
    ensures { CallsLive K.Kind }
{}
