// Worked examples of the definitions: one table, and one fact over all of it.
#![tactic(auto)]

ghost use Rattle.worked.specs.Examples.{Worked};

// Projections of the tile 1 2 / 3 4, ghosts, and plans that suffice.
pub fn worked_examples()
    ensures { Worked }
{}
