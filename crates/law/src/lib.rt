// The law of a tile's life, from the open that gives it to its finish.
#![tactic(auto)]

ghost use Rattle.law.specs.Law.{Law};
ghost use Rattle.law.specs.Worked.{Worked, WorkedFurther};

use samples::Kind;

// Whatever a lawful source means, and whatever calls a tile born of it has met, in any order and number.
pub fn law_of_life<K: Kind>()
    ensures { Law K.Kind }
{}

// A tile of 2 by 2 lives to its end, and one with too few places is refused.
pub fn tiles_live()
    ensures { Worked }
{}

// A tile of 2 by 2 lives to its end under two workers, one of whom gives a grant back; and one whose sums contradict one another is refused.
pub fn tiles_live_further()
    ensures { WorkedFurther }
{}
