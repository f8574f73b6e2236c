// A plan before it is filled.
ghost use Rattle.std.specs.Prelude.{◌≡◌, [], ◌∷◌, pos};
ghost use Rattle.plan.specs.Shapes.{shape};

use crate::places::Place;
use crate::plan::Plan;
use mojette::{MOST_PLACES, Size};

impl Plan {
    /// One pixel, and the direction (0, 1) whole: a plan for a call that fills one.
    pub fn fresh() -> Plan
        ensures { shape result ≡ record {
          P = 1;
          Q = 1;
          records = record { direction = record { p = pos 0; q = pos 1 }; cause = 0 } ∷ [];
        } }
    {
        // Number by number: `lay` would work out from a size what stands here.
        let place = Place {
            slope: 0,
            leftward: false,
            q: 1,
            cause: 0,
            start: 0,
            bins: 1,
        };
        Plan {
            size: Size {
                columns: 1,
                rows: 1,
            },
            places: [place; MOST_PLACES],
            count: 1,
            total: 1,
        }
    }
}
