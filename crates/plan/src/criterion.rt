// Katz's criterion: whether the whole places of a plan tell the tile.
ghost use Rattle.std.specs.Prelude.{◌≡◌};
ghost use Rattle.mojette.specs.Bins.{whole};
ghost use Rattle.mojette.specs.Directions.{columns as columns_of, rows as rows_of};
ghost use Rattle.plan.specs.Criteria.{whole_of, criterion_of, KatzHolds};
ghost use Rattle.plan.specs.Laid.{record_of};
ghost use Rattle.plan.specs.Shapes.{shape};

use crate::places::Place;
use crate::plan::Plan;
use samples::Kind;

/// Katz's criterion of a plan (M. Katz, 1978), with the two sums that it compares, which are told whatever
/// the verdict.
#[derive(Clone, Copy)]
pub struct Criterion {
    /// C, the sum of |p| over the whole places.
    pub columns: usize,
    /// R, the sum of q over the whole places.
    pub rows: usize,
    /// Whether P ≤ C or Q ≤ R.
    pub enough: bool,
}

impl Place {
    /// Whether the projection is not lost.
    pub fn is_whole(self) -> bool
        ensures { result ≡ whole (record_of self) }
    {
        self.cause == 0
    }
}

impl Plan {
    // C and R, two sums of one walk, taken apart where they are judged.
    fn reach(&self) -> (usize, usize)
        ensures columns { result.0 ≡ columns_of (whole_of (shape self.now)) }
        ensures rows { result.1 ≡ rows_of (whole_of (shape self.now)) }
    {
        let mut columns = 0;
        let mut rows = 0;
        for place in self.places() {
            if place.is_whole() {
                columns += place.slope;
                rows += place.q;
            }
        }
        (columns, rows)
    }

    // C, R and the criterion.
    fn judge(&self) -> Criterion
        ensures { result ≡ criterion_of (shape self.now) }
    {
        let (columns, rows) = self.reach();
        Criterion {
            columns,
            rows,
            enough: self.size.columns <= columns || self.size.rows <= rows,
        }
    }

    /// C, R and Katz's criterion (M. Katz, 1978). By his theorem it fails exactly when the whole places have
    /// a ghost: a tile that is not zero, though each of their sums is. Nothing is refused.
    pub fn criterion<K: Kind>(&self) -> Criterion
        ensures value { result ≡ criterion_of (shape self.now) }
        ensures katz { KatzHolds K.Kind (shape self.now) result.enough }
    {
        self.judge()
    }
}
