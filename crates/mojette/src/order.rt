//! Which directions are lawful, and their order; and the bounds of the bench.
ghost use Rattle.std.specs.Prelude.{◌≡◌};
ghost use Rattle.mojette.specs.Bounds.{most_side, most_pixels, most_places, most_step, most_bins, most_positions};
ghost use Rattle.mojette.specs.Directions.{gcd as gcd_of, Euclid, level_right, lawful, before};
ghost use Rattle.mojette.specs.Meaning.{follows};

use crate::direction::Direction;

/// The most columns, and the most rows, of a tile.
pub const MOST_SIDE: usize = 64;
/// The most pixels of a tile.
pub const MOST_PIXELS: usize = MOST_SIDE * MOST_SIDE;
/// The most places of a plan.
pub const MOST_PLACES: usize = 16;
/// The most of |p|, and of q, in a lawful direction.
pub const MOST_STEP: u32 = 7;

/// The most bins of a lawful direction: none has the most of both |p| and q.
pub const MOST_BINS: usize = (MOST_SIDE - 1) * (2 * MOST_STEP as usize - 1) + 1;
/// The most positions of a tile: the bins of all places of its plan.
pub const MOST_POSITIONS: usize = MOST_PLACES * MOST_BINS;

/// The bounds that the code has, which are those of the definitions. Six numbers in a row, since
/// nothing takes them but this promise.
pub fn bounds() -> (usize, usize, u32, usize, usize, usize)
    ensures given { (result.0 ≡ most_side) × ((result.1 ≡ most_places) × (result.2 ≡ most_step)) }
    ensures pixels { result.3 ≡ most_pixels }
    ensures bins { result.4 ≡ most_bins }
    ensures positions { result.5 ≡ most_positions }
{
    (
        MOST_SIDE,
        MOST_PLACES,
        MOST_STEP,
        MOST_PIXELS,
        MOST_BINS,
        MOST_POSITIONS,
    )
}

/// The greatest common divisor, by Euclid's rule: of 0 and 0 it is 0.
pub fn gcd(a: u32, b: u32) -> u32
    ensures value { result ≡ gcd_of a b }
    ensures rule { Euclid }
{
    if b == 0 { a } else { gcd(b, a % b) }
}

impl Direction {
    /// Where q is 0, p is 1.
    fn is_level_right(self) -> bool
        ensures { result ≡ level_right self }
    {
        self.q != 0 || self.p == 1
    }

    /// Whether the bench may project along this direction: |p| and q at most 7, q at least 0, no
    /// common divisor but 1, and p = 1 where q = 0.
    pub fn is_lawful(self) -> bool
        ensures { result ≡ lawful self }
    {
        let across = self.p.unsigned_abs();
        let down = self.q.unsigned_abs();
        if across > MOST_STEP || self.q < 0 || down > MOST_STEP {
            return false;
        }
        gcd(across, down) == 1 && self.is_level_right()
    }

    /// Whether this direction stands before another: p·q' > p'·q. That is an order of the lawful
    /// directions alone, so that it is no `PartialOrd`: (1, 1) and (2, 2) would be equal there.
    pub fn is_before(self, other: Direction) -> bool
        ensures { result ≡ before self other }
    {
        i64::from(other.p) * i64::from(self.q) < i64::from(self.p) * i64::from(other.q)
    }

    /// Whether this direction may stand after the last one, if there is one.
    pub fn follows(self, last: Option<Direction>) -> bool
        ensures { result ≡ follows last self }
    {
        last.is_none_or(|before| before.is_before(self))
    }
}

#[cfg(test)]
mod tests {
    use super::*;

    // p, q, and whether the direction is lawful
    const CASES: [(i32, i32, bool); 18] = [
        (1, 0, true),
        (0, 1, true),
        (-1, 0, false),
        (2, 0, false),
        (0, 0, false),
        (0, 2, false),
        (7, 1, true),
        (8, 1, false),
        (-7, 1, true),
        (-8, 1, false),
        (1, 7, true),
        (1, 8, false),
        (1, -1, false),
        (2, 4, false),
        (-6, 3, false),
        (3, 2, true),
        (i32::MIN, 1, false),
        (1, i32::MAX, false),
    ];

    #[test]
    fn lawful_at_the_bounds(rt: HostRuntime) {
        for (p, q, wanted) in CASES {
            assert_eq!(rt; Direction { p, q }.is_lawful(), wanted);
        }
    }

    #[test]
    fn order_turns_from_level_to_left(rt: HostRuntime) {
        let level = Direction { p: 1, q: 0 };
        let upright = Direction { p: 0, q: 1 };
        let left = Direction { p: -1, q: 1 };
        assert!(rt; level.is_before(upright) && upright.is_before(left));
        assert!(rt; !left.is_before(upright) && !upright.is_before(upright));
        assert!(rt; level.follows(None) && left.follows(Some(upright)));
        assert!(rt; !upright.follows(Some(left)));
    }

    #[test]
    fn divisors(rt: HostRuntime) {
        assert_eq!(rt; gcd(0, 0), 0);
        assert_eq!(rt; gcd(12, 18), 6);
        assert_eq!(rt; gcd(7, 0), 7);
    }
}
