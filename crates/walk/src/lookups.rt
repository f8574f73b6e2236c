// Which place and bin a position is, and which pixel of a bin is missing.
ghost use Rattle.std.specs.Prelude.{◌≡◌, ◌%◌, ◌^◌, ◌≤◌, IfSome, MatchOption};
ghost use Rattle.mojette.specs.Meaning.{bins_of};
ghost use Rattle.plan.specs.Laid.{bin_number};
ghost use Rattle.plan.specs.Shapes.{shape};
ghost use Rattle.walk.specs.Finding.{standing, Stands, lone, OfTile};
ghost use Rattle.walk.specs.Lying.{LiesWherever};

use crate::line::Line;
use crate::pixel::Pixel;
use plan::{Place, Plan};

// The place and the bin at a position, two numbers that callers take apart; none where the plan has no such position. There are sixteen places at most: a walk finds it.
pub fn place_of(plan: &Plan, at: usize) -> Option<(usize, usize)>
    ensures is { result ≡ standing (shape plan.now) at }
    ensures stands { MatchOption result (bins_of (shape plan.now) ≤ at) (λ w. Stands plan.now at w.0 w.1) }
{
    for (i, place) in plan.places().iter().enumerate() {
        if at < place.start + place.bins {
            return Some((i, at - place.start));
        }
    }
    None
}

// The one missing pixel of the bin at a position, where its place is whole and exactly one pixel of the bin is missing.
// None too where the plan has no such position, or marks are lacking.
pub fn lone_pixel(plan: &Plan, at: usize, marks: &[u8]) -> Option<Pixel>
    ensures is { result ≡ lone (shape plan.now) marks.now at }
    ensures pixel { IfSome result (OfTile (shape plan.now).P (shape plan.now).Q) }
{
    if marks.len() < plan.pixels() {
        return None;
    }
    let (i, bin) = place_of(plan, at)?;
    let place = plan.places()[i];
    if !place.is_whole() {
        return None;
    }
    let size = plan.size();
    Line { size, place, bin }.lone(marks)
}

// The bin of a place in which a pixel lies: one number for any numbers, which is that bin where the place is one of a plan for so many
// columns and rows, and the pixel one of its tile. Two numbers and no size, which would ask more of callers; so differences stop at 0 here.
pub fn bin_of(columns: usize, rows: usize, place: &Place, pixel: Pixel) -> usize
    ensures number { result ≡ bin_number columns rows place.now pixel.column pixel.row % 2 ^ 64 }
    ensures lies { LiesWherever columns rows place.now pixel result }
{
    let across = columns.saturating_sub(1).saturating_sub(pixel.column);
    let along = if place.leftward {
        rows.saturating_sub(1).saturating_sub(pixel.row)
    } else {
        pixel.row
    };
    across
        .wrapping_mul(place.q)
        .wrapping_add(along.wrapping_mul(place.slope))
}
