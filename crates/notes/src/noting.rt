// The notes of a plan at the start, when every pixel is missing.
ghost use Rattle.std.specs.Prelude.{◌≡◌, ℕ, ◌<◌, ◌≤◌, true, length, slice_index_or};
ghost use Rattle.mojette.specs.Bounds.{most_step};
ghost use Rattle.mojette.specs.Bins.{bins};
ghost use Rattle.mojette.specs.Directions.{lawful};
ghost use Rattle.mojette.specs.Meaning.{bins_of};
ghost use Rattle.notes.specs.Missing.{all_missing};
ghost use Rattle.notes.specs.Notes.{Noted};
ghost use Rattle.notes.specs.Noting.{Numbered, note_of_place};
ghost use Rattle.notes.specs.Words.{note_zero};
ghost use Rattle.plan.specs.Laid.{direction_of};
ghost use Rattle.plan.specs.Shapes.{shape};

use crate::note::Note;
use mojette::{Direction, MOST_PIXELS, MOST_POSITIONS, Size};
use plan::project::project;
use plan::{Place, Plan};

// The tile whose samples are the notes of its cells.
fn numbered() -> [Note; MOST_PIXELS]
    ensures { Numbered result }
{
    let mut tile = [Note { value: 0 }; MOST_PIXELS];
    for c in 0..MOST_PIXELS {
        tile[c] = Note::of_cell(c);
    }
    tile
}

// The direction of a place.
fn direction_of(place: Place) -> Direction
    requires { (place.slope ≤ most_step) × (place.q ≤ most_step) }
    ensures { result ≡ direction_of place }
{
    let across = place.slope as i32;
    Direction {
        p: if place.leftward { -across } else { across },
        q: place.q as i32,
    }
}

// Writes the notes of the bins of one place: its projection, or zeros where it is lost. (Size and place, which a plan holds apart.)
fn note_place(size: Size, place: Place, tile: &[Note], notes: &mut [Note])
    requires steps { (place.slope ≤ most_step) × (place.q ≤ most_step) }
    requires direction { lawful (direction_of place) ≡ true }
    requires tile { Numbered tile.now }
    requires room { length notes.old ≡ bins size.columns size.rows (direction_of place) }
    ensures { (b : ℕ) → b < length notes.old →
        slice_index_or notes.new b note_zero ≡ note_of_place size.columns size.rows place b }
{
    if place.is_whole() {
        // It is served: the direction is lawful, and the notes are as many as its bins.
        let _bins = project(size.columns, size.rows, direction_of(place), tile, notes);
    } else {
        notes.fill(Note { value: 0 });
    }
}

// Writes the notes of the bins of all places.
fn note_places(plan: &Plan, tile: &[Note], notes: &mut [Note])
    requires tile { Numbered tile.now }
    requires room { bins_of (shape plan.now) ≤ length notes.old }
    ensures { Noted (shape plan.now) (all_missing (shape plan.now)) notes.new }
{
    let size = plan.size();
    for place in plan.places() {
        note_place(
            size,
            *place,
            tile,
            &mut notes[place.start..place.start + place.bins],
        );
    }
}

// Sets each note to that of all the pixels of its bin, zero in lost places.
pub fn note_bins(plan: &Plan, notes: &mut [Note; MOST_POSITIONS])
    ensures { Noted (shape plan.now) (all_missing (shape plan.now)) notes.new }
{
    note_places(plan, &numbered(), notes);
}
