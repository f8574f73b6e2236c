// Both ways to keep the missing pixels: the caller's counts, which may hold anything, and notes, which tell the last pixel of a bin.
ghost use Rattle.std.specs.Prelude.{◌≡◌, ℕ, ◌≤◌, refl, List, length, replicate};
ghost use Rattle.mojette.specs.Bounds.{most_positions};
ghost use Rattle.mojette.specs.Meaning.{bins_of};
ghost use Rattle.plan.specs.Shapes.{shape};
ghost use Rattle.notes.specs.Missing.{by_marks};
ghost use Rattle.notes.specs.Notes.{Noted, counts_told};
ghost use Rattle.notes.specs.Telling.{notes_in, noted_alike, told_long};
ghost use Rattle.notes.specs.Words.{note_zero};
ghost use Rattle.walk.specs.Counts.{FewPixels};

use crate::note::Note;
use crate::noting::note_bins;
use crate::table::Notes;
use crate::tally::Tally;
use mojette::MOST_POSITIONS;
use plan::Plan;
use samples::minus;
use walk::{Pixel, count_pixels, lone_pixel};

// The caller's counts alone: a missing pixel is searched by the marks.
#[derive(Drop)]
pub struct Counts;

impl Tally for Counts {
    ghost counts_by = { λ s x counts. counts };

    ghost knows = { λ s m x. Unit {0} };

    ghost alike = { λ s m n x same known. tt };

    ghost as_long = { λ s x counts. refl };

    fn set_up(&mut self, plan: &Plan, counts: &mut [u8]) {
        // It is served: the table is long enough.
        let _ = count_pixels(plan, counts);
    }

    fn is_one(&self, plan: &Plan, at: usize, counts: &[u8]) -> bool {
        counts[at] == 1
    }

    fn lone(&self, plan: &Plan, at: usize, marks: &[u8]) -> Option<Pixel> {
        lone_pixel(plan, at, marks)
    }

    fn take_off(&mut self, plan: &Plan, at: usize, cell: usize, counts: &mut [u8]) -> bool {
        let count = counts[at].saturating_sub(1);
        counts[at] = count;
        count == 1
    }
}

impl Tally for Notes {
    ghost counts_by = { λ s x counts. counts_told s (notes_in x) counts };

    ghost knows = { λ s m x. Noted s m (notes_in x) };

    ghost alike = { λ s m n x same known. noted_alike s m n (notes_in x) same known };

    ghost as_long = { λ s x counts. told_long s (notes_in x) counts };

    fn set_up(&mut self, plan: &Plan, counts: &mut [u8]) {
        note_bins(plan, &mut self.notes);
    }

    fn is_one(&self, plan: &Plan, at: usize, counts: &[u8]) -> bool {
        self.notes[at].pixels() == 1
    }

    fn lone(&self, plan: &Plan, at: usize, marks: &[u8]) -> Option<Pixel> {
        let note = self.notes[at];
        if note.pixels() != 1 {
            return None;
        }
        let cell = note.cell();
        let columns = plan.columns();
        Some(Pixel {
            column: cell % columns,
            row: cell / columns,
            cell,
        })
    }

    fn take_off(&mut self, plan: &Plan, at: usize, cell: usize, counts: &mut [u8]) -> bool {
        let left = minus(self.notes[at], Note::of_cell(cell));
        self.notes[at] = left;
        left.pixels() == 1
    }
}

impl Notes {
    // Notes of no missing pixels yet.
    pub fn fresh() -> Notes
        ensures { notes_in result ≡ replicate most_positions note_zero }
    {
        Notes {
            notes: [Note { value: 0 }; MOST_POSITIONS],
        }
    }

    // Writes the counts that the notes tell.
    pub fn write_counts(&self, plan: &Plan, counts: &mut [u8])
        requires room { bins_of (shape plan.now) ≤ length counts.old }
        requires noted { let s = shape plan.now in
            (marks : List ℕ) × Noted s (by_marks s marks) (notes_in self.now) }
        ensures counts { counts.new ≡ counts_told (shape plan.now) (notes_in self.now) counts.old }
        ensures few { FewPixels (shape plan.now) counts.new }
    {
        for (b, note) in self.notes[..plan.total()].iter().enumerate() {
            counts[b] = note.pixels() as u8;
        }
    }
}
