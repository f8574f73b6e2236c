// What a note tells.
ghost use Rattle.std.specs.Prelude.{◌≡◌};
ghost use Rattle.notes.specs.Notes.{note_of_cell, pixels_noted, cell_noted};

use crate::note::Note;

impl Note {
    // The note of the pixel in a cell. The sum is modulo 2^32, and the cell's upper bits fall out of it.
    pub fn of_cell(cell: usize) -> Note
        ensures { result ≡ note_of_cell cell }
    {
        Note {
            value: (cell % 0x8_0000) as u32 * 0x2000 + 1,
        }
    }

    // How many missing pixels it stands for.
    pub fn pixels(self) -> usize
        ensures { result ≡ pixels_noted self }
    {
        (self.value % 0x2000) as usize
    }

    // The cell of the missing pixel, where it stands for one.
    pub fn cell(self) -> usize
        ensures { result ≡ cell_noted self }
    {
        (self.value / 0x2000) as usize
    }
}
