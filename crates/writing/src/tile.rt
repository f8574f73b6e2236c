// Writing the parts of a listing.
ghost use Rattle.std.specs.Prelude.{◌≡◌, ◌*◌, ◌≤◌, [], length};
ghost use Rattle.mojette.specs.Bounds.{most_places};
ghost use Rattle.plan.specs.Laid.{records_of};
ghost use Rattle.format.specs.Listing.{lost_text, rows_text};
ghost use Rattle.format.specs.Texts.{head_text};
ghost use Rattle.writing.specs.Lines.{row_text};
ghost use Rattle.writing.specs.Writers.{has_room, Writes};

use crate::writer::{Writer, line_len};
use mojette::Size;
use plan::Place;
use samples::Coded;

impl<'a> Writer<'a> {
    // The first line: a word, the name of a kind, and the sizes.
    pub(crate) fn put_head(&mut self, word: &[u8], name: &[u8], size: Size)
        requires { has_room self.old (head_text word.now name.now size.columns size.rows []) }
        ensures { Writes (head_text word.now name.now size.columns size.rows []) self.old self.new }
    {
        self.put(b"(");
        self.put(word);
        self.put(b" ");
        self.put(name);
        self.put_numbers(&[size.columns, size.rows]);
        self.put(b")\n");
    }

    // The lines of the lost places.
    pub(crate) fn put_lost(&mut self, places: &[Place])
        requires { has_room self.old (lost_text 0 (records_of places.now) []) }
        ensures { Writes (lost_text 0 (records_of places.now) []) self.old self.new }
    {
        for (i, place) in places.iter().enumerate() {
            if place.cause != 0 {
                self.put_line(b"lost", &[i, usize::from(place.cause)]);
            }
        }
    }

    // The line of a row of samples.
    fn put_row<K: Coded>(&mut self, samples: &[K])
        requires { has_room self.old (row_text K.Coded.own samples.now) }
        ensures { Writes (row_text K.Coded.own samples.now) self.old self.new }
    {
        self.put(b"(row");
        self.put_codes(samples);
        self.put(b")\n");
    }

    // The lines of the rows of a picture.
    pub(crate) fn put_rows<K: Coded>(&mut self, size: Size, picture: &[K])
        requires pixels { size.columns * size.rows ≤ length picture.now }
        requires room { has_room self.old
            (rows_text K.Kind K.Coded.own size.columns picture.now 0 size.rows []) }
        ensures { Writes (rows_text K.Kind K.Coded.own size.columns picture.now 0 size.rows [])
            self.old self.new }
    {
        for row in picture[..size.pixels()].chunks_exact(size.columns) {
            self.put_row(row);
        }
    }
}

// How long the first line is.
pub(crate) fn head_len(word: &[u8], name: &[u8], size: Size) -> usize
    requires { (length word.now ≤ 255) × (length name.now ≤ 255) }
    ensures value { result ≡ length (head_text word.now name.now size.columns size.rows []) }
    ensures small { result ≤ 600 }
{
    line_len(word, &[size.columns, size.rows]) + 1 + name.len()
}

// How long the lines of the lost places are. Each text is written once and measured once, since a too short
// output is refused before anything is written.
pub(crate) fn lost_len(places: &[Place]) -> usize
    requires { length places.now ≤ most_places }
    ensures value { result ≡ length (lost_text 0 (records_of places.now) []) }
    ensures small { result ≤ 784 }
{
    let mut len = 0;
    for (i, place) in places.iter().enumerate() {
        if place.cause != 0 {
            len += line_len(b"lost", &[i, usize::from(place.cause)]);
        }
    }
    len
}
