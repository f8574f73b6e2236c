// Writing the parts of a file, and how long they are.
ghost use Rattle.std.specs.Prelude.{◌≡◌, ◌^◌, ◌<◌, ◌≤◌, ◌++◌, true, [], length, decimal};
ghost use Rattle.std.specs.Fmt.{signed_decimal};
ghost use Rattle.std.specs.List.{AllByRecursion};
ghost use Rattle.mojette.specs.Bins.{whole};
ghost use Rattle.mojette.specs.Meaning.{shape_of};
ghost use Rattle.plan.specs.Laid.{direction_of};
ghost use Rattle.plan.specs.Shapes.{shape};
ghost use Rattle.source.specs.Questions.{place_at, bins_at};
ghost use Rattle.format.specs.Format.{most_cause};
ghost use Rattle.format.specs.Texts.{direction_text, file_text};
ghost use Rattle.writing.specs.Files.{StandsFor, codes_at, held_at, line_at, all_lines, IsLineLength, IsFileLength};
ghost use Rattle.writing.specs.Writers.{has_room, Writes};

use crate::tile::head_len;
use crate::writer::{Writer, decimal_len, numbers_len};
use plan::{Place, Plan};
use samples::Coded;
use source::Source;

// The sign of a place's p: none where p is 0.
fn sign(place: &Place) -> &'static [u8]
    ensures value { result.now ++ decimal place.now.slope ≡ signed_decimal (direction_of place.now).p }
    ensures short { length result.now ≤ 1 }
{
    if place.leftward && place.slope != 0 {
        b"-"
    } else {
        b""
    }
}

impl<'a> Writer<'a> {
    // The direction of a place: p, then q.
    fn put_direction(&mut self, place: &Place)
        requires { has_room self.old (direction_text (direction_of place.now) []) }
        ensures { Writes (direction_text (direction_of place.now) []) self.old self.new }
    {
        self.put(b" ");
        self.put(sign(place));
        self.put_decimal(place.slope);
        self.put_numbers(&[place.q]);
    }

    // The codes of the bins of a whole place.
    fn put_bins<K: Coded, S: Source<Sample = K>>(&mut self, source: &S, i: usize, bins: usize)
        requires place { let m = S.meaning source.now in
            (i < length m.places) × (whole (place_at m i).entry ≡ true) }
        requires bins { bins ≡ bins_at (S.meaning source.now) i }
        requires room { has_room self.old (codes_at K.Kind K.Coded.own (S.meaning source.now) i) }
        ensures { Writes (codes_at K.Kind K.Coded.own (S.meaning source.now) i) self.old self.new }
    {
        for b in 0..bins {
            let Ok(sum) = source.bin(i, b) else {
                unreachable()
            };
            self.put(b" ");
            self.put_code(sum);
        }
    }

    // What a place holds: the codes of its bins, or why it is lost.
    fn put_held<K: Coded, S: Source<Sample = K>>(&mut self, source: &S, i: usize, place: &Place)
        requires place { StandsFor (S.meaning source.now) i place.now }
        requires room { has_room self.old (held_at K.Kind K.Coded.own (S.meaning source.now) i) }
        ensures { Writes (held_at K.Kind K.Coded.own (S.meaning source.now) i) self.old self.new }
    {
        if place.cause == 0 {
            self.put(b" (bins");
            self.put_bins(source, i, place.bins);
        } else {
            self.put(b" (lost");
            self.put_numbers(&[usize::from(place.cause)]);
        }
        self.put(b"))\n");
    }

    // The line of a place.
    fn put_place<K: Coded, S: Source<Sample = K>>(&mut self, source: &S, i: usize, place: &Place)
        requires place { StandsFor (S.meaning source.now) i place.now }
        requires room { has_room self.old (line_at K.Kind K.Coded.own (S.meaning source.now) i) }
        ensures { Writes (line_at K.Kind K.Coded.own (S.meaning source.now) i) self.old self.new }
    {
        self.put(b"(dir");
        self.put_direction(place);
        self.put_held(source, i, place);
    }

    // The lines of all places.
    fn put_places<K: Coded, S: Source<Sample = K>>(&mut self, source: &S, plan: &Plan)
        requires same { shape plan.now ≡ shape_of (S.meaning source.now) }
        requires room { has_room self.old (all_lines K.Kind K.Coded.own (S.meaning source.now)) }
        ensures { Writes (all_lines K.Kind K.Coded.own (S.meaning source.now)) self.old self.new }
    {
        for (i, place) in plan.places().iter().enumerate() {
            self.put_place(source, i, place);
        }
    }

    // The text of a source, whose plan is at hand.
    pub(crate) fn put_file<K: Coded, S: Source<Sample = K>>(&mut self, source: &S, plan: &Plan)
        requires same { shape plan.now ≡ shape_of (S.meaning source.now) }
        requires room { has_room self.old (file_text K.Kind K.Coded.own (S.meaning source.now)) }
        ensures { Writes (file_text K.Kind K.Coded.own (S.meaning source.now)) self.old self.new }
    {
        self.put_head(b"tile", K::kind_name(), plan.size());
        self.put_places(source, plan);
        self.put(b"(end)\n");
    }
}

// How long the line of a place is. Each has 14 bytes beside its numbers and codes: `(dir`, the space before
// p, ` (bins` or ` (lost`, and `))` with the line end.
fn place_len<K: Coded>(place: &Place) -> usize
    requires { place.now.bins < 2 ^ 16 }
    ensures value { IsLineLength K.Kind K.Coded.own place.now result }
    ensures small { result ≤ 2 ^ 20 }
    ensures byte { place.now.cause ≤ most_cause }
{
    let steps = sign(place).len() + decimal_len(place.slope) + numbers_len(&[place.q]);
    let held = if place.cause == 0 {
        place.bins * (K::digits() + 1)
    } else {
        numbers_len(&[usize::from(place.cause)])
    };
    steps + held + 14
}

// How long the text of a source is, by its plan alone. Each cause is read here, so that it is seen to be a
// byte: a greater one is in no file.
pub(crate) fn file_len<K: Coded>(plan: &Plan) -> usize
    ensures value { IsFileLength K.Kind K.Coded.own plan.now result }
    ensures bytes { AllByRecursion (λ e. e.cause ≤ most_cause) (shape plan.now).records }
{
    let mut len = head_len(b"tile", K::kind_name(), plan.size()) + 6;
    for place in plan.places() {
        len += place_len::<K>(place);
    }
    len
}
