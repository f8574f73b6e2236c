// Rebuilding a tile, and listing it.
ghost use Rattle.std.specs.Prelude.{◌≡◌, ◌≤◌, length, replicate};
ghost use Rattle.mojette.specs.Faults.{outcome};
ghost use Rattle.mojette.specs.Meaning.{Lawful, shape_of, bins_of};
ghost use Rattle.plan.specs.Shapes.{shape};
ghost use Rattle.writing.specs.Splices.{filling};
ghost use Rattle.answers.specs.Answers.{worker_listing, tile_answer};
ghost use Rattle.answers.specs.Law.{Shows};
ghost use Rattle.answers.specs.Tiles.{program_pixels, program_bins, most_output};

use mojette::{Fault, Refusal};
use plan::Plan;
use runs::rebuild::rebuild;
use samples::Coded;
use source::Source;
use source::lawful::plan_of;
use tile::Tables;
use writing::listing::{write_ghost, write_picture, write_refusal};

// The most pixels that the program has room for.
pub(crate) const PROGRAM_PIXELS: usize = 4_096;
// The most bins that the program has room for.
pub(crate) const PROGRAM_BINS: usize = 8_192;

// The listing of a tile that the program has room for, of its ghost, or of why it cannot be rebuilt. Picture
// and sums are lent, since how many bytes a sample takes is known for each kind alone.
fn list_tile<S: Source>(
    source: &S,
    mut plan: Plan,
    picture: &mut [S::Sample],
    sums: &mut [S::Sample],
    out: &mut [u8],
) -> Result<usize, Fault>
where
    S::Sample: Coded,
    requires lawful { Lawful (shape_of (S.meaning source.now)) }
    requires own { shape plan ≡ shape_of (S.meaning source.now) }
    requires few { bins_of (shape_of (S.meaning source.now)) ≤ program_bins }
    requires picture { picture.old ≡ replicate program_pixels S.Sample.Kind.zero }
    requires sums { sums.old ≡ replicate program_bins S.Sample.Kind.zero }
    ensures text { let m = S.meaning source.now in
        (outcome result, out.new) ≡ filling (worker_listing S.Sample.Kind S.Sample.Coded.own m) out.old }
    ensures fits { let m = S.meaning source.now in
        length (worker_listing S.Sample.Kind S.Sample.Coded.own m) ≤ most_output }
    ensures law { let m = S.meaning source.now in
        Shows S.Sample.Kind S.Sample.Coded.own m (worker_listing S.Sample.Kind S.Sample.Coded.own m) }
{
    let (mut marks, mut counts, mut queue) = (
        [0; PROGRAM_PIXELS],
        [0; PROGRAM_BINS],
        [0; PROGRAM_BINS],
    );
    let mut tables = Tables {
        picture,
        marks: &mut marks,
        sums,
        counts: &mut counts,
        queue: &mut queue,
    };
    let answer = rebuild(source, &mut plan, &mut tables);
    let tile = &tables.picture[..plan.pixels()];
    match answer {
        Ok(_) => write_picture(out, plan.size(), tile),
        Err(fault) => match fault {
            Fault::Ghost(..) => write_ghost(out, &plan, tile),
            _ => write_refusal(out, Refusal::from(fault)),
        },
    }
}

// What is printed of a source.
pub(crate) fn show<S: Source>(
    source: &S,
    picture: &mut [S::Sample],
    sums: &mut [S::Sample],
    out: &mut [u8],
) -> Result<usize, Fault>
where
    S::Sample: Coded,
    requires picture { picture.old ≡ replicate program_pixels S.Sample.Kind.zero }
    requires sums { sums.old ≡ replicate program_bins S.Sample.Kind.zero }
    ensures text { let m = S.meaning source.now in
        (outcome result, out.new) ≡ filling (tile_answer S.Sample.Kind S.Sample.Coded.own m) out.old }
    ensures fits { let m = S.meaning source.now in
        length (tile_answer S.Sample.Kind S.Sample.Coded.own m) ≤ most_output }
    ensures law { let m = S.meaning source.now in
        Lawful (shape_of m) →
        Shows S.Sample.Kind S.Sample.Coded.own m (tile_answer S.Sample.Kind S.Sample.Coded.own m) }
{
    let plan = match plan_of(source) {
        Ok(plan) => plan,
        Err(fault) => return write_refusal(out, Refusal::from(fault)),
    };
    if plan.total() > PROGRAM_BINS {
        return write_refusal(out, Refusal::from(Fault::Oversize));
    }
    list_tile(source, plan, picture, sums, out)
}
