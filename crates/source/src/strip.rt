// The strip of a place: the mean sample of each of its bins.
ghost use Rattle.std.specs.Prelude.{◌≡◌, ℕ, ◌*◌, ◌<◌, ◌≤◌, true, map, length, drop, slice_get};
ghost use Rattle.std.specs.Prelude.{slice_index_or, IfOk, OnOk, OnErr};
ghost use Rattle.std.specs.List.{range_with_len};
ghost use Rattle.samples.specs.Words.{sum_zero};
ghost use Rattle.mojette.specs.Bins.{bins as bin_number, whole};
ghost use Rattle.mojette.specs.Bounds.{most_side, most_bins};
ghost use Rattle.mojette.specs.Directions.{lawful};
ghost use Rattle.mojette.specs.Faults.{outcome, refused};
ghost use Rattle.source.specs.Questions.{place_at, bins_at};
ghost use Rattle.source.specs.Strips.{pixels_in, mean as mean_by, mean_at, stripped, stripping, strip_refusal};

use crate::lawful::plan_of;
use crate::source::Source;
use mojette::{Direction, Fault, MOST_BINS, MOST_PIXELS, Size};
use plan::project::project;
use samples::SumWord;

// The number of pixels of each bin, which is the projection of a tile of ones; walk counts all bins of a
// plan, as bytes. Answers how many bins there are.
fn count_pixels(size: Size, direction: Direction, ones: &[SumWord], counts: &mut [SumWord]) -> usize
    requires direction { lawful direction ≡ true }
    requires ones { (c : ℕ) → c < length ones.now → (slice_index_or ones.now c sum_zero).value ≡ 1 }
    requires room { (size.columns * size.rows ≤ length ones.now)
        × (bin_number size.columns size.rows direction ≤ length counts.old) }
    ensures bins { result ≡ bin_number size.columns size.rows direction }
    ensures counts { (b : ℕ) → b < bin_number size.columns size.rows direction →
        (slice_index_or counts.new b sum_zero).value ≡ pixels_in size.columns size.rows direction b }
    ensures few { (b : ℕ) → b < bin_number size.columns size.rows direction →
        (slice_index_or counts.new b sum_zero).value ≤ most_side }
{
    let Ok(bins) = project(size.columns, size.rows, direction, ones, counts) else {
        unreachable()
    };
    bins
}

// The sum of a bin by its number of pixels, rounded down; 0 without any.
fn mean(sum: SumWord, pixels: SumWord) -> u16
    ensures { result ≡ mean_by sum.value pixels.value }
{
    if pixels.value == 0 {
        0
    } else {
        sum.value / pixels.value
    }
}

// Writes the means of the bins of a whole place, of which there are as many as counts. That the place is one
// of the source stands here and in two clauses of the tile: a type of such places would have to name the
// source that it speaks of.
fn write_means<S: Source<Sample = SumWord>>(
    source: &S,
    place: usize,
    counts: &[SumWord],
    out: &mut [u16],
)
    requires place { let m = S.meaning source.now in
        (place < length m.places) × (whole (place_at m place).entry ≡ true) }
    requires bins { (length counts.now ≡ bins_at (S.meaning source.now) place)
        × (length out.old ≡ length counts.now) }
    requires counts { let m = S.meaning source.now in
        (b : ℕ) → b < length counts.now →
        (slice_index_or counts.now b sum_zero).value ≡ pixels_in m.P m.Q (place_at m place).entry.direction b }
    ensures { out.new ≡ map (mean_at (S.meaning source.now) place) (range_with_len 0 (length counts.now)) }
{
    // The counts by index: what is written through a zip of `iter_mut` is not known.
    for (b, cell) in out.iter_mut().enumerate() {
        let Ok(sum) = source.bin(place, b) else {
            unreachable()
        };
        let pixels = counts[b];
        *cell = mean(sum, pixels);
    }
}

/// The strip of a place of sum words: writes the mean of each bin, its sum by its number of pixels, rounded
/// down, and 0 for a bin without pixels. Answers how many bins there are. Nothing is allocated.
pub fn strip<S: Source<Sample = SumWord>>(
    source: &S,
    place: usize,
    out: &mut [u16],
) -> Result<usize, Fault>
    ensures value { stripped (outcome result) out.new ≡ stripping (S.meaning source.now) place out.old }

    // The same as a caller reads it: the first refusal, how many means there are, and what they are.
    ensures error { refused result ≡ strip_refusal (S.meaning source.now) place (length out.old) }
    ensures bins { IfOk result (λ count. count ≡ bins_at (S.meaning source.now) place) }
    ensures means { let m = S.meaning source.now in
        OnOk result ((b : ℕ) → b < bins_at m place → slice_get out.new b ≡ Some (mean_at m place b)) }
    ensures beyond { let count = bins_at (S.meaning source.now) place in
        drop count out.new ≡ drop count out.old }
    ensures unchanged { OnErr result (out.new ≡ out.old) }

    ensures few { IfOk result (λ count. count ≤ most_bins) }
{
    let plan = plan_of(source)?;
    let record = source.place(place)?;
    // The test that the rack makes too: a function of it would be no plainer.
    if record.cause != 0 {
        return Err(Fault::Lost(record.cause));
    }
    // Arrays with room for any tile and direction: nothing is allocated.
    let ones = [SumWord { value: 1 }; MOST_PIXELS];
    let mut counts = [SumWord { value: 0 }; MOST_BINS];
    let bins = count_pixels(plan.size(), record.direction, &ones, &mut counts);
    if out.len() < bins {
        return Err(Fault::ShortOutput(bins));
    }
    write_means(source, place, &counts[..bins], &mut out[..bins]);
    Ok(bins)
}
