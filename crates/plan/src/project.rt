// The Mojette projection of a picture along one direction, written once for every kind of sample.
ghost use Rattle.std.specs.Prelude.{◌≡◌, ℕ, ◌*◌, ◌<◌, ◌≤◌, true, ◌++◌, length, drop, slice_get, IfOk, OnOk, OnErr};
ghost use Rattle.mojette.specs.Bins.{bins};
ghost use Rattle.mojette.specs.Bounds.{most_step, most_bins};
ghost use Rattle.mojette.specs.Directions.{lawful};
ghost use Rattle.mojette.specs.Faults.{outcome, refused};
ghost use Rattle.mojette.specs.TenBits.{TenBitsNeverWrap};
ghost use Rattle.mojette.specs.Transform.{bin_sum, projection};
ghost use Rattle.plan.specs.Laid.{direction_of};
ghost use Rattle.plan.specs.Projecting.{projected, projecting, project_refusal};
ghost use Rattle.plan.specs.Sums.{SumUpTo};

use crate::clear::clear;
use crate::lay::{cell_of, lay};
use crate::places::Place;
use mojette::{Direction, Fault, Record, Size, Table};
use samples::Kind;

// Adds each sample of the picture to the sum of its bin, in the order of the cells. The bins of a row come q
// apart, the first column's last, so that one number steps down them. Q is q once more, as a constant, so
// that the loops are compiled for each q alone. (Size and place, as for `lay`.)
fn add_up<const Q: usize, K: Kind>(size: Size, place: Place, picture: &[K], sums: &mut [K])
    requires step { place.q ≡ Q }
    requires small { (place.slope ≤ most_step) × (place.q ≤ most_step) }
    requires room { (size.columns * size.rows ≤ length picture.now)
        × (bins size.columns size.rows (direction_of place) ≤ length sums.old) }
    requires clear { SumUpTo K.Kind size.columns size.rows (direction_of place) picture.now 0 sums.old }
    ensures sums { let pixels = size.columns * size.rows in
        SumUpTo K.Kind size.columns size.rows (direction_of place) picture.now pixels sums.new }
    ensures others { let count = bins size.columns size.rows (direction_of place) in
        drop count sums.new ≡ drop count sums.old }
{
    for l in 0..size.rows {
        let mut bin = place.bin_of(size, 0, l) + Q;
        for k in 0..size.columns {
            bin -= Q;
            let cell = cell_of(size, k, l);
            sums[bin] = sums[bin].add(picture[cell]);
        }
    }
}

// The same with the loops of the place's q.
fn add_up_by_step<K: Kind>(size: Size, place: Place, picture: &[K], sums: &mut [K])
    requires small { (place.slope ≤ most_step) × (place.q ≤ most_step) }
    requires room { (size.columns * size.rows ≤ length picture.now)
        × (bins size.columns size.rows (direction_of place) ≤ length sums.old) }
    requires clear { SumUpTo K.Kind size.columns size.rows (direction_of place) picture.now 0 sums.old }
    ensures sums { let pixels = size.columns * size.rows in
        SumUpTo K.Kind size.columns size.rows (direction_of place) picture.now pixels sums.new }
    ensures others { let count = bins size.columns size.rows (direction_of place) in
        drop count sums.new ≡ drop count sums.old }
{
    match place.q {
        0 => add_up::<0, K>(size, place, picture, sums),
        1 => add_up::<1, K>(size, place, picture, sums),
        2 => add_up::<2, K>(size, place, picture, sums),
        3 => add_up::<3, K>(size, place, picture, sums),
        4 => add_up::<4, K>(size, place, picture, sums),
        5 => add_up::<5, K>(size, place, picture, sums),
        6 => add_up::<6, K>(size, place, picture, sums),
        _ => add_up::<7, K>(size, place, picture, sums),
    }
}

// Writes the sums of a lawful direction.
fn write_sums<K: Kind>(size: Size, direction: Direction, picture: &[K], sums: &mut [K])
    requires direction { lawful direction ≡ true }
    requires room { (size.columns * size.rows ≤ length picture.now)
        × (bins size.columns size.rows direction ≤ length sums.old) }
    ensures { sums.new ≡ projection K.Kind size.columns size.rows picture.now direction
        ++ drop (bins size.columns size.rows direction) sums.old }
{
    let entry = Record {
        direction,
        cause: 0,
    };
    let place = lay(size, entry, 0);
    clear(&mut sums[..place.bins]);
    add_up_by_step(size, place, picture, sums);
}

/// The Dirac Mojette transform (Guédon and Normand) of a picture along one direction: writes the sum of each
/// bin, and answers how many bins there are. Pixel (k, l) lies in cell l·P + k of the picture, whose further
/// cells are not read. Any two numbers and any direction may be asked for. Of sum words the sums are modulo
/// 65,536; those of ten bits never come so far.
#[tactic(auto, using(mojette::proofs::TenBits::ten_bits_never_wrap))]
pub fn project<K: Kind>(
    columns: usize,
    rows: usize,
    direction: Direction,
    picture: &[K],
    sums: &mut [K],
) -> Result<usize, Fault>
    ensures value { projected (outcome result) sums.new
        ≡ projecting K.Kind columns rows direction picture.now sums.old }

    // The same as a caller reads it: the first refusal, how many sums there are, and what they are.
    ensures error { refused result
        ≡ project_refusal columns rows direction (length picture.now) (length sums.old) }
    ensures bins { IfOk result (λ count. count ≡ bins columns rows direction) }
    ensures sums { OnOk result ((b : ℕ) → b < bins columns rows direction →
        slice_get sums.new b ≡ Some (bin_sum K.Kind columns rows picture.now direction b)) }
    ensures beyond { let count = bins columns rows direction in
        drop count sums.new ≡ drop count sums.old }
    ensures unchanged { OnErr result (sums.new ≡ sums.old) }

    ensures few { IfOk result (λ count. count ≤ most_bins) }
    ensures ten_bits { TenBitsNeverWrap }
{
    let size = Size::of(columns, rows)?;
    if !direction.is_lawful() {
        return Err(Fault::Unlawful(0));
    }
    if picture.len() < size.pixels() {
        return Err(Fault::ShortTable(Table::Picture));
    }
    let bins = size.bins(direction);
    if sums.len() < bins {
        return Err(Fault::ShortTable(Table::Sums));
    }
    write_sums(size, direction, picture, sums);
    Ok(bins)
}

#[cfg(test)]
mod tests {
    use super::*;
    use mojette::Refusal;
    use samples::SumWord;

    // The refusal's number and first value, which the tests pin; 0 and the bins where the call is served.
    // Each file of tests asks its own call.
    fn answer(
        columns: usize,
        rows: usize,
        p: i32,
        q: i32,
        cells: usize,
        bins: usize,
    ) -> (usize, usize) {
        let picture = [SumWord { value: 1 }; 128];
        let mut sums = [SumWord { value: 9 }; 512];
        let picture = &picture[0..cells.min(128)];
        let sums = &mut sums[0..bins.min(512)];
        match project(columns, rows, Direction { p, q }, picture, sums) {
            Ok(n) => (0, n),
            Err(fault) => {
                let told = Refusal::from(fault);
                (told.number, told.first)
            }
        }
    }

    #[test]
    fn refusals_at_the_bounds(rt: HostRuntime) {
        assert_eq!(rt; answer(0, 1, 0, 1, 128, 512), (1, 0));
        assert_eq!(rt; answer(1, 0, 0, 1, 128, 512), (1, 0));
        assert_eq!(rt; answer(65, 1, 9, 9, 128, 512), (1, 0));
        assert_eq!(rt; answer(1, 65, 0, 1, 128, 512), (1, 0));
        assert_eq!(rt; answer(1, 64, 0, 1, 64, 1), (0, 1));
        assert_eq!(rt; answer(64, 2, 1, 7, 128, 443), (0, 443));
        assert_eq!(rt; answer(64, 2, 1, 7, 128, 442), (5, 3));
        assert_eq!(rt; answer(64, 2, 1, 7, 127, 442), (5, 1));
        assert_eq!(rt; answer(64, 2, 1, 8, 0, 0), (3, 0));
        assert_eq!(rt; answer(1, 1, -7, 1, 1, 1), (0, 1));
    }

    #[test]
    fn the_tail_stays(rt: HostRuntime) {
        let cells = [
            SumWord { value: 1 },
            SumWord { value: 2 },
            SumWord { value: 3 },
            SumWord { value: 4 },
            SumWord { value: 99 },
        ];
        let mut sums = [SumWord { value: 9 }; 4];
        assert!(rt; project(2, 2, Direction { p: -1, q: 1 }, &cells, &mut sums).is_ok());
        assert_eq!(rt; (sums[0].value, sums[1].value), (4, 5));
        assert_eq!(rt; (sums[2].value, sums[3].value), (1, 9));
    }
}
