// Projecting a picture.
ghost use Rattle.std.specs.Prelude.{◌≡◌, ◌≤◌};
ghost use Rattle.samples.specs.contracts.impls.SumWordKind.TheImpl.{ghosts as sum_operations};
ghost use Rattle.mojette.specs.Bounds.{most_bins};
ghost use Rattle.format.specs.Format.{direction_of};
ghost use Rattle.plan.specs.Projecting.{projecting};
ghost use Rattle.exported.specs.Told.{told};

use crate::told::tell;
use mojette::{Direction, Refusal};
use plan::project::project;
use samples::SumWord;

/// Writes the sums along the direction (p, q) into the first cells of `sums`, and answers how many bins there are.
#[unsafe(no_mangle)]
pub extern "C" fn mojette_project(
    columns: usize,
    rows: usize,
    p: i32,
    q: i32,
    picture: &[SumWord],
    sums: &mut [SumWord],
    refusal: &mut Refusal,
) -> usize
    ensures answer { let direction = direction_of p q in
        (result, refusal.new)
        ≡ told (projecting sum_operations columns rows direction picture.now sums.old).answer }
    ensures sums { let direction = direction_of p q in
        sums.new ≡ (projecting sum_operations columns rows direction picture.now sums.old).sums }
    ensures few { result ≤ most_bins }
{
    let answer = project(columns, rows, Direction { p, q }, picture, sums);
    tell(answer, refusal)
}
