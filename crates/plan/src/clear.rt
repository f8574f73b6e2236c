// Cells of zeros.
ghost use Rattle.std.specs.Prelude.{◌≡◌, ℕ, slice_index_or};

use samples::Kind;

// Zeros in all cells. The library's `fill` asks for a clone that can't fail, which a kind doesn't promise.
// Tile's `fill` says the like in the words of its steps.
pub(crate) fn clear<K: Kind>(cells: &mut [K])
    ensures { (b : ℕ) → slice_index_or cells.new b K.zero ≡ K.zero }
{
    cells.fill_with(|| K::zero_sample());
}
