//! The size of a tile. A file of its own, so that `specs/` can name the type.
ghost use Rattle.std.specs.Prelude.{◌≡◌, ◌≤◌, true};
ghost use Rattle.mojette.specs.Bounds.{most_side};
ghost use Rattle.mojette.specs.Meaning.{side_ok};

/// So many columns and rows as a tile may have, each 1 to 64. How long a table is beside it is
/// asked by clauses, since tables are the callers'.
#[derive(Clone, Copy, Debug, PartialEq, Eq)]
pub struct Size {
    pub columns: usize,
    pub rows: usize,
    ghost columns_ok: { side_ok columns ≡ true },
    ghost rows_ok: { side_ok rows ≡ true },
    // what follows of the numbers, at hand for the code
    ghost some_columns: { 1 ≤ columns },
    ghost few_columns: { columns ≤ most_side },
    ghost some_rows: { 1 ≤ rows },
    ghost few_rows: { rows ≤ most_side },
}
