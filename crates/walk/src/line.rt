// The pixels of a bin as a line across the tile. A file of its own, so that `specs/` can name the type.
ghost use Rattle.walk.specs.Lines.{OnTile};

use mojette::Size;
use plan::Place;

// A bin of a place, on a tile of that size.
#[derive(Clone, Copy)]
pub(crate) struct Line {
    pub(crate) size: Size,
    pub(crate) place: Place,
    pub(crate) bin: usize,
    ghost on_tile: { OnTile size.columns size.rows place.q place.slope bin },
}
