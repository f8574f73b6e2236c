// A pixel of a tile. A file of its own, so that `specs/` can name the type. Its fields are any numbers, since callers may hand in any pixel.

#[derive(Clone, Copy)]
pub struct Pixel {
    pub column: usize,
    pub row: usize,
    pub cell: usize,
}
