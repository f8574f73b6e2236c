// What a source answers with. A file of its own, so that `specs/` can name the type.

/// How many columns, rows and places a source has: any three numbers, lawful or not. Laid out as in C, where
/// programs are told them.
#[repr(C)]
#[derive(Clone, Copy, Debug, PartialEq, Eq)]
pub struct Sizes {
    pub columns: usize,
    pub rows: usize,
    pub places: usize,
}
