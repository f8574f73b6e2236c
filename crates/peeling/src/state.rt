// The state of the peeling decoder. A file of its own, so that `specs/` can name the type.

// How far a tile is peeled. It cannot be copied: each call takes it and hands on the next.
#[derive(Drop)]
pub struct State {
    pub head: u32,
    pub waiting: u32,
    pub out: u32,
    pub left: u32,
    pub settled: u32,
}
