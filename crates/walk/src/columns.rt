// Columns as they come along the bins. A file of its own, so that `specs/` can name the type.
ghost use Rattle.std.specs.Prelude.{◌+◌, ◌^◌, ◌<◌, ◌≤◌};

// They stand q bins apart: the next to come is at `next`, and none is at `end` or beyond.
#[derive(Drop)]
pub(crate) struct Columns {
    pub(crate) next: usize,
    pub(crate) end: usize,
    pub(crate) q: usize,
    ghost apart: { 1 ≤ q },
    ghost room: { end + q < 2 ^ 64 },
}
