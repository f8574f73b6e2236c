// What a bin keeps of its missing pixels. A file of its own, so that `specs/` can name it.
// The ghost field makes the group laws hold of every note, as with the words of samples.
ghost use Rattle.std.specs.Prelude.{◌^◌, ◌<◌};

// A number modulo 2^32: of each missing pixel the sum of 1 and of its cell times 2^13. So the low 13 bits tell how many are
// missing, and the others the cell where one is.
#[derive(Clone, Copy, PartialEq)]
pub struct Note {
    pub value: u32,
    ghost fits: { value < 2 ^ 32 },
}
