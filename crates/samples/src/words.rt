// The samples of the bench. A file of its own, so that `specs/` can name them.
// The ghost fields make the group laws hold of every value of a type: without them a `u16` is any number in the logic.
ghost use Rattle.std.specs.Prelude.{◌^◌, ◌<◌};

// A sum word: a whole number modulo 65,536. Laid out as in C, where programs lend rows of them.
#[repr(C)]
#[derive(Clone, Copy, Debug, PartialEq, Eq)]
pub struct SumWord {
    pub value: u16,
    ghost fits: { value < 2 ^ 16 },
}

// An XOR word: 32 bits, joined by exclusive or.
#[derive(Clone, Copy, Debug, PartialEq, Eq)]
pub struct XorWord {
    pub value: u32,
    ghost fits: { value < 2 ^ 32 },
}

// Two samples side by side.
#[derive(Clone, Copy, Debug, PartialEq, Eq)]
pub struct Pair<A, B> {
    pub first: A,
    pub second: B,
}
