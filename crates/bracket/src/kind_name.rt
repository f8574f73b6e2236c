// The kinds that a file can name. A file of its own, so that `specs/` can name the type.

#[derive(Clone, Copy, Debug, PartialEq, Eq)]
pub enum KindName {
    Sum,
    Xor,
    Pair,
}
