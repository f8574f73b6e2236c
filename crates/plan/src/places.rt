// A place as the loops use it. A file of its own, so that `specs/` can name the type.

/// A place of a plan: a direction (p, q), why it is lost, and where its bins lie. Its fields are any numbers,
/// since callers may hand in any place: what a lawful one has stands in clauses where it is needed.
#[derive(Clone, Copy)]
pub struct Place {
    /// |p|: so loops run in natural numbers.
    pub slope: usize,
    /// Whether p is negative.
    pub leftward: bool,
    /// q, which is never negative.
    pub q: usize,
    /// Why the place is lost; 0 where it is whole, as in its record.
    pub cause: u8,
    /// The position of its bin 0.
    pub start: usize,
    /// B, how many bins it has.
    pub bins: usize,
}
