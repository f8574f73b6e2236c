// A source of projections, by what it means.
ghost use Rattle.std.specs.Prelude.{◌≡◌};
ghost use Rattle.mojette.specs.Faults.{outcome};
ghost use Rattle.mojette.specs.Meaning.{Meaning};
ghost use Rattle.source.specs.Questions.{asked_sizes, asked_place, asked_bin};

use crate::types::Sizes;
use mojette::{Fault, Record};
use samples::Kind;

/// Where projections come from. It means sizes and places, lawful or not, and answers three questions, each
/// from the meaning alone and with no change to it.
pub trait Source {
    type Sample: Kind;

    ghost meaning: { Self → Meaning Self.Sample };

    /// P, Q and how many places there are.
    fn sizes(&self) -> Sizes
        ensures { result ≡ asked_sizes (meaning self.now) };

    /// The direction of place i, with its cause: 0 where it is whole.
    fn place(&self, i: usize) -> Result<Record, Fault>
        ensures { outcome result ≡ asked_place (meaning self.now) i };

    /// The sum of bin b of place i, which is refused where there is no such place, where it is lost, and past
    /// its bins.
    fn bin(&self, i: usize, b: usize) -> Result<Self::Sample, Fault>
        ensures { outcome result ≡ asked_bin Self.Sample.Kind (meaning self.now) i b };
}
