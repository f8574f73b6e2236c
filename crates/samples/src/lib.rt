// Kinds of sample: abelian groups whose equality can be tested, each with a chosen sample that is not zero, the spark.
#![tactic(auto)]

pub mod coded;
pub mod codes;
pub mod impls;
pub mod kind;
pub mod words;

ghost use Rattle.std.specs.Prelude.{◌≡◌};

pub use coded::Coded;
pub use kind::Kind;
pub use words::{Pair, SumWord, XorWord};

// The difference of two samples.
pub fn minus<K: Kind>(a: K, b: K) -> K
    ensures { result ≡ K.plus a (K.inverse b) }
{
    a.add(b.negate())
}
