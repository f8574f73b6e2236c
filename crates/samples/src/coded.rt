// Kinds whose samples have a code. A file of its own, so that `specs/` can name the trait's ghost members.
ghost use Rattle.std.specs.Prelude.{◌≡◌, ℕ, List};
ghost use Rattle.samples.specs.Codes.{Coding};
ghost use Rattle.samples.specs.Names.{Naming};

use crate::kind::Kind;

// A kind with a name, which is a word of a file of at most 255 bytes, a number of digits, from 1 to 12, and a number for each sample, which its
// code writes in that many digits.
pub trait Coded: Kind {
    ghost name: { List ℕ };

    ghost naming: { Naming name };

    ghost width: { ℕ };

    ghost number: { Self → ℕ };

    ghost sample: { ℕ → Self };

    ghost coding: { Coding width number sample };

    // The word that stands for the kind in a file.
    fn kind_name() -> &'static [u8]
        ensures { result.now ≡ name };

    // How many digits a code has.
    fn digits() -> usize
        ensures { result ≡ width };

    fn to_number(self) -> u64
        ensures { result ≡ number self };

    fn from_number(n: u64) -> Self
        ensures { result ≡ sample n };
}
