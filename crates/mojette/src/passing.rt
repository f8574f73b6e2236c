//! How the fault of a file passes up to the bench whole.
ghost use Rattle.std.specs.Prelude.{◌≡◌};
ghost use Rattle.mojette.specs.declared.fault.Fault.TheVariants.{NoFile};

use crate::fault::{Fault, FileFault};

impl From<FileFault> for Fault {
    ghost from_gives = { λ fault r. r ≡ NoFile fault };

    fn from(fault: FileFault) -> Fault {
        Fault::NoFile(fault)
    }
}
