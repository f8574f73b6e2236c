// What a call tells a program in C.
ghost use Rattle.std.specs.Prelude.{◌≡◌};
ghost use Rattle.mojette.specs.Faults.{outcome};
ghost use Rattle.exported.specs.Told.{told};

use mojette::{Fault, Refusal};

// What a served call tells of a refusal.
const NO_REFUSAL: Refusal = Refusal {
    number: 0,
    first: 0,
    second: 0,
    third: 0,
};

// The number of a served call, 0 of a refused one; and its refusal.
pub(crate) fn tell(answer: Result<usize, Fault>, refusal: &mut Refusal) -> usize
    ensures { (result, refusal.new) ≡ told (outcome answer) }
{
    match answer {
        Ok(number) => {
            *refusal = NO_REFUSAL;
            number
        }
        Err(fault) => {
            *refusal = Refusal::from(fault);
            0
        }
    }
}
