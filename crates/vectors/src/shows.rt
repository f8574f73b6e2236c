// The words of an answer, and why there is none.
ghost use Rattle.std.specs.Iterator.{IsFinite};

use mojette::{Fault, Refusal};
use std::alloc::AllocError;
use std::fmt;
use std::fmt::Write;

#[derive(Drop)]
pub enum Failure {
    // The bench refused a call.
    Refused(Fault),
    // The program cannot go on.
    Broken(anyhow::Error),
}

impl Failure {
    // A case that the set does not have.
    pub fn broken(why: &'static str) -> Failure {
        Failure::Broken(anyhow::Error::msg(why))
    }
}

impl From<Fault> for Failure {
    fn from(fault: Fault) -> Failure {
        Failure::Refused(fault)
    }
}

impl From<AllocError> for Failure {
    fn from(error: AllocError) -> Failure {
        Failure::Broken(anyhow::Error::from(error))
    }
}

impl From<anyhow::Error> for Failure {
    fn from(error: anyhow::Error) -> Failure {
        Failure::Broken(error)
    }
}

impl From<fmt::Error> for Failure {
    fn from(error: fmt::Error) -> Failure {
        Failure::Broken(anyhow::Error::from(error))
    }
}

// Numbers, each after a space.
pub(crate) fn show_numbers<I: Iterator<Item = u64>>(
    out: &mut String,
    numbers: I,
) -> Result<(), Failure>
    requires { I.can_next numbers × IsFinite (I.remaining numbers) }
{
    for number in numbers {
        write!(out, " {number}")?;
    }
    Ok(())
}

// A refusal in numbers.
pub(crate) fn show_fault(out: &mut String, fault: Fault) -> Result<(), AllocError> {
    let refusal = Refusal::from(fault);
    write!(out, "{refusal}")
}
