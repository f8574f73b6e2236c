// A fault on its way up. A file of its own, so that `specs/` can name the type.
use mojette::TextFault;

/// A text's fault beside its text, in which the line of the wrong token is counted.
#[derive(Clone, Copy)]
pub(crate) struct FaultInText<'a> {
    pub text: &'a [u8],
    pub fault: TextFault,
}
