// The plan of a text.
ghost use Rattle.std.specs.Prelude.{◌≡◌};
ghost use Rattle.format.specs.Format.{read_file};
ghost use Rattle.reports.specs.Shapes.{asked_shape, shaped, shape_told};

use bracket::{BracketFile, KindName, kind_of};
use mojette::Fault;
use plan::Plan;
use samples::{Coded, Pair, SumWord, XorWord};
use source::lawful::plan_of;

/// The plan of a text by the reader of one kind.
fn plan_as<K: Coded>(text: &[u8]) -> Result<Plan, Fault>
    ensures { shaped result ≡ asked_shape (read_file K.Coded.own text.now) }
{
    match BracketFile::<K>::read(text) {
        Ok(file) => plan_of(&file),
        Err(fault) => Err(fault),
    }
}

/// The plan of the source that a text is the file of, by the kind that it names; or where and why
/// it is no file.
pub fn plan_of_text(text: &[u8]) -> Result<Plan, Fault>
    ensures { shaped result ≡ shape_told text.now }
{
    match kind_of(text) {
        Some(KindName::Sum) => plan_as::<SumWord>(text),
        Some(KindName::Xor) => plan_as::<XorWord>(text),
        Some(KindName::Pair) => plan_as::<Pair<SumWord, XorWord>>(text),
        None => plan_as::<SumWord>(text),
    }
}
