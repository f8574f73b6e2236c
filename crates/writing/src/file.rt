// Writing files.
ghost use Rattle.std.specs.Prelude.{◌≡◌, take, IfOk};
ghost use Rattle.mojette.specs.Faults.{outcome};
ghost use Rattle.writing.specs.Files.{file_filling};
ghost use Rattle.writing.specs.ReadBack.{AnswersAs};

use crate::place::file_len;
use crate::writer::Writer;
use mojette::Fault;
use samples::Coded;
use source::{Source, plan_of};

/// Writes the text of a source (a bracket file), and answers how many bytes it has. Lawfulness is checked
/// first, then that the text fits, by a length that the plan gives: a refusal of too short an output tells
/// the length that is needed. Reading what was written gives a file that answers every question as the source
/// does.
pub fn write_file<K: Coded, S: Source<Sample = K>>(
    source: &S,
    out: &mut [u8],
) -> Result<usize, Fault>
    ensures value { let m = S.meaning source.now in
        (outcome result, out.new) ≡ file_filling K.Kind K.Coded.own m out.old }
    ensures read_back { let m = S.meaning source.now in
        IfOk result (λ n. AnswersAs K.Kind K.Coded.own m (take n out.new)) }
{
    let plan = plan_of(source)?;
    let needed = file_len::<K>(&plan);
    if out.len() < needed {
        return Err(Fault::ShortOutput(needed));
    }
    let mut writer = Writer::new(out);
    writer.put_file(source, &plan);
    Ok(needed)
}
