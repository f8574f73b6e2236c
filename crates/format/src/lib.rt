// The bracket file: its text, what reading a text gives, and the laws that tie them.
#![tactic(auto)]

ghost use Rattle.format.specs.Kinds.{pair_operations};
ghost use Rattle.format.specs.Laws.{OneText};
ghost use Rattle.samples.specs.contracts.codes.PairSumWordXorWordCoded.TheImpl.{ghosts as pair_codes};
ghost use Rattle.samples.specs.contracts.codes.SumWordCoded.TheImpl.{ghosts as sum_codes};
ghost use Rattle.samples.specs.contracts.codes.XorWordCoded.TheImpl.{ghosts as xor_codes};
ghost use Rattle.samples.specs.contracts.impls.SumWordKind.TheImpl.{ghosts as sum_operations};
ghost use Rattle.samples.specs.contracts.impls.XorWordKind.TheImpl.{ghosts as xor_operations};

use samples::{Coded, Pair, SumWord, XorWord};

// Each lawful meaning has one text, which is read as that meaning, and all other text is refused: for every kind that has codes.
pub fn one_text<K: Coded>()
    ensures { OneText K.Kind K.Coded.own }
{}

// So it is for the kinds of the bench.
pub fn one_text_of_each()
    ensures sum { OneText sum_operations sum_codes }
    ensures xor { OneText xor_operations xor_codes }
    ensures pair { OneText pair_operations pair_codes }
{
    one_text::<SumWord>();
    one_text::<XorWord>();
    one_text::<Pair<SumWord, XorWord>>();
}
