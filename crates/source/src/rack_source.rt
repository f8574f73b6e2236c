// A rack as a source.
ghost use Rattle.std.specs.Prelude.{◌≡◌, length};
ghost use Rattle.mojette.specs.Faults.{outcome};
ghost use Rattle.mojette.specs.Meaning.{bins_of};
ghost use Rattle.plan.specs.Shapes.{shape};
ghost use Rattle.source.specs.Questions.{asked_bin};
ghost use Rattle.source.specs.Racks.{rack_meaning, meaning_of, record_at, racking, made};

use crate::rack::Rack;
use crate::source::Source;
use crate::types::Sizes;
use mojette::{Fault, Record};
use plan::Plan;
use samples::Kind;

impl<'a, K: Kind> Rack<'a, K> {
    /// A rack of a lawful shape, with a run of exactly T samples. Any two numbers may be asked for. Nothing
    /// is copied.
    pub fn new(
        columns: usize,
        rows: usize,
        records: &'a [Record],
        run: &'a [K],
    ) -> Result<Rack<'a, K>, Fault>
        ensures { made result ≡ racking columns rows records.now run.now }
    {
        let plan = Plan::of(columns, rows, records)?;
        if run.len() != plan.total() {
            return Err(Fault::RunLength(plan.total()));
        }
        Ok(Rack { plan, records, run })
    }
}

// Place i of the records.
fn place_of(records: &[Record], i: usize) -> Result<Record, Fault>
    ensures { outcome result ≡ record_at records.now i }
{
    records.get(i).copied().ok_or(Fault::NoPlace)
}

// Bin b of place i, in the run of all samples. (The rack's methods pass its slices on to functions, one of
// the forms that docs/DECISIONS.md names.)
fn bin_of<K: Kind>(
    plan: &Plan,
    records: &[Record],
    run: &[K],
    i: usize,
    b: usize,
) -> Result<K, Fault>
    requires same { (shape plan.now).records ≡ records.now }
    requires full { length run.now ≡ bins_of (shape plan.now) }
    ensures { let s = shape plan.now in
        outcome result ≡ asked_bin K.Kind (rack_meaning s.P s.Q records.now run.now) i b }
{
    let record = place_of(records, i)?;
    // The test that the strip makes too: a function of it would be no plainer.
    if record.cause != 0 {
        return Err(Fault::Lost(record.cause));
    }
    let place = plan.places()[i];
    if b >= place.bins {
        return Err(Fault::NoBin);
    }
    Ok(run[place.start + b])
}

impl<'a, K: Kind> Source for Rack<'a, K> {
    type Sample = K;

    ghost meaning = { meaning_of };

    fn sizes(&self) -> Sizes {
        Sizes {
            columns: self.plan.columns(),
            rows: self.plan.rows(),
            places: self.records.len(),
        }
    }

    fn place(&self, i: usize) -> Result<Record, Fault> {
        place_of(self.records, i)
    }

    fn bin(&self, i: usize, b: usize) -> Result<K, Fault> {
        bin_of(&self.plan, self.records, self.run, i, b)
    }
}
