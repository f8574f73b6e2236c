// Making a plan of a tile's shape.
ghost use Rattle.std.specs.Prelude.{◌≡◌, ◌≤◌, length, None};
ghost use Rattle.mojette.specs.Bounds.{most_places};
ghost use Rattle.mojette.specs.Faults.{refused};
ghost use Rattle.mojette.specs.Meaning.{places_verdict};
ghost use Rattle.plan.specs.Layouts.{Plans};
ghost use Rattle.plan.specs.Shapes.{shape};
ghost use Rattle.plan.specs.Wrong.{FirstWrong};

use crate::lay::lay;
use crate::places::Place;
use crate::plan::Plan;
use mojette::{Fault, MOST_PLACES, Record, Size};

// Each direction lawful and after the one before it; else the first place that is not.
fn check_places(records: &[Record]) -> Result<(), Fault>
    ensures { refused result ≡ places_verdict 0 None records.now }
{
    let mut last = None;
    for (i, entry) in records.iter().enumerate() {
        let direction = entry.direction;
        if !direction.is_lawful() {
            return Err(Fault::Unlawful(i));
        }
        if !direction.follows(last) {
            return Err(Fault::Disorder(i));
        }
        last = Some(direction);
    }
    Ok(())
}

// The plan of a lawful shape.
fn lay_out(size: Size, records: &[Record]) -> Plan
    requires number { (1 ≤ length records.now) × (length records.now ≤ most_places) }
    requires places { places_verdict 0 None records.now ≡ None }
    ensures { shape result ≡ record { P = size.columns; Q = size.rows; records = records.now } }
{
    // It stands where no place is; nothing reads it, and its numbers are not those of a fresh plan.
    let none = Place {
        slope: 0,
        leftward: false,
        q: 0,
        cause: 0,
        start: 0,
        bins: 0,
    };
    let mut places = [none; MOST_PLACES];
    let mut total = 0;
    for (i, entry) in records.iter().enumerate() {
        // By index: what is written through a zip of `iter_mut` is not known.
        let place = lay(size, *entry, total);
        places[i] = place;
        total += place.bins;
    }
    Plan {
        size,
        places,
        count: records.len(),
        total,
    }
}

impl Plan {
    /// The plan of a shape, or why it is not lawful: its sizes, its number of places, or the first place that
    /// is wrong, and how. Any two numbers and any records may be asked for.
    pub fn of(columns: usize, rows: usize, records: &[Record]) -> Result<Plan, Fault>
        ensures plan { Plans (record { P = columns; Q = rows; records = records.now }) result }
        ensures first { FirstWrong
            (record { P = columns; Q = rows; records = records.now }) (refused result) }
    {
        let size = Size::of(columns, rows)?;
        if records.len() < 1 || records.len() > MOST_PLACES {
            return Err(Fault::PlaceCount);
        }
        check_places(records)?;
        Ok(lay_out(size, records))
    }
}

#[cfg(test)]
mod tests {
    use super::*;
    use mojette::Refusal;

    fn whole(p: i32, q: i32) -> Record {
        Record::new(p, q, 0)
    }

    // The refusal's number and first value, which the tests pin; 0 and T where there is a plan. Each file of
    // tests asks its own call.
    fn answer(columns: usize, rows: usize, records: &[Record]) -> (usize, usize) {
        match Plan::of(columns, rows, records) {
            Ok(plan) => (0, plan.total()),
            Err(fault) => {
                let told = Refusal::from(fault);
                (told.number, told.first)
            }
        }
    }

    #[test]
    fn plans_at_the_bounds(rt: HostRuntime) {
        let good = [whole(1, 0), whole(1, 1), whole(0, 1)];
        assert_eq!(rt; answer(64, 64, &good), (0, 64 + 127 + 64));
        assert_eq!(rt; answer(65, 64, &good), (1, 0));
        assert_eq!(rt; answer(0, 0, &[]), (1, 0));
        assert_eq!(rt; answer(1, 1, &[]), (2, 0));
        assert_eq!(rt; answer(1, 1, &[whole(0, 1); 17]), (2, 0));
        assert_eq!(rt; answer(1, 1, &[whole(0, 1); 16]), (4, 1));
        assert_eq!(rt;
            answer(1, 1, &[whole(1, 0), whole(2, 2), whole(1, 0)]),
            (3, 1)
        );
        assert_eq!(rt;
            answer(1, 1, &[whole(1, 1), whole(1, 0), whole(9, 9)]),
            (4, 1)
        );
    }

    #[test]
    fn a_fresh_plan(rt: HostRuntime) {
        let plan = Plan::fresh();
        assert_eq!(rt; (plan.columns(), plan.rows()), (1, 1));
        assert_eq!(rt; (plan.count(), plan.total()), (1, 1));
    }
}
