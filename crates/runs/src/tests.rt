// Rebuilding tiles of 2 by 2 in sum words.
use crate::rebuild::rebuild;
use mojette::{Fault, Record, Table};
use plan::Plan;
use samples::SumWord;
use source::Rack;
use tile::Tables;

// Why it was refused, if it was, and the picture, which began with sevens.
type Told = (Option<Fault>, [u16; 5]);

// Rebuilds from records and sums on tables of so many positions.
fn rebuilt(records: &[Record], sums: &[u16], positions: usize) -> Option<Told> {
    let mut run = [SumWord { value: 0 }; 8];
    for (i, value) in sums.iter().enumerate() {
        *run.get_mut(i)? = SumWord { value: *value };
    }
    let rack = Rack::new(2, 2, records, run.get(..sums.len())?).ok()?;
    let mut plan = Plan::fresh();
    let mut picture = [SumWord { value: 7 }; 5];
    let mut marks = [9; 4];
    let mut lent = [SumWord { value: 7 }; 8];
    let (mut counts, mut queue) = ([9; 8], [9; 8]);
    let mut tables = Tables {
        picture: &mut picture,
        marks: &mut marks,
        sums: &mut lent,
        counts: &mut counts,
        queue: queue.get_mut(..positions)?,
    };
    let answer = rebuild(&rack, &mut plan, &mut tables);
    Some((answer.err(), picture.map(|sample| sample.value)))
}

#[test]
fn a_picture_without_a_recorder(rt: HostRuntime) {
    let records = [
        Record::new(1, 1, 0),
        Record::new(0, 1, 4),
        Record::new(-1, 1, 0),
    ];
    let sums = [2, 5, 3, 0, 0, 4, 5, 1];
    assert_eq!(rt; rebuilt(&records, &sums, 8), Some((None, [1, 2, 3, 4, 7])));
    // the queue is too short, and nothing is written
    assert_eq!(rt;
        rebuilt(&records, &sums, 7),
        Some((Some(Fault::ShortTable(Table::Queue)), [7, 7, 7, 7, 7]))
    );
}

#[test]
fn a_ghost_and_a_contradiction(rt: HostRuntime) {
    let records = [Record::new(1, 0, 0), Record::new(0, 1, 0)];
    assert_eq!(rt;
        rebuilt(&records, &[3, 7, 6, 4], 8),
        Some((Some(Fault::Ghost(1, 1)), [1, 0xffff, 0xffff, 1, 7]))
    );
    // one sum is told as 6, and was 5
    let records = [Record::new(1, 1, 0), Record::new(-1, 1, 0)];
    let told = rebuilt(&records, &[2, 5, 3, 4, 6, 1], 8);
    assert_eq!(rt; told.map(|told| told.0), Some(Some(Fault::LeftOver(1, 1))));
}

#[test]
fn a_short_table_leaves_the_plan(rt: HostRuntime) {
    let records = [Record::new(0, 1, 0)];
    let run = [SumWord { value: 6 }, SumWord { value: 4 }];
    if let (Ok(rack), Ok(mut plan)) = (Rack::new(2, 2, &records, &run), Plan::of(3, 1, &records)) {
        let (mut picture, mut marks) = ([SumWord { value: 7 }; 4], [9; 4]);
        let (mut sums, mut counts, mut queue) = ([SumWord { value: 7 }; 2], [9; 2], [9; 1]);
        let mut tables = Tables {
            picture: &mut picture,
            marks: &mut marks,
            sums: &mut sums,
            counts: &mut counts,
            queue: &mut queue,
        };
        let answer = rebuild(&rack, &mut plan, &mut tables);
        assert_eq!(rt; answer.err(), Some(Fault::ShortTable(Table::Queue)));
        assert_eq!(rt; (plan.columns(), plan.rows()), (3, 1));
    } else {
        assert!(rt; false);
    }
}
