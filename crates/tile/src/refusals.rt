// What each call refuses, in the order of its checks. The tile is 2 by 2, with (1, 1) whole, (0, 1) lost and (-1, 1) whole, so that T is 8.
use crate::lent::Tables;
use crate::states::{Finished, Grant, Loading, Peeling, Refused};
use mojette::{Fault, Record, Table};
use plan::Plan;
use samples::SumWord;
use source::Rack;
use std::test::Fail;

const ZERO: SumWord = SumWord { value: 0 };

// Why a call was refused, if it was.
type Told = Option<Fault>;

const SERVED: Told = None;

// What a call refused for, that was to spend a grant: refused, it hands the grant back as it was.
fn told_with<T: Drop>(
    answer: Result<T, Refused<(Peeling, Grant)>>,
    position: u16,
) -> Result<Told, Fail> {
    match answer {
        Ok(_) => Ok(SERVED),
        Err(refused) => {
            let Refused { back, fault } = refused;
            let (_, grant) = back;
            let Grant { position: back } = grant;
            if back == position {
                Ok(Some(fault))
            } else {
                Err(Fail::new("another grant"))
            }
        }
    }
}

fn own() -> [Record; 3] {
    [
        Record::new(1, 1, 0),
        Record::new(0, 1, 4),
        Record::new(-1, 1, 0),
    ]
}

fn plan_of(records: &[Record]) -> Result<Plan, Fail> {
    Plan::of(2, 2, records)
        .ok()
        .ok_or("plan")
        .map_err(Fail::new)
}

const TABLES: [Table; 5] = [
    Table::Picture,
    Table::Marks,
    Table::Sums,
    Table::Counts,
    Table::Queue,
];

// The cells of the five tables, where one may be short by a cell.
fn cells(short: Option<Table>) -> [usize; 5] {
    let cut = |table: Table, cells: usize| {
        if short == Some(table) {
            cells - 1
        } else {
            cells
        }
    };
    [
        cut(Table::Picture, 4),
        cut(Table::Marks, 4),
        cut(Table::Sums, 8),
        cut(Table::Counts, 8),
        cut(Table::Queue, 8),
    ]
}

// The tables of the tile, zeroed.
#[derive(Drop)]
struct Zeroed {
    picture: [SumWord; 4],
    marks: [u8; 4],
    sums: [SumWord; 8],
    counts: [u8; 8],
    queue: [u16; 8],
}

impl Zeroed {
    fn new() -> Zeroed {
        Zeroed {
            picture: [ZERO; 4],
            marks: [0; 4],
            sums: [ZERO; 8],
            counts: [0; 8],
            queue: [0; 8],
        }
    }

    // The first so many cells of each table.
    fn first(&mut self, cells: [usize; 5]) -> Tables<'_, SumWord> {
        let picture = &mut self.picture;
        let marks = &mut self.marks;
        let sums = &mut self.sums;
        let counts = &mut self.counts;
        let queue = &mut self.queue;
        Tables {
            picture: &mut picture[..cells[0].min(4)],
            marks: &mut marks[..cells[1].min(4)],
            sums: &mut sums[..cells[2].min(8)],
            counts: &mut counts[..cells[3].min(8)],
            queue: &mut queue[..cells[4].min(8)],
        }
    }
}

// Loads a place from a rack of another size or other records, into so many cells.
fn loaded(
    loaded: usize,
    columns: usize,
    rows: usize,
    records: &[Record],
    cells: usize,
) -> Result<Told, Fail> {
    let other = Plan::of(columns, rows, records).ok().ok_or("plan")?;
    let run = [ZERO; 16];
    let run = &run[..other.total().min(16)];
    let rack = Rack::new(columns, rows, records, run).ok().ok_or("rack")?;
    let mut tables = Zeroed::new();
    let mut tables = tables.first([4, 4, cells, 8, 8]);
    let answer = Loading { loaded }.load(&rack, &plan_of(&own())?, &mut tables);
    Ok(answer.map_err(|e| e.fault).err())
}

#[test]
fn a_load_is_refused(rt: HostRuntime) -> Result<(), Fail> {
    assert_eq!(rt;
        loaded(3, 2, 2, &own(), 7)?,
        Some(Fault::ShortTable(Table::Sums))
    );
    assert_eq!(rt; loaded(3, 2, 2, &own(), 8)?, Some(Fault::AllLoaded));
    assert_eq!(rt; loaded(0, 2, 2, &own(), 8)?, SERVED);
    Ok(())
}

#[test]
fn another_source_is_refused(rt: HostRuntime) -> Result<(), Fail> {
    let other = Some(Fault::OtherSource);
    assert_eq!(rt; loaded(0, 3, 2, &own(), 8)?, other);
    assert_eq!(rt; loaded(0, 2, 3, &own(), 8)?, other);
    assert_eq!(rt; loaded(0, 2, 2, &own()[..2], 8)?, other);
    // Of the places, only the one that is loaded is compared.
    let [first, _, last] = own();
    for second in [
        Record::new(1, 2, 4),
        Record::new(0, 1, 5),
        Record::new(0, 1, 0),
    ] {
        let records = [first, second, last];
        assert_eq!(rt; loaded(0, 2, 2, &records, 8)?, SERVED);
        assert_eq!(rt; loaded(1, 2, 2, &records, 8)?, other);
    }
    Ok(())
}

// Seals a tile of these places over tables of so many cells.
fn sealed(loaded: usize, records: &[Record], cells: [usize; 5]) -> Result<Told, Fail> {
    let mut tables = Zeroed::new();
    let answer = Loading { loaded }.seal(&plan_of(records)?, &mut tables.first(cells));
    Ok(answer.map_err(|e| e.fault).err())
}

#[test]
fn a_seal_is_refused(rt: HostRuntime) -> Result<(), Fail> {
    for table in TABLES {
        let short = Some(Fault::ShortTable(table));
        assert_eq!(rt; sealed(1, &own(), cells(Some(table)))?, short);
    }
    assert_eq!(rt; sealed(1, &own(), cells(None))?, Some(Fault::NotLoaded(2)));
    assert_eq!(rt; sealed(3, &own(), cells(None))?, SERVED);
    assert_eq!(rt;
        sealed(1, &[Record::new(1, 0, 0)], cells(None))?,
        Some(Fault::Ghost(1, 0))
    );
    assert_eq!(rt;
        sealed(1, &[Record::new(0, 1, 0)], cells(None))?,
        Some(Fault::Ghost(0, 1))
    );
    assert_eq!(rt;
        sealed(1, &[Record::new(0, 1, 7)], cells(None))?,
        Some(Fault::Ghost(0, 0))
    );
    Ok(())
}

// Takes from a queue of so many cells, whose cell 3 is the first that waits.
fn taken(waiting: u32, cells: usize, position: u16) -> Result<Told, Fail> {
    let mut tile = Peeling::with(4, waiting, 0);
    tile.state.head = 3;
    let mut tables = Zeroed::new();
    tables.queue[3] = position;
    let tables = tables.first([4, 4, 8, 8, cells]);
    match tile.take(&plan_of(&own())?, &tables) {
        Ok((_, grant)) => {
            let Grant { position: _ } = grant;
            Ok(SERVED)
        }
        Err(refused) => Ok(Some(refused.fault)),
    }
}

#[test]
fn a_take_is_refused(rt: HostRuntime) -> Result<(), Fail> {
    assert_eq!(rt; taken(0, 7, 8)?, Some(Fault::ShortTable(Table::Queue)));
    assert_eq!(rt; taken(0, 8, 8)?, Some(Fault::NoneWaits));
    assert_eq!(rt; taken(1, 8, 8)?, Some(Fault::BadCell(3)));
    assert_eq!(rt; taken(1, 8, 7)?, SERVED);
    Ok(())
}

fn settled(position: u16, cells: [usize; 5]) -> Result<Told, Fail> {
    let plan = plan_of(&own())?;
    let mut tables = Zeroed::new();
    let grant = Grant { position };
    let answer = Peeling::with(4, 0, 1).settle(grant, &plan, &mut tables.first(cells));
    told_with(answer, position)
}

#[test]
fn a_settle_is_refused(rt: HostRuntime) -> Result<(), Fail> {
    for table in TABLES {
        let short = Some(Fault::ShortTable(table));
        assert_eq!(rt; settled(8, cells(Some(table)))?, short);
    }
    assert_eq!(rt; settled(8, cells(None))?, Some(Fault::BadGrant));
    assert_eq!(rt; settled(7, cells(None))?, SERVED);
    Ok(())
}

fn given_back(position: u16, cells: usize) -> Result<Told, Fail> {
    let plan = plan_of(&own())?;
    let mut tables = Zeroed::new();
    let mut tables = tables.first([4, 4, 8, 8, cells]);
    let answer = Peeling::with(4, 0, 1).give_back(Grant { position }, &plan, &mut tables);
    told_with(answer, position)
}

#[test]
fn a_give_back_is_refused(rt: HostRuntime) -> Result<(), Fail> {
    assert_eq!(rt; given_back(8, 7)?, Some(Fault::ShortTable(Table::Queue)));
    assert_eq!(rt; given_back(8, 8)?, Some(Fault::BadGrant));
    assert_eq!(rt; given_back(7, 8)?, SERVED);
    Ok(())
}

// Finishes a tile of which so many pixels are missing and grants are out.
fn finished(left: u32, out: u32, tables: &Tables<SumWord>) -> Result<Told, Fail> {
    let answer = Peeling::with(left, 0, out).finish(&plan_of(&own())?, tables);
    Ok(answer.map_err(|e| e.fault).err())
}

#[test]
fn a_finish_is_refused(rt: HostRuntime) -> Result<(), Fail> {
    let mut tables = Zeroed::new();
    assert_eq!(rt;
        finished(2, 3, &tables.first([4, 4, 7, 8, 8]))?,
        Some(Fault::ShortTable(Table::Sums))
    );
    let long = [4, 4, 8, 8, 8];
    assert_eq!(rt;
        finished(2, 3, &tables.first(long))?,
        Some(Fault::PixelsMissing(2))
    );
    assert_eq!(rt;
        finished(0, 3, &tables.first(long))?,
        Some(Fault::GrantsOut(3))
    );
    assert_eq!(rt; finished(0, 0, &tables.first(long))?, SERVED);
    // The last bin of the last place, and then the last of the lost place.
    let mut tables = Zeroed::new();
    tables.sums[7] = SumWord { value: 9 };
    assert_eq!(rt;
        finished(0, 0, &tables.first(long))?,
        Some(Fault::LeftOver(2, 2))
    );
    let mut tables = Zeroed::new();
    tables.sums[7] = SumWord { value: 9 };
    tables.sums[4] = SumWord { value: 9 };
    assert_eq!(rt;
        finished(0, 0, &tables.first(long))?,
        Some(Fault::LeftOver(1, 1))
    );
    Ok(())
}

#[test]
fn a_picture_is_refused(rt: HostRuntime) {
    let tile = Finished { cells: 4 };
    let mut picture = [ZERO; 5];
    assert_eq!(rt;
        tile.picture(&picture[..3]).err(),
        Some(Fault::ShortTable(Table::Picture))
    );
    assert_eq!(rt; tile.picture(&picture).err(), SERVED);
}
