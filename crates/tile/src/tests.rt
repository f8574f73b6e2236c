// Tiles of 2 by 2 in sum words, from open to picture.
use crate::buffers::Buffers;
use crate::lent::Tables;
use crate::opening::open;
use crate::states::{Finished, Grant, Loading, Peeling, Refused};
use mojette::{Fault, Record};
use peeling::State;
use plan::Plan;
use samples::SumWord;
use source::Rack;
use std::process::Abort;
use std::test::Fail;

fn word(value: u16) -> SumWord {
    SumWord { value }
}

impl Peeling {
    // A tile of which so many pixels are missing, positions wait and grants are out.
    pub(crate) fn with(left: u32, waiting: u32, out: u32) -> Peeling {
        let state = State {
            head: 0,
            waiting,
            out,
            left,
            settled: 0,
        };
        Peeling { state }
    }
}

// Loads so many places.
fn load(
    mut tile: Loading,
    places: usize,
    rack: &Rack<SumWord>,
    plan: &Plan,
    tables: &mut Tables<SumWord>,
) -> Result<Loading, Fail> {
    for _ in 0..places {
        tile = tile.load(rack, plan, tables).ok().ok_or("load")?;
    }
    Ok(tile)
}

// Takes and settles until none waits, and notes the positions that are granted.
fn peel(
    mut tile: Peeling,
    plan: &Plan,
    tables: &mut Tables<SumWord>,
    grants: &mut [u16],
) -> Result<Peeling, Fail> {
    for granted in grants.iter_mut() {
        match tile.take(plan, tables) {
            // A refused take is the good end.
            Err(refused) => return Ok(refused.back),
            Ok((next, grant)) => {
                *granted = grant.position();
                match next.settle(grant, plan, tables) {
                    Ok((after, _)) => tile = after,
                    Err(refused) => {
                        let (_, grant) = refused.back;
                        let Grant { position: _ } = grant;
                        return Err(Fail::new("settle"));
                    }
                }
            }
        }
    }
    Ok(tile)
}

// The four cells of the picture, or why finish refuses.
fn shown(
    rt: &impl Abort,
    answer: Result<Finished, Refused<Peeling>>,
    picture: &[SumWord],
) -> Result<[u16; 4], Fault> {
    let cells: &[SumWord] = answer?.picture(picture)?;
    assert!(rt; cells.len() == 4);
    Ok([
        cells[0].value,
        cells[1].value,
        cells[2].value,
        cells[3].value,
    ])
}

// From open to picture, over tables that hold rubbish.
fn rebuilt<'a>(
    rt: &impl Abort,
    records: &'a [Record],
    run: &'a [SumWord],
    grants: &mut [u16],
) -> Result<Result<[u16; 4], Fault>, Fail> {
    let rack = Rack::new(2, 2, records, run).ok().ok_or("rack")?;
    let mut plan = Plan::fresh();
    let tile = open(&rack, &mut plan).ok().ok_or("open")?;
    let (mut picture, mut sums) = ([word(9); 5], [word(9); 8]);
    let (mut marks, mut counts, mut queue) = ([9; 4], [9; 8], [9; 8]);
    let mut tables = Tables {
        picture: &mut picture,
        marks: &mut marks,
        sums: &mut sums,
        counts: &mut counts,
        queue: &mut queue,
    };
    let tile = load(tile, records.len(), &rack, &plan, &mut tables)?;
    let tile = tile.seal(&plan, &mut tables).ok().ok_or("seal")?;
    let tile = peel(tile, &plan, &mut tables, grants)?;
    let finished = tile.finish(&plan, &tables);
    Ok(shown(rt, finished, &picture))
}

#[test]
fn a_tile_is_rebuilt(rt: HostRuntime) -> Result<(), Fail> {
    let records = [
        Record::new(1, 1, 0),
        Record::new(0, 1, 4),
        Record::new(-1, 1, 0),
    ];
    let run = [
        word(2),
        word(5),
        word(3),
        word(8),
        word(8),
        word(4),
        word(5),
        word(1),
    ];
    let mut grants = [9; 8];
    assert_eq!(rt;
        rebuilt(&rt, &records, &run, &mut grants)?,
        Ok([1, 2, 3, 4])
    );
    assert_eq!(rt; grants, [0, 2, 5, 7, 6, 1, 9, 9]);
    Ok(())
}

#[test]
fn a_tile_is_contradicted(rt: HostRuntime) -> Result<(), Fail> {
    let records = [Record::new(1, 1, 0), Record::new(-1, 1, 0)];
    let run = [word(2), word(5), word(3), word(4), word(6), word(1)];
    let mut grants = [9; 8];
    assert_eq!(rt;
        rebuilt(&rt, &records, &run, &mut grants)?,
        Err(Fault::LeftOver(1, 1))
    );
    assert_eq!(rt; grants, [0, 2, 3, 5, 4, 1, 9, 9]);
    Ok(())
}

#[test]
fn an_empty_bin_is_read(rt: HostRuntime) -> Result<(), Fail> {
    let run = [word(2), word(9), word(1), word(4), word(0), word(3)];
    let mut grants = [9; 8];
    assert_eq!(rt;
        rebuilt(&rt, &[Record::new(3, 2, 0)], &run, &mut grants)?,
        Err(Fault::LeftOver(0, 1))
    );
    assert_eq!(rt; grants, [0, 2, 3, 5, 9, 9, 9, 9]);
    Ok(())
}

// The tables of a tile of 2 by 2, with rubbish in them.
#[derive(Drop)]
struct Cells {
    picture: [SumWord; 4],
    marks: [u8; 4],
    sums: [SumWord; 8],
    counts: [u8; 8],
    queue: [u16; 8],
}

impl Cells {
    fn new() -> Cells {
        Cells {
            picture: [word(9); 4],
            marks: [9; 4],
            sums: [word(9); 8],
            counts: [9; 8],
            queue: [9; 8],
        }
    }

    fn lend(&mut self) -> Tables<'_, SumWord> {
        let picture = &mut self.picture;
        let marks = &mut self.marks;
        let sums = &mut self.sums;
        let counts = &mut self.counts;
        let queue = &mut self.queue;
        Tables {
            picture,
            marks,
            sums,
            counts,
            queue,
        }
    }

    fn same(&self, other: &Cells) -> bool {
        self.picture == other.picture
            && self.marks == other.marks
            && self.sums == other.sums
            && self.counts == other.counts
            && self.queue == other.queue
    }
}

// Head, and how many wait, are out, are missing and were settled.
fn counts_of(tile: &Peeling) -> (u32, [u32; 4]) {
    (
        tile.state.head,
        [tile.waiting(), tile.out(), tile.left(), tile.settled()],
    )
}

// Opens, loads every place, and seals and peels in one call.
fn peeled_alone(
    rack: &Rack<SumWord>,
    places: usize,
    cells: &mut Cells,
) -> Result<Result<Peeling, Refused<Loading>>, Fail> {
    let mut plan = Plan::fresh();
    let tile = open(rack, &mut plan).ok().ok_or("open")?;
    let mut tables = cells.lend();
    let tile = load(tile, places, rack, &plan, &mut tables)?;
    Ok(tile.seal_and_peel(&plan, &mut tables))
}

// The same by a seal, and takes and settles until none waits.
fn peeled_by_calls(
    rack: &Rack<SumWord>,
    places: usize,
    cells: &mut Cells,
) -> Result<Peeling, Fail> {
    let mut plan = Plan::fresh();
    let tile = open(rack, &mut plan).ok().ok_or("open")?;
    let mut tables = cells.lend();
    let tile = load(tile, places, rack, &plan, &mut tables)?;
    let tile = tile.seal(&plan, &mut tables).ok().ok_or("seal")?;
    peel(tile, &plan, &mut tables, &mut [0; 9])
}

#[test]
fn one_call_peels_as_many_do(rt: HostRuntime) -> Result<(), Fail> {
    let records = [
        Record::new(1, 1, 0),
        Record::new(0, 1, 4),
        Record::new(-1, 1, 0),
    ];
    let run = [2, 5, 3, 8, 8, 4, 5, 1].map(word);
    let rack = Rack::new(2, 2, &records, &run).ok().ok_or("rack")?;
    let (mut alone, mut by_calls) = (Cells::new(), Cells::new());
    let tile = peeled_alone(&rack, 3, &mut alone)?.ok().ok_or("peel")?;
    let other = peeled_by_calls(&rack, 3, &mut by_calls)?;
    assert_eq!(rt; counts_of(&tile), counts_of(&other));
    assert_eq!(rt; counts_of(&tile), (6, [0, 0, 0, 6]));
    assert!(rt; alone.same(&by_calls));
    assert!(rt; alone.picture == [1, 2, 3, 4].map(word));
    Ok(())
}

#[test]
fn one_call_shows_a_ghost(rt: HostRuntime) -> Result<(), Fail> {
    let records = [Record::new(1, 0, 0), Record::new(0, 1, 0)];
    let run = [3, 7, 6, 4].map(word);
    let rack = Rack::new(2, 2, &records, &run).ok().ok_or("rack")?;
    let mut cells = Cells::new();
    let answer = peeled_alone(&rack, 2, &mut cells)?;
    assert_eq!(rt; answer.map_err(|e| e.fault).err(), Some(Fault::Ghost(1, 1)));
    assert!(rt; cells.picture == [1, 0xffff, 0xffff, 1].map(word));
    Ok(())
}

#[test]
fn a_tile_is_rebuilt_in_buffers(rt: HostRuntime) -> Result<(), Fail> {
    let records = [Record::new(1, 1, 0), Record::new(-1, 1, 0)];
    let run = [2, 5, 3, 4, 5, 1].map(word);
    let rack = Rack::new(2, 2, &records, &run).ok().ok_or("rack")?;
    let mut plan = Plan::fresh();
    let tile = open(&rack, &mut plan).ok().ok_or("open")?;
    let mut buffers = Buffers::for_plan(rt.alloc(), &plan)?;
    let mut tables = buffers.lend();
    let tile = load(tile, 2, &rack, &plan, &mut tables)?;
    let tile = tile.seal_and_peel(&plan, &mut tables).ok().ok_or("peel")?;
    let finished = tile.finish(&plan, &tables);
    assert_eq!(rt; shown(&rt, finished, tables.picture), Ok([1, 2, 3, 4]));
    Ok(())
}
