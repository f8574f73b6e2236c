// Projects a small picture, drops recorders, and rebuilds the picture from what is left.
#![tactic(auto)]

use mojette::{Direction, Fault, MOST_BINS, Record, Refusal};
use plan::project::project;
use runs::rebuild::rebuild;
use samples::SumWord;
use source::{Rack, plan_of};
use std::fmt::Write;
use tile::Buffers;

const COLUMNS: usize = 6;

const ROWS: usize = 4;

const CELLS: usize = COLUMNS * ROWS;

const PICTURE: [u16; CELLS] = [
    12, 12, 12, 12, 12, 12, 12, 90, 90, 12, 70, 12, 12, 90, 90, 12, 70, 12, 12, 12, 12, 12, 70, 12,
];

const PLACES: usize = 5;

const DIRECTIONS: [Direction; PLACES] = [
    Direction { p: 1, q: 0 },
    Direction { p: 1, q: 1 },
    Direction { p: 0, q: 1 },
    Direction { p: -1, q: 1 },
    Direction { p: -2, q: 1 },
];

const ZERO: SumWord = SumWord { value: 0 };

fn picture() -> [SumWord; CELLS] {
    PICTURE.map(|value| SumWord { value })
}

// The cells as words of a line.
fn show(rt: &HostRuntime, name: &str, cells: &[SumWord]) -> anyhow::Result<()> {
    let mut line = String::from_str(rt.alloc(), name)?;
    for cell in cells {
        let value = cell.value;
        write!(&mut line, " {value}")?;
    }
    rt.println(line)?;
    Ok(())
}

fn show_rows(rt: &HostRuntime, cells: &[SumWord]) -> anyhow::Result<()> {
    for row in cells.chunks(COLUMNS) {
        show(rt, "row:", row)?;
    }
    Ok(())
}

fn show_refusal(rt: &HostRuntime, fault: Fault) -> anyhow::Result<()> {
    let refusal = Refusal::from(fault);
    println!(rt; "({refusal})")?;
    Ok(())
}

// The sums of every direction, one after another, each printed too.
fn record_all(rt: &HostRuntime, cells: &[SumWord]) -> anyhow::Result<Vec<SumWord>> {
    let mut run = Vec::new(rt.alloc());
    for direction in DIRECTIONS {
        let mut sums = [ZERO; MOST_BINS];
        match project(COLUMNS, ROWS, direction, cells, &mut sums) {
            Ok(bins) => {
                let sums = &sums[..bins];
                // In the words of mathematics; no other place prints a direction so.
                let Direction { p, q } = direction;
                let name = format!(in rt.alloc(); "({p}, {q}):")?;
                show(rt, &name, sums)?;
                run.extend_from_slice(sums)?;
            }
            Err(fault) => show_refusal(rt, fault)?,
        }
    }
    Ok(run)
}

// Rebuilds the picture, and prints it, or the ghost.
fn rebuild_from(rt: &HostRuntime, records: &[Record], run: &[SumWord]) -> anyhow::Result<()> {
    let rack = match Rack::new(COLUMNS, ROWS, records, run) {
        Ok(rack) => rack,
        // It is printed, and the rehearsal goes on.
        Err(fault) => return show_refusal(rt, fault),
    };
    let mut plan = match plan_of(&rack) {
        Ok(plan) => plan,
        Err(fault) => return show_refusal(rt, fault),
    };
    let mut buffers = Buffers::for_plan(rt.alloc(), &plan)?;
    let mut tables = buffers.lend();
    if let Err(fault) = rebuild(&rack, &mut plan, &mut tables) {
        show_refusal(rt, fault)?;
    }
    show_rows(rt, tables.picture)
}

// Rebuilds the picture where places are lost for these causes, and whole for cause 0.
fn rebuild_without(rt: &HostRuntime, causes: [u8; PLACES], run: &[SumWord]) -> anyhow::Result<()> {
    let records: Vec<Record> = DIRECTIONS
        .into_iter()
        .zip(causes)
        .map(|(direction, cause)| Record { direction, cause })
        .collect(rt.alloc())?;
    rebuild_from(rt, &records, run)
}

fn run(rt: &HostRuntime) -> anyhow::Result<()> {
    let cells = picture();
    show_rows(rt, &cells)?;
    let run = record_all(rt, &cells)?;
    rt.println("without (1, 0):")?;
    rebuild_without(rt, [7, 0, 0, 0, 0], &run)?;
    rt.println("without (-2, 1) too:")?;
    rebuild_without(rt, [7, 0, 0, 0, 9], &run)
}

fn main(rt: HostRuntime) -> anyhow::Result<()> {
    run(&rt)
}
