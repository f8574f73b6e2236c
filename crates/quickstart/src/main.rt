//! A tile of 2 by 2 samples, rebuilt from two recorders of three. README shows it.
#![tactic(auto)]

use mojette::Record;
use runs::rebuild::rebuild;
use samples::SumWord;
use source::{Rack, plan_of};
use tile::Buffers;

fn main(rt: HostRuntime) -> anyhow::Result<()> {
    // Along (1, 1), (0, 1) and (-1, 1); the second recorder is lost, by cause 4.
    let records = [
        Record::new(1, 1, 0),
        Record::new(0, 1, 4),
        Record::new(-1, 1, 0),
    ];
    let run = [2, 5, 3, 0, 0, 4, 5, 1].map(|value| SumWord { value });

    let rack = Rack::new(2, 2, &records, &run)?;
    let mut plan = plan_of(&rack)?;
    let mut buffers = Buffers::for_plan(rt.alloc(), &plan)?;
    let mut tables = buffers.lend();
    let tile = rebuild(&rack, &mut plan, &mut tables)?;

    for sample in tile.picture(tables.picture)? {
        let value = sample.value;
        println!(rt; "{value}")?;
    }
    Ok(())
}
