// Runs the cases of the outside reference, one a line, and prints each answer.
#![tactic(auto)]

mod calls;
mod cases;
mod checksum;
mod contents;
mod schedule;
mod shows;
mod slots;
mod stage;
mod stores;
mod two;
mod words;

use crate::slots::{Slots, spare_tile};
use anyhow::Context;
use std::io::{BufRead, BufReader};

fn run(rt: &HostRuntime, slots: &mut Slots) -> anyhow::Result<()> {
    for line in BufReader::new(rt.alloc(), rt.stdin())?.lines(rt.alloc()) {
        let answer = cases::answer(rt.alloc(), line?.as_str(), slots)?;
        rt.println(answer)?;
    }
    Ok(())
}

fn main(rt: HostRuntime) -> anyhow::Result<()> {
    let spare = spare_tile().context("no spare tile")?;
    let mut slots = Slots::empty();
    let done = run(&rt, &mut slots);
    slots.close(spare);
    done
}
