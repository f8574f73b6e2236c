// Runs the cases of the outside reference that are texts, one a line, and prints each answer.
#![tactic(auto)]

mod cases;

use std::io::{BufRead, BufReader};

fn run(rt: &HostRuntime) -> anyhow::Result<()> {
    for line in BufReader::new(rt.alloc(), rt.stdin())?.lines(rt.alloc()) {
        let answer = cases::answered(rt.alloc(), line?.as_str())?;
        rt.println(answer)?;
    }
    Ok(())
}

fn main(rt: HostRuntime) -> anyhow::Result<()> {
    run(&rt)
}
