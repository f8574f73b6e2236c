//! The bench at a command line, for people: `tiles rebuild`, `tiles explain` and `tiles check`.
//! What is printed for an input is a function of `answers` and `reports`; here are the arguments,
//! the files and the streams.
#![tactic(auto)]

mod check;
mod commands;
mod explain;
mod files;
mod rebuild;

use crate::commands::command;
use clap::ArgMatches;
use std::process::ExitCode;

/// The command that is asked for. It answers whether all went well.
fn run(rt: &HostRuntime, matches: &ArgMatches) -> anyhow::Result<bool> {
    match matches.subcommand() {
        Some(("rebuild", found)) => rebuild::run(rt, found),
        Some(("explain", found)) => explain::run(rt, found),
        Some(("check", found)) => check::run(rt, found),
        _ => Ok(false),
    }
}

fn main(rt: HostRuntime) -> anyhow::Result<ExitCode> {
    let words: Vec<String> = std::env::args(&rt)?.collect(rt.alloc())?;
    let matches = match command(rt.alloc())?.try_get_matches_from(words.as_slice()) {
        Ok(matches) => matches,
        Err(error) => {
            error.print(&rt)?;
            return Ok(ExitCode::from(error.exit_code() as u8));
        }
    };
    if run(&rt, &matches)? {
        Ok(ExitCode::SUCCESS)
    } else {
        Ok(ExitCode::FAILURE)
    }
}
