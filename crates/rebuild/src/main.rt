// Reads a bracket file on standard input, rebuilds its tile, and prints the listing: of the picture, of a ghost, or of a refusal.
#![tactic(auto)]

mod failure;
mod streams;
#[cfg(test)]
mod tests;

use std::io;

fn main(rt: HostRuntime) -> io::Result<()> {
    Ok(streams::run(rt.alloc(), rt.stdin(), &mut rt.stdout())?)
}
