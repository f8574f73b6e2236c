//! Whole runs of calls on a tile.
#![tactic(auto)]

pub mod rebuild;
mod steps;
#[cfg(test)]
mod tests;
