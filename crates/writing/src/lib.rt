// Writing text: files of sources, and listings.
#![tactic(auto)]

pub mod file;
pub mod listing;
mod place;
#[cfg(test)]
mod tests;
mod tile;
mod writer;
