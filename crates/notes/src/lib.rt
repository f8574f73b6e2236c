// How it is kept which pixels of the bins are missing: the trait `Tally`, the caller's counts, and notes, which tell the last
// missing pixel of a bin without a search.
#![tactic(auto)]

pub mod cells;
pub mod impls;
pub mod note;
pub mod noting;
pub mod table;
pub mod tallies;
pub mod tally;
#[cfg(test)]
mod tests;

pub use note::Note;
pub use noting::note_bins;
pub use table::Notes;
pub use tallies::Counts;
pub use tally::Tally;
