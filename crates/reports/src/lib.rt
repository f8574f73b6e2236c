//! What the program `tiles` tells people, from bytes and values to text.
#![tactic(auto)]

pub mod check;
pub mod criterion;
pub mod faults;
pub mod listing;
pub mod marks;
pub mod pgm;
pub mod remarks;
pub mod sentence;
pub mod shapes;
#[cfg(test)]
mod tests;

pub use check::{Report, checked};
pub use criterion::{could_spare, criterion_report, ghost_report, spares};
pub use faults::fault_of;
pub use listing::refusal_in;
pub use marks::marked;
pub use pgm::{picture_file, shows_picture};
pub use remarks::{explained, remark, sentence_line, told_line};
pub use sentence::Sentence;
pub use shapes::plan_of_text;
