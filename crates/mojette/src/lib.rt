//! The words of the bench: directions, records, sizes and refusals. Its definitions say what the
//! Mojette transform is, which sources and tiles are lawful, and what each refusal tells.
#![tactic(auto)]

pub mod direction;
pub mod fault;
pub mod order;
pub mod passing;
pub mod refusal;
pub mod sentences;
pub mod sides;
pub mod size;

pub use direction::{Direction, Record};
pub use fault::{Fault, FileFault, Reason, Refusal, Table, TextFault};
pub use order::{MOST_BINS, MOST_PIXELS, MOST_PLACES, MOST_POSITIONS, MOST_SIDE, MOST_STEP};
pub use sides::is_side;
pub use size::Size;
