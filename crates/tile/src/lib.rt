//! The calls on a tile: the states that they take and hand on, and the tables that they work on.
#![tactic(auto)]

pub mod alone;
pub mod buffers;
pub mod finish;
pub mod lent;
pub mod lives;
pub mod load;
pub mod opening;
pub mod peel;
#[cfg(test)]
mod refusals;
pub mod ring;
pub mod seal;
pub mod settle;
pub mod states;
pub mod tables;
#[cfg(test)]
mod tests;
#[cfg(test)]
mod uses;

pub use buffers::Buffers;
pub use lent::Tables;
pub use lives::calls_live;
pub use opening::open;
pub use states::{Finished, Grant, Loading, Peeling, Refused};
