// Plans of tiles, the projection of a picture, Katz's criterion and the ghost.
#![tactic(auto)]

mod clear;
pub mod criterion;
pub mod fresh;
pub mod ghosts;
pub mod lay;
pub mod layout;
pub mod places;
pub mod plan;
pub mod project;
pub mod reads;

pub use criterion::Criterion;
pub use places::Place;
pub use plan::Plan;
