// Sources of projections: three questions, what answers them, and what reads through them.
#![tactic(auto)]

pub mod lawful;
pub mod rack;
pub mod rack_source;
pub mod source;
pub mod strip;
#[cfg(test)]
mod tests;
pub mod types;

pub use lawful::plan_of;
pub use rack::Rack;
pub use source::Source;
pub use types::Sizes;
