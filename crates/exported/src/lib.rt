// The bench's calls for programs in C and Rust, at sum words; examples/mojette.h declares them. Each answers a number, and writes four numbers that tell
// a refusal.
#![tactic(auto)]

mod projecting;
mod reading;
mod rebuilding;
#[cfg(test)]
mod tests;
mod told;
