// Reading bracket files.
#![tactic(auto)]

mod asking;
pub mod bracket_file;
mod fault_in_text;
mod file;
pub mod kind_name;
mod lexer;
mod line;
mod lines;
pub mod naming;
mod number;
mod reading;
mod steps;
#[cfg(test)]
mod tests;
mod tokens;
mod words;

pub use bracket_file::BracketFile;
pub use kind_name::KindName;
pub use naming::kind_of;
