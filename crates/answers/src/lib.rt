// The program's answer to an input.
#![tactic(auto)]

pub mod answer;
mod show;
