// The bytes of what the programs print and parse. A program reads, calls and writes.
#![tactic(auto)]

pub mod budget;
pub mod frame;
pub mod lines;
mod number;
pub mod page;
pub mod plants;
pub mod progress;
pub mod refusal;
pub mod report;
