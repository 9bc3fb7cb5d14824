// The job: a fresh start, wakes that go on from a checkpoint, the report, and the count of what is left.
// Bad input is answered with a number; nothing here asks anything of its caller.
#![tactic(auto)]

mod admission;
pub mod checkpoint;
mod counts;
mod ledgers;
mod leg;
mod put;
pub mod reply;
pub mod report;
mod run;
mod shares;
mod tabled;
mod unfuelled;
pub mod wake;
mod way;
