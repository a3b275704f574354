// A day driven from a command file: each command is a call on a log of two blocks, with `readout`'s memory; a line for each, then the listing of the log.
#![tactic(auto)]

mod command;
mod day;
mod run;

pub use day::drive;
