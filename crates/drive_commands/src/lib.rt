// The commands of a command file: what a command byte asks for, its operands, and the line that tells what its call answered.
#![tactic(auto)]

mod line;
mod operands;

pub use line::{put_line, put_refused};
pub use operands::{at_position, command_at, name_len, number_in, width};

// A command, with its byte.
#[derive(Clone, Copy, PartialEq, Eq)]
pub enum Command {
    Create = 1,
    Append = 2,
    Truncate = 3,
    Delete = 4,
}
