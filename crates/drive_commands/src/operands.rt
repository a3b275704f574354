// A command byte and its operands: an 8-byte name, an 8-byte position, a 16-byte payload, in this order, as many of them as the command has.
ghost use Rattle.std.specs.Prelude.{◌≡◌, ◌≤◌, IfSome, IfNone, is_some, length, take, drop, slice_index};
ghost use Rattle.call_decide.specs.Request.{position_of};
ghost use Rattle.drive_commands.specs.Commands.{name_in, number_in, position_by, width};
ghost use Rattle.drive_commands.specs.Internal.{byte_of, starts_command};

use crate::Command;
use fields::u64_at;

const NAME_LEN: usize = 8;

const POSITION_LEN: usize = 8;

const PAYLOAD_LEN: usize = 16;

impl Command {
    // The command of a byte, where it is known.
    // Kept: no plainer: `command_at` passes the Option on by `?`; a TryFrom would name an error that nobody reads, and an `ok()` would drop it there.
    #[tactic(auto, unfolding(crate::specs::Commands::width))]
    pub fn from_byte(byte: u8) -> Option<Command>
        ensures known { IfSome result (λ c. byte_of c ≡ byte) }
        ensures unknown { IfNone result (width byte ≡ 0) }
    {
        match byte {
            1 => Some(Command::Create),
            2 => Some(Command::Append),
            3 => Some(Command::Truncate),
            4 => Some(Command::Delete),
            _ => None,
        }
    }

    // How many bytes the operands take.
    #[tactic(auto, unfolding(crate::specs::Commands::width))]
    pub fn width(self) -> usize
        ensures { result ≡ width (byte_of self) }
    {
        match self {
            Command::Create => NAME_LEN,
            Command::Append => NAME_LEN + POSITION_LEN + PAYLOAD_LEN,
            Command::Truncate => NAME_LEN + POSITION_LEN,
            Command::Delete => NAME_LEN,
        }
    }
}

// How many bytes the operands of a command byte take; 0 for one that no command has.
pub fn width(command: u8) -> usize
    ensures { result ≡ width command }
{
    match Command::from_byte(command) {
        Some(known) => known.width(),
        None => 0,
    }
}

// The command that stands at this place of the input, with all its operands.
// Kept: no plainer: the place `p`, here and in drive_text: where a command ends (`passed`) and what a turn did (`Turned`) are said by the place in the input.
pub fn command_at(input: &[u8], p: usize) -> Option<Command>
    ensures there { is_some result ≡ starts_command (drop p input.now) }
    ensures byte { IfSome result (λ c. byte_of c ≡ slice_index input.now p) }
{
    if input.len() <= p {
        return None;
    }
    let command = Command::from_byte(input[p])?;
    (command.width() <= input.len() - p - 1).then_some(command)
}

// The length of the name: zeros at its end are no part of it.
// Kept: no plainer: how many bytes the operands have, here, in `number_in`, `at_position` and twice in drive_text: they are the rest of the input behind a
// command, and a struct of them for each width would be made there and taken apart here.
pub fn name_len(operands: &[u8]) -> usize
    requires { 8 ≤ length operands.now }
    ensures { (result ≤ 8) × (take result operands.now ≡ name_in operands.now) }
{
    let mut name = &operands[..NAME_LEN];
    while let Some((last, rest)) = name.split_last() {
        if *last != 0 {
            return name.len();
        }
        name = rest;
    }
    0
}

// The position.
pub fn number_in(operands: &[u8]) -> u64
    requires { 16 ≤ length operands.now }
    ensures { result ≡ number_in operands.now }
{
    u64_at(operands, NAME_LEN)
}

// The position of an append: 2^64-1 is none.
pub fn at_position(operands: &[u8]) -> Option<u64>
    requires { 16 ≤ length operands.now }
    ensures { position_of result ≡ position_by (number_in operands.now) }
{
    let position = number_in(operands);
    (position != u64::MAX).then_some(position)
}
