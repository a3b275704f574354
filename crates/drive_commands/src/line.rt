// The line of a command, behind what a text has.
ghost use Rattle.std.specs.Prelude.{◌≡◌, ◌++◌};
ghost use Rattle.call_decide.specs.Request.{position_of};
ghost use Rattle.listing.specs.Internal.{SameOut, Puts};
ghost use Rattle.listing.specs.Listing.{space, refusal};
ghost use Rattle.drive_commands.specs.Lines.{position_text};
ghost use Rattle.drive_commands.specs.Internal.{byte_of, told_for, ok_for, line_for};

use crate::Command;
use call_write::Called;
use calls::Refusal;
use listing::Text;

// A space and the last position, '-' for none.
fn put_last(text: &mut Text, last: Option<u64>)
    ensures same { SameOut text.old text.new }
    ensures puts { Puts text.old (space ++ position_text (position_of last)) text.new }
{
    match last {
        None => text.put_bytes(b" -"),
        Some(position) => text.put_numbered(b" ", position),
    }
}

// After an append the last position, after a truncate the evicted count, else nothing.
fn put_told(text: &mut Text, command: Command, called: Called)
    ensures same { SameOut text.old text.new }
    ensures puts { Puts text.old (told_for (byte_of command) called) text.new }
{
    match command {
        Command::Append => put_last(text, called.last),
        Command::Truncate => text.put_numbered(b" ", called.evicted as u64),
        _ => (),
    }
}

fn put_ok(text: &mut Text, command: Command, called: Called)
    ensures same { SameOut text.old text.new }
    ensures puts { Puts text.old (ok_for (byte_of command) called) text.new }
{
    text.put_bytes(b"ok");
    put_told(text, command, called);
    text.put_numbered(b" ", called.frame_bytes as u64);
    text.put_number_line(b" ", called.padding_bytes as u64);
}

// Kept: no plainer: a line of a command file may tell 16 too, which no call answers, so an enum would take one case more and be turned into its number here.
pub fn put_refused(text: &mut Text, number: u64)
    ensures same { SameOut text.old text.new }
    ensures puts { Puts text.old (refusal number) text.new }
{
    text.put_number_line(b"refused ", number);
}

// What the call of a command answered.
fn put_command_line(text: &mut Text, command: Command, answer: Result<Called, Refusal>)
    ensures same { SameOut text.old text.new }
    ensures puts { Puts text.old (line_for (byte_of command) answer) text.new }
{
    match answer {
        Ok(called) => put_ok(text, command, called),
        Err(refusal) => put_refused(text, refusal.number()),
    }
}

// The same by the command's byte. Of a byte that no command has no more is told than of a create.
pub fn put_line(text: &mut Text, byte: u8, answer: Result<Called, Refusal>)
    ensures same { SameOut text.old text.new }
    ensures puts { Puts text.old (line_for byte answer) text.new }
{
    match Command::from_byte(byte) {
        Some(command) => put_command_line(text, command, answer),
        None => put_command_line(text, Command::Create, answer),
    }
}
