// The commands of a text, line by line, over memory of their own.
use crate::answers::text;
use crate::bytes::bytes_of;
use crate::changes::{do_change, do_set, do_show};
use crate::command::{Command, Text, Unknown};
use crate::line::Line;
use crate::memory::{Lent, Memory, Store};
use crate::questions::ask;
use crate::reads::do_look;
use crate::writes::do_write;

fn print(kind: Text, words: &[u8]) {
    let (before, after): (&[u8], &[u8]) = match kind {
        Text::Case => (b"", b":"),
        Text::Line => (b"", b"\n"),
        Text::Expect => (b" | ", b"\n"),
    };
    text(before);
    text(words);
    text(after);
}

// A command in as much memory as is lent. An unknown one is printed.
fn do_command(memory: &mut Memory<'_>, command: Result<Command, Unknown>, line: Line<'_>) {
    let mut buffer = [0u8; 65536];
    let bytes = bytes_of(line.name(), &mut buffer);
    match command {
        Ok(Command::Lend) => {}
        Ok(Command::Text(kind)) => print(kind, line.rest),
        Ok(Command::Write(write)) => do_write(memory, write, bytes, line),
        Ok(Command::Ask(question)) => ask(memory.queues.held(), question, bytes, line),
        Ok(Command::Look(look)) => do_look(memory, look),
        Ok(Command::Set(set)) => do_set(memory, set, line),
        Ok(Command::Change(change)) => do_change(memory.writer.log, change, bytes, line),
        Ok(Command::Show(show)) => do_show(memory, show),
        Err(Unknown) => {
            text(b" unknown command ");
            text(line.text);
        }
    }
}

// Does a line, and answers what is lent after it.
fn do_line(store: &mut Store, line: Line<'_>, lent: Lent) -> Lent {
    let command = Command::try_from(line.command);
    let lent = match command {
        Ok(Command::Lend) => Lent::ALL.said(line),
        _ => lent,
    };
    do_command(&mut store.lend(lent.said(line)), command, line);
    lent
}

pub fn run(list: &[u8]) {
    let mut store = Store::fresh();
    let mut lent = Lent::ALL;
    for line in list.split_inclusive(|b| *b == b'\n') {
        let text = line.strip_suffix(b"\n").unwrap_or(line);
        lent = do_line(&mut store, Line::from(text), lent);
    }
}
