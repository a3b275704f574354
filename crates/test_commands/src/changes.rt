// What a case starts from, the log changed, and what a case left.
ghost use Rattle.std.specs.Prelude.{◌≡◌, length, IfSome};

use crate::answers::{say, say_crc, text};
use crate::bytes::fill;
use crate::command::{Change, Set, Show};
use crate::line::Line;
use crate::memory::{Memory, block_word, table_word};

// The number at a place of memory, in 8 bytes, where it has that place.
fn put_number(s: &mut [u8], place: usize, n: u64) {
    if place < s.len() / 8 {
        fields::put_u64(s, 8 * place, n);
    }
}

pub fn do_set(memory: &mut Memory<'_>, set: Set, line: Line<'_>) {
    let Memory { writer, queues } = memory;
    match set {
        Set::Start => {
            writer.log.fill(0);
            queues.table.fill(0);
            *writer.write_position = 0;
        }
        Set::Stain => writer.scratch.fill(170),
        Set::Move => *writer.write_position = line.place(),
        Set::Keep => put_number(queues.largest, line.place(), line.number_or_0(b"number")),
        Set::Soil => queues.largest.fill(170),
        Set::Block => put_number(
            queues.entries,
            block_word(line.place()),
            line.number_or_0(b"number"),
        ),
        Set::Queues => put_number(queues.table, 0, line.number_or_0(b"queues")),
    }
}

// So many bytes from a place on, where all of them are there.
fn part(s: &mut [u8], at: usize, len: usize) -> Option<&mut [u8]>
    ensures { IfSome result (λ part. length part.now ≡ len) }
{
    s.get_mut(at..)?.get_mut(..len)
}

pub fn do_change(log: &mut [u8], change: Change, bytes: &[u8], line: Line<'_>) {
    let at = line.place();
    match change {
        Change::Xor => {
            if let Some(byte) = log.get_mut(at) {
                *byte ^= (line.number_or_0(b"by") % 256) as u8;
            }
        }
        Change::Cut => {
            if let Some(rest) = log.get_mut(at..) {
                rest.fill(0);
            }
        }
        Change::Put => {
            if let Some(place) = part(log, at, bytes.len()) {
                place.copy_from_slice(bytes);
            }
        }
        Change::Fill => {
            if let Some(place) = part(log, at, line.number_or_0(b"bytes") as usize) {
                fill(place, line.number_or_0(b"seed"));
            }
        }
    }
}

pub fn do_show(memory: &Memory<'_>, show: Show) {
    let Memory { writer, queues } = memory;
    match show {
        Show::Place => say(b" place ", *writer.write_position as u64),
        Show::Held => {
            say(b" queues ", table_word(queues.table, 0));
            say(b" name bytes ", table_word(queues.table, 1));
        }
        Show::Scratch => {
            if writer.scratch.iter().all(|b| *b == 0) {
                text(b" zero");
            }
        }
        Show::Log => {
            say_crc(b" log ", writer.log);
            text(b"\n");
        }
    }
}
