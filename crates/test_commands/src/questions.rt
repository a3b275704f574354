// The questions.
use crate::answers::{refused, say, say_bytes, say_record, text};
use crate::command::Ask;
use crate::line::Line;
use crate::memory::{block_word, table_word};
use multi_record_log::{
    HeldMemory, Payload, QuestionAnswer, Refusal, first_block, largest, positions, range,
};
use std::ops::Bound;

fn say_answer(payloads: &[u8], answer: Result<QuestionAnswer, Refusal>) {
    match answer {
        Ok(QuestionAnswer::Positions { start, next }) => {
            say(b" start ", start);
            say(b" next ", next);
        }
        Ok(QuestionAnswer::Record(Some(found))) => {
            say_record(payloads, found.position, found.start, found.length)
        }
        Ok(QuestionAnswer::Largest(Some(Payload { length, position }))) => {
            say(b" largest ", length as u64);
            say(b" at ", position);
        }
        Ok(QuestionAnswer::Record(None)) | Ok(QuestionAnswer::Largest(None)) => text(b" none"),
        Err(refusal) => refused(refusal),
    }
}

// The first record of a queue, or that after a position: its position and length.
// Kept: no plainer: the name beside its line, here and in writes: it stands in a buffer of its own, into which the line's word was turned.
fn first(memory: HeldMemory<'_, '_, u8, u8>, name: &[u8], line: Line<'_>) {
    let lower = line
        .number_of_word(b"after")
        .map_or(Bound::Unbounded, Bound::Excluded);
    match range(memory, name, lower, Bound::Unbounded) {
        Ok(QuestionAnswer::Record(Some(found))) => {
            say(b" record ", found.position);
            say(b" of ", found.length as u64);
        }
        other => say_answer(memory.payloads, other),
    }
}

// The first record of each range: lower bound none, from and after a position, each with upper bound none, through and before another.
fn ranges(memory: HeldMemory<'_, '_, u8, u8>, name: &[u8], line: Line<'_>) {
    let from = line.number_or_0(b"from");
    let to = line.number_or_0(b"to");
    text(b"range");
    for lower in [
        Bound::Unbounded,
        Bound::Included(from),
        Bound::Excluded(from),
    ] {
        for upper in [Bound::Unbounded, Bound::Included(to), Bound::Excluded(to)] {
            say_answer(memory.payloads, range(memory, name, lower, upper));
        }
    }
    text(b"\n");
}

fn say_first_block(answer: Result<Option<u64>, Refusal>) {
    match answer {
        Ok(Some(block)) => say(b" first block ", block),
        Ok(None) => text(b" no first block"),
        Err(refusal) => refused(refusal),
    }
}

// The blocks of the entries that are held, at most 1,024, in the order of the record table: of each the bytes 24 to 31.
pub fn show_blocks(memory: HeldMemory<'_, '_, u8, u8>) {
    text(b" blocks");
    for i in 0..table_word(memory.table, 2).min(1024) as usize {
        say(b" ", table_word(memory.entries, block_word(i)));
    }
}

// All records of a queue, one question after the other.
fn show_records(memory: HeldMemory<'_, '_, u8, u8>, name: &[u8]) {
    let mut lower = Bound::Unbounded;
    for _ in 0..1025 {
        let answer = range(memory, name, lower, Bound::Unbounded);
        let Ok(QuestionAnswer::Record(Some(found))) = answer else {
            return;
        };
        say_record(memory.payloads, found.position, found.start, found.length);
        lower = Bound::Excluded(found.position);
    }
}

fn show_queue(memory: HeldMemory<'_, '_, u8, u8>, name: &[u8]) {
    say_bytes(b"queue ", name);
    say_answer(memory.payloads, positions(memory, name));
    show_records(memory, name);
    text(b"\n");
}

// All queues, at most 64, in byte order of their names: these stand one after the other, and the table has their lengths.
pub fn show_queues(memory: HeldMemory<'_, '_, u8, u8>) {
    let mut names = memory.names;
    for k in 0..table_word(memory.table, 0).min(64) as usize {
        let len = table_word(memory.table, 4 + 3 * k) as usize;
        if let Some((name, others)) = names.split_at_checked(len) {
            show_queue(memory, name);
            names = others;
        }
    }
}

pub fn ask(memory: HeldMemory<'_, '_, u8, u8>, question: Ask, name: &[u8], line: Line<'_>) {
    match question {
        Ask::Positions => say_answer(memory.payloads, positions(memory, name)),
        Ask::First => first(memory, name, line),
        Ask::Ranges => ranges(memory, name, line),
        Ask::Largest => say_answer(memory.payloads, largest(memory, name)),
        Ask::FirstBlock => say_first_block(first_block(memory)),
        Ask::Blocks => show_blocks(memory),
        Ask::Queues => show_queues(memory),
    }
}
