// Replay, all reads of a log, and a copy of what is held.
use crate::answers::{refused, replayed, say, say_part, say_record, text};
use crate::command::Look;
use crate::memory::{Lent, Memory, Store, table_word};
use crate::questions::{show_blocks, show_queues};
use multi_record_log::{
    Corruption, HeldMemory, LogWriter, Lost, MultiPlexedRecord, QueueMemory, ReadAnswer, Reader,
    Refusal,
};
use record::MultiRecord;

// The items of an append, item after item.
fn show_items(s: &[u8], items: MultiRecord) {
    let mut left = items;
    while let Ok(Some(item)) = record::next_item(s, left) {
        say_record(s, item.position, item.start, item.len);
        left = item.rest;
    }
}

// A record's type, position and name.
fn say_head(what: &[u8], s: &[u8], position: u64, start: usize, len: usize) {
    say(what, position);
    say_part(b" name ", s, start, len);
}

fn show_decoded(s: &[u8], r: MultiPlexedRecord) {
    match r {
        MultiPlexedRecord::Truncate {
            position,
            name_start,
            name_len,
        } => say_head(b"read truncate ", s, position, name_start, name_len),
        MultiPlexedRecord::Touch {
            position,
            name_start,
            name_len,
        } => say_head(b"read touch ", s, position, name_start, name_len),
        MultiPlexedRecord::Delete {
            position,
            name_start,
            name_len,
        } => say_head(b"read delete ", s, position, name_start, name_len),
        MultiPlexedRecord::Append {
            position,
            name_start,
            name_len,
            items,
        } => {
            say_head(b"read append ", s, position, name_start, name_len);
            show_items(s, items);
        }
        MultiPlexedRecord::Mark {
            position,
            body_start,
        } => {
            say(b"read mark ", position);
            say_part(b" body ", s, body_start, 8);
        }
    }
}

fn show_lost(lost: Lost) {
    text(match lost {
        Lost::Frame(Corruption::WrongChecksum) => b"read wrong checksum",
        Lost::Frame(Corruption::UnknownType) => b"read unknown type",
        Lost::Frame(Corruption::PastBlock) => b"read length past the block",
        Lost::NoRecord => b"read no record",
    });
}

// An answer. Answers whether reading goes on.
fn show_read(s: &[u8], answer: ReadAnswer) -> bool {
    match answer {
        ReadAnswer::Record(r) => show_decoded(s, r),
        ReadAnswer::Corruption(lost) => show_lost(lost),
        ReadAnswer::EndOfLog => {
            text(b"read end\n");
            return false;
        }
        ReadAnswer::Refused(refusal) => {
            refused(refusal);
            return false;
        }
    }
    text(b"\n");
    true
}

// All reads up to end of log; a reader gives fewer answers than 4,681 for each block.
fn show_reads(writer: &mut LogWriter<'_>) {
    let mut reader = Reader::new();
    for _ in 0..15000 {
        let log = &mut *writer.log;
        let answer = multi_record_log::read(log, writer.scratch, &mut reader);
        if !show_read(writer.scratch, answer) {
            return;
        }
    }
}

// Replay; writing goes on where it resumes.
fn replay(writer: &mut LogWriter<'_>, queues: &mut QueueMemory<'_, u8, u8>) {
    let log = &mut *writer.log;
    let answer = multi_record_log::replay(log, writer.scratch, queues);
    replayed(answer, table_word(queues.table, 0));
    if let Ok(replayed) = answer {
        *writer.write_position = replayed.resumed;
    }
}

// A copy into a log that is lent.
fn copy_into(
    writer: &mut LogWriter<'_>,
    held: HeldMemory<'_, '_, u8, u8>,
) -> Result<usize, Refusal> {
    let log = &mut *writer.log;
    multi_record_log::copy(log, writer.scratch, held)
}

// A copy of what is held, and its replay into memory that is lent beside the log.
fn copy(memory: &mut Memory<'_>, held: HeldMemory<'_, '_, u8, u8>) {
    match copy_into(&mut memory.writer, held) {
        Ok(end) => {
            say(b" copied to ", end as u64);
            replay(&mut memory.writer, &mut memory.queues);
            show_blocks(memory.queues.held());
        }
        Err(refusal) => refused(refusal),
    }
}

pub fn do_look(memory: &mut Memory<'_>, look: Look) {
    match look {
        Look::Replay => replay(&mut memory.writer, &mut memory.queues),
        Look::Reopen => {
            text(b"replay");
            replay(&mut memory.writer, &mut memory.queues);
            text(b"\n");
            show_queues(memory.queues.held());
        }
        Look::Reads => show_reads(&mut memory.writer),
        Look::Copy => copy(&mut Store::fresh().lend(Lent::ALL), memory.queues.held()),
    }
}
