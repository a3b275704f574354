// The memory of a case, and how much of it is lent to the calls.
use crate::answers::sum;
use crate::line::Line;
use multi_record_log::{LogWriter, QueueMemory};

// The memory of all cases.
#[derive(Drop)]
pub struct Store {
    pub log: [u8; 98304],
    pub write_position: usize,
    pub scratch: [u8; 98304],
    pub names: [u8; 32768],
    pub payloads: [u8; 98304],
    pub entries: [u8; 48000],
    pub largest: [u8; 9000],
    pub table: [u8; 2000],
}

// What is lent of it: the log with the write position and the scratch, and the queue memory.
#[derive(Drop)]
pub struct Memory<'a> {
    pub writer: LogWriter<'a>,
    pub queues: QueueMemory<'a, u8, u8>,
}

// How many bytes of each memory are lent, where it has as many.
#[derive(Clone, Copy)]
pub struct Lent {
    log: u64,
    scratch: u64,
    names: u64,
    payloads: u64,
    entries: u64,
    largest: u64,
    table: u64,
}

// CRC-32 of each memory that is lent, and the write position.
#[derive(Clone, Copy, PartialEq, Eq)]
pub struct Sums {
    log: u64,
    write_position: usize,
    scratch: u64,
    names: u64,
    payloads: u64,
    entries: u64,
    largest: u64,
    table: u64,
}

impl Lent {
    pub const ALL: Lent = Lent {
        log: u64::MAX,
        scratch: u64::MAX,
        names: u64::MAX,
        payloads: u64::MAX,
        entries: u64::MAX,
        largest: u64::MAX,
        table: u64::MAX,
    };

    // What a line says of it, and for what it does not say the same as before.
    pub fn said(self, line: Line<'_>) -> Lent {
        Lent {
            log: line.number(b"log").unwrap_or(self.log),
            scratch: line.number(b"scratch").unwrap_or(self.scratch),
            names: line.number(b"names").unwrap_or(self.names),
            payloads: line.number(b"payload_bytes").unwrap_or(self.payloads),
            entries: line.number(b"entries").unwrap_or(self.entries),
            largest: line.number(b"numbers").unwrap_or(self.largest),
            table: line.number(b"table").unwrap_or(self.table),
        }
    }
}

// The first n bytes, or all of them where there are fewer.
fn first(s: &mut [u8], n: u64) -> &mut [u8] {
    let n = n.min(s.len() as u64) as usize;
    &mut s[..n]
}

impl Store {
    // A zero log, no queues, write position 0.
    pub fn fresh() -> Store {
        Store {
            log: [0; 98304],
            write_position: 0,
            scratch: [0; 98304],
            names: [0; 32768],
            payloads: [0; 98304],
            entries: [0; 48000],
            largest: [0; 9000],
            table: [0; 2000],
        }
    }

    // As much of each memory as is lent.
    pub fn lend(&mut self, lent: Lent) -> Memory<'_> {
        let Store {
            log,
            write_position,
            scratch,
            names,
            payloads,
            entries,
            largest,
            table,
        } = self;
        let writer = LogWriter {
            log: first(log, lent.log),
            write_position,
            scratch: first(scratch, lent.scratch),
        };
        let queues = QueueMemory {
            names: first(names, lent.names),
            payloads: first(payloads, lent.payloads),
            entries: first(entries, lent.entries),
            largest: first(largest, lent.largest),
            table: first(table, lent.table),
        };
        Memory { writer, queues }
    }
}

impl Memory<'_> {
    pub fn sums(&self) -> Sums {
        Sums {
            log: sum(self.writer.log),
            write_position: *self.writer.write_position,
            scratch: sum(self.writer.scratch),
            names: sum(self.queues.names),
            payloads: sum(self.queues.payloads),
            entries: sum(self.queues.entries),
            largest: sum(self.queues.largest),
            table: sum(self.queues.table),
        }
    }
}

// The word of the record table that is the block of this entry, of the first 1,024.
pub fn block_word(entry: usize) -> usize {
    4 * entry.min(1023) + 3
}

// A word of the table of queues or of the record table, 0 where there is none.
pub fn table_word(table: &[u8], k: usize) -> u64 {
    if k < table.len() / 8 {
        fields::u64_at(table, 8 * k)
    } else {
        0
    }
}
