// A caller of `multi_record_log`: a log of one zeroed block is written to and asked, opened again as a program would that starts anew, and cut down to what is
// held. All memory is the caller's: the log, the scratch, and the queue memory.
#![tactic(auto)]

use multi_record_log::{
    Called, FoundRecord, HeldMemory, LogWriter, Payload, QuestionAnswer, QueueMemory, Refusal,
};
use std::ops::Bound;

const RINGS: &[u8] = b"rings";

// The log, where it is written on, and the scratch.
#[derive(Drop)]
struct Log {
    bytes: [u8; 32768],
    write_position: usize,
    scratch: [u8; 256],
}

// The queue memory.
// Kept: no plainer: the example and two tests have such a struct, of other sizes; one would take five const parameters, and the example stands alone.
#[derive(Drop)]
struct Queues {
    names: [u8; 64],
    payloads: [u8; 1024],
    entries: [u8; 256],
    largest: [u8; 64],
    table: [u8; 56],
}

impl Log {
    fn new() -> Log {
        Log {
            bytes: [0; 32768],
            write_position: 0,
            scratch: [0; 256],
        }
    }

    // What a call that writes is lent of it.
    fn writer(&mut self) -> LogWriter<'_> {
        let Log {
            bytes,
            write_position,
            scratch,
        } = self;
        LogWriter {
            log: bytes,
            write_position,
            scratch,
        }
    }
}

impl Queues {
    fn new() -> Queues {
        Queues {
            names: [0; 64],
            payloads: [0; 1024],
            entries: [0; 256],
            largest: [0; 64],
            table: [0; 56],
        }
    }

    // All of it, to be changed.
    fn lent(&mut self) -> QueueMemory<'_, u8, u8> {
        let Queues {
            names,
            payloads,
            entries,
            largest,
            table,
        } = self;
        QueueMemory {
            names,
            payloads,
            entries,
            largest,
            table,
        }
    }

    // All of it, to be looked at.
    fn held(&self) -> HeldMemory<'_, '_, u8, u8> {
        HeldMemory {
            names: &self.names,
            payloads: &self.payloads,
            entries: &self.entries,
            largest: &self.largest,
            table: &self.table,
        }
    }

    // The payload of a record, which a range question answers as a part of the payload memory.
    fn payload(&self, record: FoundRecord) -> Option<&[u8]> {
        self.payloads.get(record.start..)?.get(..record.length)
    }
}

// What a call that writes answered: the bytes of its frames and of the padding before them. A write that fails is passed over, here and below.
fn tell_call(rt: &impl Print, what: &str, answer: Result<Called, Refusal>) {
    let _ = match answer {
        Ok(
            Called {
                frame_bytes,
                padding_bytes,
                ..
            },
        ) => println!(rt; "{what}: bytes {frame_bytes} + {padding_bytes}"),
        Err(refusal) => println!(rt; "{what}: refused {}", refusal.number()),
    };
}

fn tell_record(rt: &impl Print, queues: &Queues, record: FoundRecord) {
    let _ = print!(rt; " {}", record.position);
    if let Some(payload) = queues.payload(record) {
        let _ = rt.write_all(b" '");
        let _ = rt.write_all(payload);
        let _ = rt.write_all(b"'");
    }
    let _ = println!(rt; "");
}

fn tell_answer(
    rt: &impl Print,
    what: &str,
    queues: &Queues,
    answer: Result<QuestionAnswer, Refusal>,
) {
    let _ = print!(rt; "{what}");
    let _ = match answer {
        Ok(QuestionAnswer::Positions { start, next }) => println!(rt; " from {start} to {next}"),
        Ok(QuestionAnswer::Record(Some(record))) => return tell_record(rt, queues, record),
        Ok(QuestionAnswer::Largest(Some(Payload { length, position }))) => {
            println!(rt; " {length} bytes, at {position}")
        }
        Ok(QuestionAnswer::Record(None)) | Ok(QuestionAnswer::Largest(None)) => {
            println!(rt; " none")
        }
        Err(refusal) => println!(rt; " refused {}", refusal.number()),
    };
}

// What the queue holds: its positions, the first record of the range of all, and the largest payload.
fn tell_queue(rt: &impl Print, queues: &Queues) {
    let memory = queues.held();
    let positions = multi_record_log::positions(memory, RINGS);
    tell_answer(rt, "positions", queues, positions);
    let first = multi_record_log::range(memory, RINGS, Bound::Unbounded, Bound::Unbounded);
    tell_answer(rt, "first", queues, first);
    let largest = multi_record_log::largest(memory, RINGS);
    tell_answer(rt, "largest", queues, largest);
}

// The queues of the log, in other memory; writing goes on where replay resumes.
fn open(rt: &impl Print, log: &mut Log) {
    let mut queues = Queues::new();
    match multi_record_log::replay(&log.bytes, &mut log.scratch, &mut queues.lent()) {
        Ok(replayed) => {
            log.write_position = replayed.resumed;
            let lost_bytes = replayed.lost_bytes;
            let resumed = replayed.resumed;
            let _ = println!(rt; "open: lost bytes {lost_bytes}, resumed {resumed}");
        }
        Err(refusal) => {
            let _ = println!(rt; "open: refused {}", refusal.number());
        }
    }
    tell_queue(rt, &queues);
}

// What the queues hold, in a fresh log.
fn cut_down(rt: &impl Print, queues: &Queues) {
    let mut fresh = Log::new();
    let _ = match multi_record_log::copy(&mut fresh.bytes, &mut fresh.scratch, queues.held()) {
        Ok(end) => println!(rt; "copy: bytes {end}"),
        Err(refusal) => println!(rt; "copy: refused {}", refusal.number()),
    };
    open(rt, &mut fresh);
}

// A queue, and two records in it, from position 7 on.
fn write(rt: &impl Print, log: &mut Log, queues: &mut Queues) {
    let created = multi_record_log::create(&mut log.writer(), &mut queues.lent(), RINGS);
    tell_call(rt, "create", created);
    let appended = multi_record_log::append(
        &mut log.writer(),
        &mut queues.lent(),
        RINGS,
        Some(7),
        b"ring 7ring 8 x",
        &[6, 8],
    );
    tell_call(rt, "append", appended);
}

// The first record evicted.
fn evict(rt: &impl Print, log: &mut Log, queues: &mut Queues) {
    let truncated = multi_record_log::truncate(&mut log.writer(), &mut queues.lent(), RINGS, 7);
    tell_call(rt, "truncate", truncated);
}

fn main(rt: HostRuntime) {
    let mut log = Log::new();
    let mut queues = Queues::new();
    write(&rt, &mut log, &mut queues);
    tell_queue(&rt, &queues);
    open(&rt, &mut log);
    evict(&rt, &mut log, &mut queues);
    cut_down(&rt, &queues);
}
