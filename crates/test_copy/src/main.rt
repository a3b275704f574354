// Copies of what logs hold. Standard input has cases one after the other: 48 bytes, then the log's bytes as far as they are stored, zeros after them. The 48
// are a title of 32, the log's length and how many of its bytes are stored, the lengths of the target and of the scratch, three bytes each, the low one first,
// and a place in the table of queues, from 1 on, with a byte to put there before the copy. A line has the title, replay's answer and the copy's, and CRC-32 of
// the target's whole blocks, of what lies after them and of the scratch. The target is full of hex ee before, the scratch of hex 5a.
#![tactic(auto)]

use multi_record_log::{HeldMemory, QueueMemory, Refusal, Replayed};
use std::io::{self, Read};

// The most bytes of a log, of a target and of a scratch; into more of these nothing is copied.
const LONGEST_LOG: usize = 131072;

const LONGEST_TARGET: usize = 196607;

const LONGEST_SCRATCH: usize = 131072;

// The memory of the queues.
// Kept: no plainer: the example and two tests have such a struct, of other sizes; one would take five const parameters, and the example stands alone.
#[derive(Drop)]
struct Queues {
    names: [u8; 98304],
    payloads: [u8; 98304],
    entries: [u8; 32768],
    largest: [u8; 8192],
    table: [u8; 1568],
}

// A byte of the table of queues, and what is put there.
#[derive(Clone, Copy)]
struct Change {
    index: usize,
    value: u8,
}

// What a case says: its title, how long the log is and how many of its bytes are stored, how long the target and the scratch are, and what is changed in the
// table before the copy.
#[derive(Clone, Copy)]
struct Case {
    title: [u8; 32],
    log_len: usize,
    stored: usize,
    target_len: usize,
    scratch_len: usize,
    change: Option<Change>,
}

// CRC-32: that of a frame over the first byte and the rest.
fn crc(s: &[u8]) -> u32 {
    match s {
        [] => 0,
        [first, rest @ ..] => crc32_fold::checksum(*first, rest),
    }
}

impl Queues {
    fn replay(&mut self, log: &[u8]) -> Result<Replayed, Refusal> {
        let mut memory = QueueMemory {
            names: &mut self.names,
            payloads: &mut self.payloads,
            entries: &mut self.entries,
            largest: &mut self.largest,
            table: &mut self.table,
        };
        multi_record_log::replay(log, &mut [0u8; 131072], &mut memory)
    }

    fn copy(&self, target: &mut [u8], scratch: &mut [u8]) -> Result<usize, Refusal> {
        let memory = HeldMemory {
            names: &self.names,
            payloads: &self.payloads,
            entries: &self.entries,
            largest: &self.largest,
            table: &self.table,
        };
        multi_record_log::copy(target, scratch, memory)
    }

    // Numbers that stand for the whole memory.
    fn sums(&self) -> [u32; 5] {
        [
            crc(&self.names),
            crc(&self.payloads),
            crc(&self.entries),
            crc(&self.largest),
            crc(&self.table),
        ]
    }
}

// The number in the next three bytes.
fn next_length(input: &mut impl Read) -> io::Result<usize> {
    let mut bytes = [0u8; 4];
    input.read_exact(&mut bytes[..3])?;
    Ok(u32::from_le_bytes(bytes) as usize)
}

// The change that the next bytes name: a place from 1 on, 0 for none, and a byte.
fn next_change(input: &mut impl Read) -> io::Result<Option<Change>> {
    let place = next_length(input)?;
    let mut value = [0u8; 1];
    input.read_exact(&mut value)?;
    let [value] = value;
    let Some(index) = place.checked_sub(1) else {
        return Ok(None);
    };
    Ok(Some(Change { index, value }))
}

// What the next case says, or an error where there is none.
fn next_case(input: &mut impl Read) -> io::Result<Case> {
    let mut title = [0u8; 32];
    input.read_exact(&mut title)?;
    let log_len = next_length(input)?;
    let stored = next_length(input)?;
    let target_len = next_length(input)?;
    let scratch_len = next_length(input)?;
    let change = next_change(input)?;
    Ok(Case {
        title,
        log_len,
        stored,
        target_len,
        scratch_len,
        change,
    })
}

// The log: the bytes that are stored, as far as they can be read, and zeros after them. There is none that is longer than four blocks or has fewer bytes than
// are stored.
fn next_log<'a>(input: &mut impl Read, case: Case, room: &'a mut [u8]) -> Option<&'a [u8]> {
    let log = room.get_mut(..case.log_len)?;
    let _ = input.read_exact(log.get_mut(..case.stored)?);
    Some(log)
}

// A write that fails is passed over, here and below.
fn tell_replay(rt: &impl Print, answer: Result<Replayed, Refusal>) {
    let _ = match answer {
        Ok(Replayed { resumed, .. }) => print!(rt; "replayed to {resumed}"),
        Err(refusal) => print!(rt; "replay refused {}", refusal.number()),
    };
}

fn tell_copy(rt: &impl Print, answer: Result<usize, Refusal>) {
    let _ = match answer {
        Ok(end) => print!(rt; ", copied to {end}"),
        Err(refusal) => print!(rt; ", refused {}", refusal.number()),
    };
}

// The copy, and what it leaves: the target's whole blocks and what lies after them, and the scratch.
fn copy(rt: &impl Print, queues: &Queues, target: &mut [u8], scratch: &mut [u8]) {
    tell_copy(rt, queues.copy(target, scratch));
    let (blocks, tail) = target.split_at(target.len() / 32768 * 32768);
    let (blocks, tail, scratch) = (crc(blocks), crc(tail), crc(scratch));
    let _ = print!(rt; ", blocks {blocks:08x}, tail {tail:08x}, scratch {scratch:08x}");
}

// The same with a target and a scratch of the lengths that the case says, and whether the queues stay.
fn copy_kept(rt: &impl Print, queues: &Queues, case: Case) {
    let mut target = [0xeeu8; LONGEST_TARGET];
    let mut scratch = [0x5au8; LONGEST_SCRATCH];
    let before = queues.sums();
    let target = target.get_mut(..case.target_len);
    let scratch = scratch.get_mut(..case.scratch_len);
    if let (Some(target), Some(scratch)) = (target, scratch) {
        copy(rt, queues, target, scratch);
    }
    let kept = if before == queues.sums() {
        "stay"
    } else {
        "changed"
    };
    let _ = println!(rt; ", queues {kept}");
}

// The queues of the log, the byte put into their table, and the copy.
fn run(rt: &impl Print, case: Case, log: &[u8]) {
    let mut queues = Queues {
        names: [0; 98304],
        payloads: [0; 98304],
        entries: [0; 32768],
        largest: [0; 8192],
        table: [0; 1568],
    };
    tell_replay(rt, queues.replay(log));
    if let Some(Change { index, value }) = case.change {
        if let Some(byte) = queues.table.get_mut(index) {
            *byte = value;
        }
    }
    copy_kept(rt, &queues, case);
}

fn main(rt: HostRuntime) {
    let mut input = rt.stdin();
    for _ in 0..1000 {
        let Ok(case) = next_case(&mut input) else {
            break;
        };
        let _ = rt.write_all(&case.title);
        let mut room = [0u8; LONGEST_LOG];
        let Some(log) = next_log(&mut input, case, &mut room) else {
            break;
        };
        run(&rt, case, log);
    }
}
