// What is answered, as text on standard output.
use crate::command::Write;
use multi_record_log::{Called, Refusal, Replayed};

// Kept: no plainer: `run` can't fail, and with `print!` each function below it takes the runtime and answers a result. One with test_log_text takes a crate for
// the one line.
pub fn text(s: &[u8]) {
    io::write_all(1, s);
}

// A word, and a number after it.
pub fn say(what: &[u8], n: u64) {
    text(what);
    io::print_decimal(1, n);
}

pub fn refused(refusal: Refusal) {
    say(b" refused ", refusal.number());
}

// The CRC-32 of some bytes, as a number: that of a frame over its first byte and the rest.
pub fn sum(s: &[u8]) -> u64 {
    match s {
        [] => 0,
        [first, rest @ ..] => u64::from(crc32_fold::checksum(*first, rest)),
    }
}

pub fn say_crc(what: &[u8], s: &[u8]) {
    text(what);
    io::print_hex(1, sum(s), 8);
}

// The length and the CRC-32 of some bytes.
pub fn say_bytes(what: &[u8], s: &[u8]) {
    say(what, s.len() as u64);
    say_crc(b" ", s);
}

// Those of a part.
// Kept: no plainer: places, here, in `say_record` and `say_head`, as the library tells them; nothing is printed of one that does not lie inside.
pub fn say_part(what: &[u8], s: &[u8], start: usize, len: usize) {
    let part = s.get(start..).and_then(|rest| rest.get(..len));
    if let Some(part) = part {
        say_bytes(what, part);
    }
}

// A record: its position, length and CRC-32.
pub fn say_record(s: &[u8], position: u64, start: usize, len: usize) {
    say(b" record ", position);
    say_part(b" ", s, start, len);
}

// The bytes written: both counts, frame bytes + padding bytes, or their sum.
fn say_written(what: &[u8], done: Called, both: bool) {
    if both {
        say(what, done.frame_bytes as u64);
        say(b" + ", done.padding_bytes as u64);
    } else {
        say(
            what,
            done.frame_bytes.wrapping_add(done.padding_bytes) as u64,
        );
    }
}

// What a call did: first what it says beside the bytes written, then these. Of an empty append they are said only where both counts are asked for.
fn say_done(write: Write, done: Called, both: bool) {
    let what: &[u8] = match (write, done.last) {
        (Write::Create, _) => b" created ",
        (Write::Delete, _) => b" deleted ",
        (Write::Mark, _) => b" marked ",
        (Write::Truncate, _) => {
            say(b" evicted ", done.evicted as u64);
            b" bytes "
        }
        (Write::Append, Some(position)) => {
            say(b" last ", position);
            b" bytes "
        }
        (Write::Append, None) => {
            text(b" empty");
            if !both {
                return;
            }
            b" "
        }
    };
    say_written(what, done, both);
}

// What a call answered.
pub fn called(write: Write, answer: Result<Called, Refusal>, both: bool) {
    match answer {
        Ok(done) => say_done(write, done, both),
        Err(refusal) => refused(refusal),
    }
}

pub fn replayed(answer: Result<Replayed, Refusal>, queues: u64) {
    match answer {
        Ok(Replayed { lost, resumed, .. }) => {
            say(b" lost ", lost);
            say(b" resumed ", resumed as u64);
        }
        Err(refusal) => refused(refusal),
    }
    say(b" queues ", queues);
}
