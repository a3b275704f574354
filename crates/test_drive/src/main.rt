// Drives the inputs that standard input holds, one after the other: the text of each, then the CRC-32 of the log that it leaves, and an empty line.
// An input is stored in parts: how many times a part stands there and its length, two bytes each, the low one first, then its bytes; a part that stands
// there 0 times ends it.
#![tactic(auto)]

use listing::Text;
use std::io::Read;

// A byte more than an input may have at most; the program ends at a stored input that is longer.
const LONGEST: usize = 65537;

// How often a part stands there, and its length.
fn next_head(stdin: &mut impl Read) -> Option<(u16, usize)> {
    let mut head = [0u8; 4];
    stdin.read_exact(&mut head).ok()?;
    let [a, b, c, d] = head;
    Some((
        u16::from_le_bytes([a, b]),
        usize::from(u16::from_le_bytes([c, d])),
    ))
}

// The bytes of a part, as often as it stands there; zeros for those that standard input has no more.
fn put_part(stdin: &mut impl Read, input: &mut Text, times: u16, len: usize) {
    let mut part = [0u8; 65536];
    let Some(part) = part.get_mut(..len) else {
        return;
    };
    let _ = stdin.read_exact(part);
    for _ in 0..times {
        input.put_bytes(part);
    }
}

// The next input, where there is one: its length.
fn next_input(stdin: &mut impl Read, input: &mut [u8]) -> Option<usize> {
    let mut input = Text { out: input, at: 0 };
    for _ in 0..10000 {
        let (times, len) = next_head(stdin)?;
        if times == 0 {
            return input.listed();
        }
        put_part(stdin, &mut input, times, len);
    }
    None
}

// A write that fails is passed over.
fn print(rt: &impl Print, text: &[u8], log: &[u8]) {
    let _ = rt.write_all(text);
    let crc = crc32::update_all(0xffff_ffff, log) ^ 0xffff_ffff;
    let _ = println!(rt; "log {crc:08x}\n");
}

fn show(rt: &impl Print, input: &[u8]) {
    let mut log = [0u8; 65536];
    let mut out = [0u8; 247570];
    if let Some(n) = drive_text::drive(input, &mut log, &mut out) {
        print(rt, &out[..n], &log);
    }
}

fn main(rt: HostRuntime) {
    let mut stdin = rt.stdin();
    for _ in 0..1000 {
        let mut room = [0u8; LONGEST];
        let len = next_input(&mut stdin, &mut room);
        let Some(input) = len.and_then(|n| room.get(..n)) else {
            break;
        };
        show(&rt, input);
    }
}
