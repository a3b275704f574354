// Frames of data of each length at which the copying goes another way, a line for each: the length n; a record of n bytes, a Full frame, with its header; one
// of 2 n bytes over a block's end, First and Last of n bytes each, with both headers; and n bytes copied and then 1,000 more, with the register after each.
// After each of the three stands CRC-32 of the whole log, which was full of hex ee before.
#![tactic(auto)]

ghost use Rattle.std.specs.Prelude.{◌+◌, ◌≤◌, length};

use std::array;

// Kept: no plainer: with `print!` each function here takes the runtime and answers a result, and no line gets shorter by it.
const STDOUT: i32 = 1;

// A checksum or a register in eight hexadecimal digits.
fn sum(label: &[u8], c: u32) {
    io::write_all(STDOUT, label);
    io::print_hex(STDOUT, c as u64, 8);
}

// The seven bytes at a place.
fn header(label: &[u8], log: &[u8], at: usize) {
    io::write_all(STDOUT, label);
    for byte in log.iter().skip(at).take(7) {
        io::print_hex(STDOUT, u64::from(*byte), 2);
    }
}

fn whole(log: &[u8]) {
    sum(b" log ", crc32::update_all(0xffff_ffff, log) ^ 0xffff_ffff);
}

// A record in one frame, at the start of the second block after up to six zeros.
fn full(data: &[u8]) {
    let mut log = [238u8; 65536];
    recordlog::write_record(&mut log, 32768 - data.len() % 7, data);
    header(b" Full ", &log, 32768);
    whole(&log);
}

// A record from a place on that leaves half of it for the second block.
fn split(place: usize, data: &[u8]) {
    let mut log = [238u8; 65536];
    recordlog::write_record(&mut log, place, data);
    header(b" First ", &log, place);
    header(b" Last ", &log, 32768);
    whole(&log);
}

// The first n bytes copied for a frame at place 1 of type 3, and then 1,000 more.
fn parts(data: &[u8], n: usize)
    requires { (n + 1000 ≤ length «data».now) × (n ≤ 32761) }
{
    let mut log = [238u8; 65536];
    let first = crc32_copy::copy_in(&mut log, 1, 3, data, n);
    sum(b" to n ", first);
    let second = crc32_copy::copy_on(&mut log, 1, first, data, n, 1000);
    sum(b" on ", second);
    whole(&log);
}

fn line(data: &[u8], n: usize) {
    io::print_decimal(STDOUT, n as u64);
    io::write_all(STDOUT, b":");
    if n <= 32761 && 65522 <= data.len() {
        full(&data[..n]);
        split(32761 - n, &data[..2 * n]);
        parts(data, n);
    }
    io::write_all(STDOUT, b"\n");
}

fn lines() {
    // The numbers from 0 on, 251 of them over and over.
    let data: [u8; 65522] = array::from_fn(|i| (i % 251) as u8);
    let sizes = [
        0usize, 1, 7, 8, 9, 15, 16, 17, 447, 448, 463, 464, 719, 720, 1748, 1749, 3796, 3797, 32761,
    ];
    for n in sizes {
        line(&data, n);
    }
}

fn main() {
    lines();
}
