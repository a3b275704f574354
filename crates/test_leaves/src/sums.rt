// Runs published CRC-32 values through the code and writes each beside what it should be.
use crate::STDOUT;
use std::array;

// A label and a checksum in eight hexadecimal digits.
fn value(label: &[u8], sum: u32) {
    io::write_all(STDOUT, label);
    io::print_hex(STDOUT, sum as u64, 8);
}

// The checksum of a frame whose type byte is the message's first byte.
fn framed(first: u8, rest: &[u8]) {
    value(b", checksum ", crc32_fold::checksum(first, rest));
}

fn line(name: &[u8], message: &[u8], expected: u32) {
    io::write_all(STDOUT, name);
    value(b": should be ", expected);
    value(
        b", update_all ",
        crc32::update_all(0xffff_ffff, message) ^ 0xffff_ffff,
    );
    if let [first, rest @ ..] = message {
        framed(*first, rest);
    }
    io::write_all(STDOUT, b"\n");
}

fn texts() {
    line(b"nothing", b"", 0x0000_0000);
    line(b"a", b"a", 0xe8b7_be43);
    line(b"abc", b"abc", 0x3524_41c2);
    line(b"123456789", b"123456789", 0xcbf4_3926);
    let fox = b"The quick brown fox jumps over the lazy dog";
    line(fox, fox, 0x414f_a339);
}

// The numbers from 0 on, 251 of them over and over.
fn count_up<const N: usize>() -> [u8; N] {
    array::from_fn(|i| (i % 251) as u8)
}

fn runs() {
    line(b"32 bytes of 00", &[0u8; 32], 0x190a_55ad);
    line(b"32 bytes of ff", &[255u8; 32], 0xff6c_ab0b);
    line(b"00 to 1f", &count_up::<32>(), 0x9126_7e8a);
    let long = count_up::<40000>();
    line(b"40000 bytes, 00 to fa over and over", &long, 0x2a7a_a4e7);
}

// All of them.
pub fn run() {
    texts();
    runs();
}
