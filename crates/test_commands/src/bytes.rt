// The bytes that a word stands for, and runs of bytes.
ghost use Rattle.std.specs.Prelude.{◌<◌, ◌≤◌, length};

use crate::line::{decimal, split_once};

// Kept: no plainer: `char::to_digit` takes capitals too, which are 0 here.
fn hex_digit(byte: u8) -> u8
    ensures { result < 16 }
{
    match byte {
        b'0'..=b'9' => byte - b'0',
        b'a'..=b'f' => byte - b'a' + 10,
        _ => 0,
    }
}

// Stores bytes at the start of the buffer, as many as it holds, and answers how many.
fn from_hex(digits: &[u8], out: &mut [u8]) -> usize
    ensures { result ≤ length out.old }
{
    let n = (digits.len() / 2).min(out.len());
    for (byte, pair) in out.iter_mut().zip(digits.chunks_exact(2)) {
        if let [high, low] = pair {
            *byte = 16 * hex_digit(*high) + hex_digit(*low);
        }
    }
    n
}

// The same.
fn from_text(text: &[u8], out: &mut [u8]) -> usize
    ensures { result ≤ length out.old }
{
    let n = text.len().min(out.len());
    out[..n].copy_from_slice(&text[..n]);
    n
}

// Stores what a word without a star stands for, as far as the buffer holds it, and answers how many bytes.
fn store(word: &[u8], out: &mut [u8]) -> usize
    ensures { result ≤ length out.old }
{
    match word {
        b"-" => 0,
        [b'0', b'x', digits @ ..] => from_hex(digits, out),
        _ => from_text(word, out),
    }
}

// The first `unit` bytes again and again, up to a place.
fn repeat(out: &mut [u8], unit: usize, end: usize) -> usize
    ensures { result ≤ length out.old }
{
    let end = end.min(out.len());
    for i in unit..end {
        out[i] = out[i - unit];
    }
    end
}

// The bytes that a word stands for, in the buffer.
pub fn bytes_of<'a>(word: &[u8], out: &'a mut [u8]) -> &'a [u8] {
    let (unit, times) = split_once(word, b'*');
    let stored = store(unit, out);
    let n = match times {
        Some(digits) => repeat(out, stored, decimal(digits) as usize),
        None => stored,
    };
    &out[..n]
}

// The run of a seed.
pub fn fill(s: &mut [u8], seed: u64) {
    let mut x = (seed % 2147483648) as u32;
    for byte in s.iter_mut() {
        x = x.wrapping_mul(1103515245).wrapping_add(12345) % 2147483648;
        *byte = (x / 65536 % 256) as u8;
    }
}
