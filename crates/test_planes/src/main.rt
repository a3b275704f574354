// Runs the edges of readings by planes, both ways, and prints for each call the width, the lengths of payload and target, the answer's number,
// and the bytes of the target or whether they are as before. examples/planes/make.py works out from document 02's text what it must print.
#![tactic(auto)]

ghost use Rattle.std.specs.Prelude.{◌≡◌, ◌≤◌, length};

use planes::PlanesError;
use std::array;

// Kept: no plainer: with `print!` each function here takes the runtime and answers a result, and bytes in hex have to be a type with its own `Display`.
const STDOUT: i32 = 1;

// Kept: no plainer, here and in test_leaves, where an empty run is printed as a dash: one loop over the kit's `print_hex`; a crate for it is longer than both.
fn print_bytes(s: &[u8]) {
    for byte in s {
        io::print_hex(STDOUT, u64::from(*byte), 2);
    }
}

// Starts a line: what is called.
fn print_call(name: &[u8], width: u64, payload: usize, target: usize) {
    io::write_all(STDOUT, name);
    io::write_all(STDOUT, b" width ");
    io::print_decimal(STDOUT, width);
    io::write_all(STDOUT, b" payload ");
    io::print_decimal(STDOUT, payload as u64);
    io::write_all(STDOUT, b" target ");
    io::print_decimal(STDOUT, target as u64);
    io::write_all(STDOUT, b": ");
}

// Ends a line: the answer's number, 0 where nothing is refused; then the target's bytes, or whether they are as before.
fn print_answer(answer: Result<(), PlanesError>, before: &[u8], target: &[u8]) {
    match answer {
        Ok(()) => {
            io::write_all(STDOUT, b"0 [");
            print_bytes(target);
            io::write_all(STDOUT, b"]\n");
        }
        Err(error) => {
            let kept: &[u8] = if before == target {
                b" as before\n"
            } else {
                b" changed\n"
            };
            io::print_decimal(STDOUT, error.number());
            io::write_all(STDOUT, kept);
        }
    }
}

// Both ways, with a target of this length.
fn run(payload: &[u8], width: u64, target: usize)
    requires { target ≤ 4162 }
{
    let before = [0xeeu8; 4162];
    let mut to = before;
    print_call(b"to_planes", width, payload.len(), target);
    let answer = planes::to_planes(payload, width, &mut to[..target]);
    print_answer(answer, &before[..target], &to[..target]);
    let mut from = before;
    print_call(b"from_planes", width, payload.len(), target);
    let answer = planes::from_planes(payload, width, &mut from[..target]);
    print_answer(answer, &before[..target], &from[..target]);
}

// A target as long as the payload, one longer and one shorter.
fn run_targets(payload: &[u8], width: u64)
    requires { length payload.now ≤ 4161 }
{
    let len = payload.len();
    run(payload, width, len);
    run(payload, width, len + 1);
    if 0 < len {
        run(payload, width, len - 1);
    }
}

// No reading, one, 64 of this many bytes, and one byte over.
fn run_lengths(bytes: &[u8], width: u64, reading: usize)
    requires { (length bytes.now ≡ 4161) × (reading ≤ 65) }
{
    run_targets(&[], width);
    run_targets(&bytes[..reading], width);
    run_targets(&bytes[..64 * reading], width);
    run_targets(&bytes[..64 * reading + 1], width);
}

fn main() {
    // The numbers from 0 on, 251 of them over and over.
    let bytes: [u8; 4161] = array::from_fn(|i| (i % 251) as u8);
    run_lengths(&bytes, 0, 1);
    run_lengths(&bytes, 1, 1);
    run_lengths(&bytes, 2, 2);
    run_lengths(&bytes, 63, 63);
    run_lengths(&bytes, 64, 64);
    run_lengths(&bytes, 65, 65);
    run_lengths(&bytes, u64::MAX, 64);
}
