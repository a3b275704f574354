// A stored sample of the Rust's answers: standard input holds lists of commands, as the crate `test_commands` reads them, and the stored output is what
// the Rust answered. `host/run sample` writes both files (host/src/bin/sample.rs).
#![tactic(auto)]

// The first 262,144 bytes of the input, as far as they can be read.
// Kept: no plainer: `test_calls`, `test_blocks` and `test_rust_answers` are one program over three inputs, and a crate has one stdin and one stdout. An array
// and `io`, since a `Vec` could run out of memory.
fn main() {
    let mut list = [0u8; 262144];
    let n = io::read_full(0, &mut list);
    test_commands::run(&list[..n]);
}
