// The block of each record held, and the question for the first of them: commands on standard input, as the crate `test_commands` reads them. Each case prints
// what came, and after the bar what should come; examples/blocks/make.py works both out from the documents' text.
#![tactic(auto)]

// The first 65,536 bytes of the input, as far as they can be read.
// Kept: no plainer: `test_calls`, `test_blocks` and `test_rust_answers` are one program over three inputs, and a crate has one stdin and one stdout. An array
// and `io`, since a `Vec` could run out of memory.
fn main() {
    let mut list = [0u8; 65536];
    let n = io::read_full(0, &mut list);
    test_commands::run(&list[..n]);
}
