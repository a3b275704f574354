// Published CRC-32 values, then the edges of UTF-8's grammar.
#![tactic(auto)]

mod edges;
mod sums;

// Kept: no plainer: by the kit's `io` no function here takes the runtime or answers a result, and bytes in hex are a loop and no type with its own `Display`.
const STDOUT: i32 = 1;

fn main() {
    sums::run();
    edges::run_edges();
}
