// The exported entries, for C and Rust: include/mrecordlog.h says what each does. The lent tables are bytes of any length, and answers are numbers.
#![tactic(auto)]

mod answers;
mod box_report;
mod byte_planes;
mod checksum;
mod questions;
mod reading;
mod writes;

// Kept: the C interface gives refusals, kinds and flags as numbers, so the three structs here hold numbers.
// What a call that writes tells: the refusal's number or 0, whether there is a last position and which, the records evicted, and the bytes written, those of
// the frames and those of the padding.
#[derive(Clone, Copy)]
pub struct CallTold {
    pub refusal: u64,
    pub has_last: u64,
    pub last: u64,
    pub evicted: u64,
    pub frame_bytes: u64,
    pub padding_bytes: u64,
}

// What a read tells: the refusal's number or 0, the kind of its answer, and a record's position and places in the scratch.
#[derive(Clone, Copy)]
pub struct ReadTold {
    pub refusal: u64,
    pub kind: u64,
    pub position: u64,
    pub name_start: usize,
    pub name_len: usize,
    pub items_start: usize,
    pub items_len: usize,
}

// The reader as numbers.
#[derive(Clone, Copy)]
pub struct ReaderNumbers {
    pub block: usize,
    pub cursor: usize,
    pub spoilt: u64,
}
