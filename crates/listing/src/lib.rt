// The listing of a card: the text of 01's "Readout" in a lent buffer.
#![tactic(auto)]

mod digits;
mod lines;
mod passes;
mod rows;
mod write;

pub use passes::list;
pub use rows::refused;

// A text in a lent buffer, and the place behind it. A byte that does not fit is dropped, and the place behind it is one past the buffer's end.
#[derive(Drop)]
pub struct Text<'a> {
    pub out: &'a mut [u8],
    pub at: usize,
}
