// The call, the questions, the copy and replay with all tables lent as bytes of any length. docs/LAYOUT.md says how the tables stand in them.
#![tactic(auto)]

mod bytes;
mod copying;
mod questions;
mod replaying;
mod writing;

pub use copying::copy;
pub use questions::{first_block, question};
pub use replaying::replay;
pub use writing::call;
