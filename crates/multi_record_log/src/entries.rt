// The same over a record table of entries and a table of queues of words.
pub use call::call;
pub use copy::copy;
pub use question::{FoundPayload, question, range};
pub use replay::replay;
