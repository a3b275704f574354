// The first record of a range, asked on a table of entries: the part of the payload memory that is handed back, in bars, and the answer. The memory has one
// queue, "a", with three records: "hello" at 0, one of no bytes at 1, and "again!" at 5.
#![tactic(auto)]

use mem_entries::blank;
use multi_record_log::entries::{FoundPayload, range};
use multi_record_log::{FoundRecord, HeldMemory, QuestionAnswer, RecordEntry, Refusal};
use std::fmt;
use std::ops::Bound;

// An answer, as it is printed.
#[derive(Clone, Copy)]
struct Told(Result<QuestionAnswer, Refusal>);

impl fmt::Display for Told {
    fn fmt<W: fmt::Write>(&self, f: &mut fmt::Formatter<W>) -> fmt::Result {
        match self.0 {
            Ok(QuestionAnswer::Positions { .. }) => write!(f, "positions"),
            Ok(
                QuestionAnswer::Record(
                    Some(
                        FoundRecord {
                            position,
                            start,
                            length,
                        },
                    ),
                ),
            ) => write!(f, "record {position} at {start} of {length}"),
            Ok(QuestionAnswer::Record(None)) => write!(f, "none"),
            Ok(QuestionAnswer::Largest(_)) => write!(f, "largest"),
            Err(refusal) => write!(f, "refused {}", refusal.number()),
        }
    }
}

// A record of the queue, in block 0 of its log.
fn entry(position: u64, length: usize) -> RecordEntry {
    RecordEntry {
        queue: 0,
        position,
        length,
        block: 0,
    }
}

// The memory is arranged as docs/LAYOUT.md says, and the range asked for. All but the payloads are locals that are lent: the part outlives them.
fn asked<'p>(
    payloads: &'p [u8],
    name: &[u8],
    lower: Bound<u64>,
    upper: Bound<u64>,
) -> FoundPayload<'p> {
    let table: [u64; 7] = [1, 1, 3, 11, 1, 0, 6];
    let records = [entry(0, 5), entry(1, 0), entry(5, 6), blank()];
    let largest: [u64; 4] = [0, 0, 2, 0];
    let memory = HeldMemory {
        names: b"a",
        payloads,
        entries: &records,
        largest: &largest,
        table: &table,
    };
    range(memory, name, lower, upper)
}

// A write that fails is passed over.
fn ask(rt: &impl Print, what: &str, name: &[u8], lower: Bound<u64>, upper: Bound<u64>) {
    let found = asked(b"helloagain!", name, lower, upper);
    let _ = print!(rt; "{what}: |");
    let _ = rt.write_all(found.payload);
    let _ = println!(rt; "| {}", Told(found.answer));
}

fn main(rt: HostRuntime) {
    ask(&rt, "first", b"a", Bound::Unbounded, Bound::Unbounded);
    ask(&rt, "after 0", b"a", Bound::Excluded(0), Bound::Unbounded);
    ask(&rt, "from 2", b"a", Bound::Included(2), Bound::Unbounded);
    ask(&rt, "from 5", b"a", Bound::Included(5), Bound::Unbounded);
    ask(
        &rt,
        "after 0 through 0",
        b"a",
        Bound::Excluded(0),
        Bound::Included(0),
    );
    ask(&rt, "from 6", b"a", Bound::Included(6), Bound::Unbounded);
    ask(&rt, "before 0", b"a", Bound::Unbounded, Bound::Excluded(0));
    ask(&rt, "no queue", b"b", Bound::Unbounded, Bound::Unbounded);
}
