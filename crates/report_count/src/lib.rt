// A log's frames counted: the table of counts, an array of arrays, is passed by value through the step that counts one frame.
#![tactic(auto)]

ghost use Rattle.std.specs.Prelude.{◌≡◌, ◌+◌, ◌≤◌, ◌<◌, [], length, get_or, set};
ghost use Rattle.frame.specs.Block.{blocks};
ghost use Rattle.report_frames.specs.Seen.{frames_read};
ghost use Rattle.report_frames.specs.Tally.{row_of, tally};
ghost use Rattle.report_count.specs.Sums.{plus};
ghost use Rattle.report_count.specs.Table.{counted, count_seen, count_others, table_of, others_of, numbers_of};
ghost use Rattle.report_count.specs.Table.{CellsFit, OthersFit, NumbersFit};

use frame::{FrameType, Reader};
use report_frames::{Seen, Sight, see};

// Beside the table: unreadable headers, over-long frames, bytes of data in sound frames.
#[derive(Clone, Copy)]
pub struct Others {
    pub unreadable: u64,
    pub over_long: u64,
    pub data: u64,
}

// One more at a row and a place in it.
fn count_at(table: [[u64; 2]; 4], k: usize, j: usize) -> [[u64; 2]; 4]
    requires { (k < 4) × (j < 2) × (get_or (get_or table k []) j 0 < 18446744073709551615) }
    ensures { result ≡ set table k (set (get_or table k []) j (get_or (get_or table k []) j 0 + 1)) }
{
    let mut t = table;
    t[k][j] += 1;
    t
}

// One frame more of a row.
// Kept: no plainer: `CellsFit` is no invariant of the table, since a count may end it: each turn has it anew from the log's length.
fn count_row(table: [[u64; 2]; 4], k: usize, right: bool) -> [[u64; 2]; 4]
    requires { (k < 4) × CellsFit table }
    ensures { result ≡ counted table k right }
{
    if right {
        count_at(table, k, 0)
    } else {
        count_at(table, k, 1)
    }
}

// One frame more of this type. The rows are constants, so that the table stays in registers.
fn count(table: [[u64; 2]; 4], kind: FrameType, right: bool) -> [[u64; 2]; 4]
    requires { CellsFit table }
    ensures { result ≡ counted table (row_of kind) right }
{
    match kind {
        FrameType::Full => count_row(table, 0, right),
        FrameType::First => count_row(table, 1, right),
        FrameType::Middle => count_row(table, 2, right),
        FrameType::Last => count_row(table, 3, right),
    }
}

// The table after a frame.
#[tactic(auto, unfolding(crate::specs::Table::count_seen))]
fn count_seen(table: [[u64; 2]; 4], seen: Seen) -> [[u64; 2]; 4]
    requires { CellsFit table }
    ensures { result ≡ count_seen table seen }
{
    match seen {
        Seen::Right { kind, len: _ } => count(table, kind, true),
        Seen::Wrong(kind) => count(table, kind, false),
        Seen::Unreadable | Seen::OverLong => table,
    }
}

// The other counts after a frame.
#[tactic(auto, unfolding(crate::specs::Table::count_others))]
fn count_others(others: Others, seen: Seen) -> Others
    requires { OthersFit others seen }
    ensures { result ≡ count_others others seen }
{
    match seen {
        Seen::Right { kind: _, len } => Others {
            data: others.data + len as u64,
            ..others
        },
        Seen::Wrong(_) => others,
        Seen::Unreadable => Others {
            unreadable: others.unreadable + 1,
            ..others
        },
        Seen::OverLong => Others {
            over_long: others.over_long + 1,
            ..others
        },
    }
}

// The table that the numbers hold.
#[tactic(auto, unfolding(crate::specs::Table::table_of))]
fn table_of(numbers: &[u64; 12]) -> [[u64; 2]; 4]
    ensures { result ≡ table_of numbers.now }
{
    [
        [numbers[1], numbers[2]],
        [numbers[3], numbers[4]],
        [numbers[5], numbers[6]],
        [numbers[7], numbers[8]],
    ]
}

// The other counts that they hold.
#[tactic(auto, unfolding(crate::specs::Table::others_of))]
fn others_of(numbers: &[u64; 12]) -> Others
    ensures { result ≡ others_of numbers.now }
{
    Others {
        unreadable: numbers[9],
        over_long: numbers[10],
        data: numbers[11],
    }
}

#[tactic(auto, unfolding(crate::specs::Table::numbers_of, crate::specs::Table::cell))]
fn numbers_of(logs: u64, table: [[u64; 2]; 4], others: Others) -> [u64; 12]
    ensures { result ≡ numbers_of logs table others }
{
    [
        logs,
        table[0][0],
        table[0][1],
        table[1][0],
        table[1][1],
        table[2][0],
        table[2][1],
        table[3][0],
        table[3][1],
        others.unreadable,
        others.over_long,
        others.data,
    ]
}

// The numbers of a report after this log: the loop carries the table and the other counts side by side, up to the first end of log.
pub fn count_log(log: &[u8], numbers: &[u64; 12]) -> [u64; 12]
    requires { (1 ≤ blocks log.now) × NumbersFit numbers.now log.now }
    ensures { result ≡ plus numbers.now (tally (frames_read log.now)) }
{
    let mut table = table_of(numbers);
    let mut others = others_of(numbers);
    let mut reader = Reader::new();
    while let Sight {
        seen: Some(seen),
        reader: left,
    } = see(log, reader)
    {
        // Kept: an array that a call answers goes through a name of its own, since the proof covers no answer laid straight into a variable that is changed.
        let next = count_seen(table, seen);
        table = next;
        others = count_others(others, seen);
        reader = left;
    }
    numbers_of(numbers[0] + 1, table, others)
}
