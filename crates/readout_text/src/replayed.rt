// Replay of a log, its marks, and the listing of the queues that it leaves.
ghost use Rattle.std.specs.Prelude.{◌≡◌, false, ◌≤◌, length};
ghost use Rattle.calls.specs.Refusals.{log_refused};
ghost use Rattle.lent.specs.Memory.{memory_of, SameMemory};
ghost use Rattle.readout_text.specs.Kept.{CardKept};

use lent::QueueMemory;
use listing::{Text, list, refused};
use queues::RecordEntry;
use replay::replay;
use shift_lines::put_shifts;

// The text for a log of 1 to 4,096 blocks; where replay is refused, the refusal's. The further table is as long as the record table.
pub fn list_replayed(
    input: &[u8],
    scratch: &mut [u8],
    memory: &mut QueueMemory<'_, RecordEntry, u64>,
    out: &mut [u8],
) -> Option<usize>
    requires { (log_refused input.now ≡ false) × (length memory.old.entries.now ≤ length memory.old.largest.now) }
    ensures same { SameMemory memory.old memory.new }
    ensures kept { CardKept
        input.now
        scratch.old
        (memory_of memory.old)
        memory.old.largest.now
        out.old
        result
        scratch.new
        (memory_of memory.new)
        memory.new.largest.now
        out.new }
{
    match replay(input, scratch, memory) {
        Ok(replayed) => {
            let mut text = Text { out, at: 0 };
            put_shifts(input, scratch, &mut text);
            let held = memory.held();
            let lost = replayed.lost_bytes as u64;
            list(held, lost, replayed.resumed, input.len(), &mut text)
        }
        Err(refusal) => refused(out, refusal.number()),
    }
}
