// The listing of the queue memory: for each queue one pass over the record table to count its records, and one to write them.
ghost use Rattle.std.specs.Prelude.{◌≡◌, true, ◌+◌, eqb, length, count_by};
ghost use Rattle.queues.specs.Layout.{meaning, arranged};
ghost use Rattle.lent.specs.Memory.{memory_held};
ghost use Rattle.queues.specs.Changes.{word_at};
ghost use Rattle.listing.specs.Internal.{SameOut, Puts, ListsFrom};
ghost use Rattle.listing.specs.Listing.{listing};
ghost use Rattle.listing.specs.Claims.{LogFits};
ghost use Rattle.queues.specs.Passes.{EntriesFit, QueueFits};
ghost use Rattle.listing.specs.Passes.{lines_to, queue_text};

use crate::Text;
use lent::HeldMemory;
use mem_names::table::held;
use queues::RecordEntry;

// How many of the entries are of this queue.
fn held_of(entries: &[RecordEntry], queue: usize) -> usize
    ensures { result ≡ count_by (λ e. eqb e.queue queue) entries.now }
{
    entries.iter().filter(|e| e.queue == queue).count()
}

impl<'a> Text<'a> {
    // The lines of those of the entries that are of this queue.
    fn record_lines(&mut self, entries: &[RecordEntry], payloads: &[u8], queue: usize)
        requires { EntriesFit entries.now payloads.now (length entries.now) }
        ensures same { SameOut self.old self.new }
        ensures puts { Puts self.old (lines_to queue entries.now payloads.now (length entries.now)) self.new }
    {
        let mut passed: usize = 0;
        for e in entries {
            passed = self.entry_line(payloads, passed, *e, queue);
        }
    }

    // The lines of queue k, whose name starts where the names are passed, with those of its records among the first entries. Answers where the names are passed
    // behind it.
    // Kept: no plainer: `count`, how many entries are held, beside the memory: the definition `queue_text` speaks of the first ones of all.
    fn queue_text(
        &mut self,
        memory: HeldMemory<'_, '_, RecordEntry, u64>,
        passed: usize,
        count: usize,
        k: usize,
    ) -> usize
        requires { QueueFits memory.names.now memory.payloads.now memory.entries.now memory.table.now count passed k }
        ensures same { SameOut self.old self.new }
        ensures puts { Puts
            self.old
            (queue_text memory.entry.names.now memory.entry.payloads.now memory.entry.entries.now memory.entry.table.now count passed k)
            self.new }
        ensures passed { result ≡ passed + word_at memory.entry.table.now k 0 }
    {
        let entries = &memory.entries[..count];
        let held = held_of(entries, k);
        let end = self.row_line(memory.names, memory.table, passed, k, held);
        self.record_lines(entries, memory.payloads, k);
        end
    }
}

// The listing of a memory that is arranged, behind what the text has.
pub fn list(
    memory: HeldMemory<'_, '_, RecordEntry, u64>,
    lost: u64,
    resumed: usize,
    log_bytes: usize,
    text: &mut Text,
) -> Option<usize>
    requires { (arranged (memory_held memory) ≡ true) × LogFits resumed log_bytes }
    ensures same { SameOut text.old text.new }
    ensures lists { ListsFrom text.old.out.now text.old.at
        (listing (meaning (memory_held memory.entry)) lost resumed log_bytes)
        result text.new.out.now }
{
    let sums = held(memory.table);
    text.put_number_line(b"queues ", sums.queues as u64);
    let mut passed: usize = 0;
    for k in 0..sums.queues {
        passed = text.queue_text(memory, passed, sums.records, k);
    }
    text.end_lines(lost, resumed, log_bytes)
}
