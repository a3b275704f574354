// The parts of the listing that stand between passes over the record table.
ghost use Rattle.std.specs.Prelude.{◌≡◌, ◌+◌, ◌≤◌, Option, ℕ, length, take, drop};
ghost use Rattle.queues.specs.Changes.{word_at};
ghost use Rattle.listing.specs.Internal.{SameOut, Puts, Lists, ListsFrom};
ghost use Rattle.listing.specs.Listing.{end_lines, refusal};
ghost use Rattle.listing.specs.Claims.{LogFits};
ghost use Rattle.listing.specs.Passes.{row_line, RowLine, entry_line};

use crate::Text;
use crate::lines::fill_tenths;
use mem_names::table::{name_length, queue_next, queue_start};
use queues::RecordEntry;

impl<'a> Text<'a> {
    // The line of queue k, whose name starts where the names are passed. Answers where the names are passed behind it.
    // Kept: no plainer: `passed`, here, in `entry_line` and in `queue_text`: the definitions of the listing speak of the place in all names and all payloads.
    pub fn row_line(
        &mut self,
        names: &[u8],
        table: &[u64],
        passed: usize,
        k: usize,
        held: usize,
    ) -> usize
        requires { RowLine names.now table.now passed k }
        ensures same { SameOut self.old self.new }
        ensures puts { Puts self.old (row_line names.now table.now passed k held) self.new }
        ensures passed { result ≡ passed + word_at table.now k 0 }
    {
        let end = passed + name_length(table, k);
        let first = queue_start(table, k);
        let next = queue_next(table, k);
        self.put_head(&names[passed..end], first, next, held as u64);
        end
    }

    // The line of an entry that is of this queue; its payload starts where the payloads are passed. Answers where they are passed behind it.
    pub fn entry_line(
        &mut self,
        payloads: &[u8],
        passed: usize,
        e: RecordEntry,
        queue: usize,
    ) -> usize
        requires { passed + e.length ≤ length payloads.now }
        ensures same { SameOut self.old self.new }
        ensures puts { Puts self.old (entry_line queue e (take e.length (drop passed payloads.now))) self.new }
        ensures passed { result ≡ passed + e.length }
    {
        let end = passed + e.length;
        if e.queue == queue {
            self.put_record(e.position, &payloads[passed..end]);
        }
        end
    }

    // The lines after the queues, and the answer for the whole text.
    pub fn end_lines(&mut self, lost: u64, resumed: usize, log_bytes: usize) -> Option<usize>
        requires { LogFits resumed log_bytes }
        ensures same { SameOut self.old self.new }
        ensures lists { ListsFrom
            self.old.out.now self.old.at
            (end_lines lost resumed log_bytes)
            result self.new.out.now }
    {
        self.put_number_line(b"lost ", lost);
        self.put_fill(fill_tenths(resumed, log_bytes));
        self.listed()
    }
}

// The text of a refusal, from the buffer's start on.
// Kept: no plainer: the text has a number in it, and a caller may give that of any crate's refusal; the type of one would take fewer.
pub fn refused(out: &mut [u8], number: u64) -> Option<usize>
    ensures { Lists out.old (refusal number) result out.new }
{
    let mut text = Text { out, at: 0 };
    text.put_number_line(b"refused ", number);
    text.listed()
}
