// The card as 01's "Readout" has it: one or two blocks, and the sizes of the memory.
ghost use Rattle.std.specs.Prelude.{◌≡◌, ◌≤◌, length};
ghost use Rattle.slices.specs.Bytes.{zeros};
ghost use Rattle.listing.specs.Writing.{written, listed};
ghost use Rattle.readout_text.specs.Card.{card_text, sized_text};

use crate::replayed::list_replayed;
use calls::Refusal;
use frame::Reader;
use lent::QueueMemory;
use listing::refused;
use mem_entries::blank;
use slices::clear;

// Two blocks.
const MAX_CARD_LEN: usize = 2 * Reader::BLOCK_NUM_BYTES;

// The text for one or two blocks, in a buffer of zeros.
fn list_sized(input: &[u8], out: &mut [u8]) -> Option<usize>
    requires { (32768 ≤ length input.now)
        × ((length input.now ≤ 65536)
        × (out.old ≡ zeros (length out.old))) }
    ensures { (result ≡ listed (length out.old) (length (sized_text input.now)))
        × (out.new ≡ written (zeros (length out.old)) 0 (sized_text input.now)) }
{
    let mut scratch = [0u8; 65536];
    let mut names = [0u8; 32768];
    let mut payloads = [0u8; 32768];
    let mut entries = [blank(); 1024];
    let mut largest = [0u64; 1024];
    let mut table = [0u64; 196];
    let mut memory = QueueMemory {
        names: &mut names,
        payloads: &mut payloads,
        entries: &mut entries,
        largest: &mut largest,
        table: &mut table,
    };
    list_replayed(input, &mut scratch, &mut memory, out)
}

// What `readout` prints for an input, with zeros after it.
pub fn list_card(input: &[u8], out: &mut [u8]) -> Option<usize>
    ensures { (result ≡ listed (length out.old) (length (card_text input.now)))
        × (out.new ≡ written (zeros (length out.old)) 0 (card_text input.now)) }
{
    clear(out);
    if input.len() < Reader::BLOCK_NUM_BYTES || MAX_CARD_LEN < input.len() {
        return refused(out, Refusal::LogSize.number());
    }
    list_sized(input, out)
}
