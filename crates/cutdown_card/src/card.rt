// The card as `readout` takes it: one or two blocks, and the sizes of its memory.
ghost use Rattle.std.specs.Prelude.{◌≡◌};
ghost use Rattle.cutdown_card.specs.Cutdown.{CutKept};
ghost use Rattle.cutdown_card.specs.Kept.{CutSizedKept};

use crate::NotCut;
use crate::parts::cut_into;
use frame::Reader;
use multi_record_log::{QueueMemory, Refusal};

// Two blocks.
const MAX_CARD_LEN: usize = 2 * Reader::BLOCK_NUM_BYTES;

// The card's queues into the target, with `readout`'s memory.
fn cut_sized(card: &[u8], target: &mut [u8]) -> Result<usize, NotCut>
    ensures { CutSizedKept card.now target.old result target.new }
{
    let mut scratch = [0u8; 65536];
    let mut names = [0u8; 32768];
    let mut payloads = [0u8; 32768];
    let mut entries = [0u8; 32768];
    let mut largest = [0u8; 8192];
    let mut table = [0u8; 1568];
    let mut memory = QueueMemory {
        names: &mut names,
        payloads: &mut payloads,
        entries: &mut entries,
        largest: &mut largest,
        table: &mut table,
    };
    cut_into(card, &mut scratch, &mut memory, target)
}

// The fresh card at the start of the buffer; answers its length.
pub fn cut_down(card: &[u8], out: &mut [u8]) -> Result<usize, NotCut>
    ensures { CutKept card.now out.old result out.new }
{
    if card.len() < Reader::BLOCK_NUM_BYTES || MAX_CARD_LEN < card.len() {
        return Err(NotCut::Refused(Refusal::LogSize));
    }
    let len = card.len() / Reader::BLOCK_NUM_BYTES * Reader::BLOCK_NUM_BYTES;
    if out.len() < len {
        return Err(NotCut::NoRoom);
    }
    cut_sized(card, &mut out[..len])
}
