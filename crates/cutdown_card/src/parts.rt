// Replay and the copy, over lent memory.
ghost use Rattle.std.specs.Prelude.{◌≡◌};
ghost use Rattle.lent.specs.Memory.{SameMemory};
ghost use Rattle.abi_call.specs.OnBytes.{bytes_of};
ghost use Rattle.cutdown_card.specs.Kept.{copied_as, CutIntoKept};

use crate::NotCut;
use multi_record_log::{QueueMemory, Refusal, copy, replay};

// A copy that is not refused fills the target, which is this long.
pub fn written(copied: Result<usize, Refusal>, len: usize) -> Result<usize, NotCut>
    ensures { result ≡ copied_as copied len }
{
    copied?;
    Ok(len)
}

// The queues that the card's records give, copied into the target.
pub fn cut_into(
    card: &[u8],
    scratch: &mut [u8],
    memory: &mut QueueMemory<'_, u8, u8>,
    target: &mut [u8],
) -> Result<usize, NotCut>
    ensures same { SameMemory memory.old memory.new }
    ensures kept { CutIntoKept
        card.now
        scratch.old
        (bytes_of memory.old)
        target.old
        result
        target.new }
{
    replay(card, scratch, memory)?;
    written(copy(target, scratch, memory.held()), target.len())
}
