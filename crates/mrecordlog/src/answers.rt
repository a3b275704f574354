// The arguments and the answers of the calls as numbers.
ghost use Rattle.std.specs.Prelude.{◌≡◌};
ghost use Rattle.calls.specs.Refused.{refused, numbered};
ghost use Rattle.call_decide.specs.Request.{position_of};
ghost use Rattle.contracts.specs.Numbers.{called_numbers};
ghost use Rattle.copy_contracts.specs.Promises.{copy_numbers};
ghost use Rattle.mrecordlog.specs.Told.{position_named, tell_call, replay_told, tell_replay, copy_told};

use crate::CallTold;
use multi_record_log::{Called, Refusal, Replayed};

// The position that an append names.
// Kept: the C interface gives a flag and a position.
#[tactic(auto, unfolding(crate::specs::Told::position_named))]
pub fn at_position(named: u64, position: u64) -> Option<u64>
    ensures { position_of result ≡ position_named named position }
{
    if named == 0 { None } else { Some(position) }
}

impl From<Result<Called, Refusal>> for CallTold {
    ghost from_gives = { λ answer told. told ≡ tell_call (called_numbers answer) };

    #[tactic(auto, unfolding(crate::specs::Told::tell_call, contracts::specs::Numbers::called_numbers))]
    fn from(answer: Result<Called, Refusal>) -> CallTold {
        match answer {
            Ok(called) => CallTold {
                refusal: 0,
                has_last: called.last.is_some() as u64,
                last: called.last.unwrap_or(0),
                evicted: called.evicted as u64,
                frame_bytes: called.frame_bytes as u64,
                padding_bytes: called.padding_bytes as u64,
            },
            Err(refusal) => CallTold {
                refusal: refusal.number(),
                has_last: 0,
                last: 0,
                evicted: 0,
                frame_bytes: 0,
                padding_bytes: 0,
            },
        }
    }
}

// The number of a refusal, 0 where there is none.
// Kept: the C interface gives refusals as numbers. One over all error types takes a trait, and an impl of it for each.
fn number<T: Copy>(answer: Result<T, Refusal>) -> u64
    ensures { result ≡ refused answer }
{
    answer.err().map_or(0, Refusal::number)
}

// Kept: the C interface gives the values of an answer one by one.
#[tactic(auto, unfolding(crate::specs::Told::tell_replay))]
pub fn tell_replay(
    answer: Result<Replayed, Refusal>,
    lost: &mut u64,
    lost_bytes: &mut u64,
    resumed: &mut u64,
) -> u64
    ensures { replay_told result lost.new lost_bytes.new resumed.new ≡ tell_replay (numbered answer) }
{
    let none = Replayed {
        lost: 0,
        lost_bytes: 0,
        resumed: 0,
    };
    let replayed = answer.unwrap_or(none);
    *lost = replayed.lost;
    *lost_bytes = replayed.lost_bytes as u64;
    *resumed = replayed.resumed as u64;
    number(answer)
}

// Kept: the C interface gives the values of an answer one by one.
#[tactic(auto, unfolding(copy_contracts::specs::Promises::copy_numbers))]
pub fn tell_copy(answer: Result<usize, Refusal>, end: &mut u64) -> u64
    ensures { copy_told result end.new ≡ copy_numbers answer }
{
    *end = answer.unwrap_or(0) as u64;
    number(answer)
}
