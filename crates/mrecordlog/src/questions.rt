// The questions.
// Kept: the C interface lends the memory in parts, and is told the values of an answer one by one.
ghost use Rattle.std.specs.Prelude.{◌≡◌};
ghost use Rattle.calls.specs.Refused.{numbered};
ghost use Rattle.contracts.specs.Numbers.{positions_numbers, largest_numbers, first_block_numbers};
ghost use Rattle.abi_call.specs.OnBytes.{memory_bytes};
ghost use Rattle.abi_largest.specs.Numbers.{numbers};
ghost use Rattle.abi_tables.specs.Tables.{memory_in};
ghost use Rattle.mrecordlog.specs.Told.{bound_of, range_told, tell_range, positions_told, tell_positions};
ghost use Rattle.mrecordlog.specs.Told.{largest_told, tell_largest, first_block_told, tell_first_block};
ghost use Rattle.mrecordlog.specs.Exported.{RangeExported, PositionsExported, LargestExported, FirstBlockExported};

use multi_record_log::{HeldMemory, QuestionAnswer, Refusal};
use std::ops::Bound;

// An end of a range, by its kind.
// Kept: the C interface gives the kind as a number.
#[tactic(auto, unfolding(crate::specs::Told::bound_of))]
fn bound(kind: u64, position: u64) -> Bound<u64>
    ensures { result ≡ bound_of kind position }
{
    if kind == 1 {
        return Bound::Included(position);
    }
    if kind == 2 {
        return Bound::Excluded(position);
    }
    Bound::Unbounded
}

#[tactic(auto, unfolding(crate::specs::Told::tell_range))]
fn tell_range(
    answer: Result<QuestionAnswer, Refusal>,
    found: &mut u64,
    at: &mut u64,
    from: &mut u64,
    len: &mut u64,
) -> u64
    ensures { range_told result found.new at.new from.new len.new
        ≡ tell_range (numbered answer) }
{
    *found = 0;
    *at = 0;
    *from = 0;
    *len = 0;
    match answer {
        Ok(QuestionAnswer::Record(Some(record))) => {
            *found = 1;
            *at = record.position;
            *from = record.start as u64;
            *len = record.length as u64;
            0
        }
        Ok(QuestionAnswer::Record(None)) => 0,
        Ok(QuestionAnswer::Positions { .. }) => 99,
        Ok(QuestionAnswer::Largest(_)) => 99,
        Err(refusal) => refusal.number(),
    }
}

#[tactic(auto, unfolding(crate::specs::Told::tell_positions, contracts::specs::Numbers::positions_numbers))]
fn tell_positions(
    answer: Result<QuestionAnswer, Refusal>,
    first: &mut u64,
    following: &mut u64,
) -> u64
    ensures { positions_told result first.new following.new ≡ tell_positions (positions_numbers answer) }
{
    *first = 0;
    *following = 0;
    match answer {
        Ok(QuestionAnswer::Positions { start, next }) => {
            *first = start;
            *following = next;
            0
        }
        Ok(QuestionAnswer::Record(_)) => 99,
        Ok(QuestionAnswer::Largest(_)) => 99,
        Err(refusal) => refusal.number(),
    }
}

#[tactic(auto, unfolding(crate::specs::Told::tell_largest, crate::specs::Told::tell_found, contracts::specs::Numbers::largest_numbers))]
fn tell_largest(
    answer: Result<QuestionAnswer, Refusal>,
    found: &mut u64,
    len: &mut u64,
    at: &mut u64,
) -> u64
    ensures { largest_told result found.new len.new at.new ≡ tell_largest (largest_numbers answer) }
{
    *found = 0;
    *len = 0;
    *at = 0;
    match answer {
        Ok(QuestionAnswer::Largest(Some(payload))) => {
            *found = 1;
            *len = payload.length as u64;
            *at = payload.position;
            0
        }
        Ok(QuestionAnswer::Largest(None)) => 0,
        Ok(QuestionAnswer::Positions { .. }) => 99,
        Ok(QuestionAnswer::Record(_)) => 99,
        Err(refusal) => refusal.number(),
    }
}

#[tactic(auto, unfolding(crate::specs::Told::tell_first_block, crate::specs::Told::tell_block, contracts::specs::Numbers::first_block_numbers))]
fn tell_first_block(answer: Result<Option<u64>, Refusal>, found: &mut u64, block: &mut u64) -> u64
    ensures { first_block_told result found.new block.new ≡ tell_first_block (first_block_numbers answer) }
{
    *found = 0;
    *block = 0;
    match answer {
        Ok(Some(lowest)) => {
            *found = 1;
            *block = lowest;
            0
        }
        Ok(None) => 0,
        Err(refusal) => refusal.number(),
    }
}

#[unsafe(no_mangle)]
pub extern "C" fn mrecordlog_range(
    names: &[u8],
    payloads: &[u8],
    entries: &[u8],
    largest: &[u8],
    table: &[u8],
    name: &[u8],
    lower_kind: u64,
    lower: u64,
    upper_kind: u64,
    upper: u64,
    found: &mut u64,
    position: &mut u64,
    start: &mut u64,
    length: &mut u64,
) -> u64
    ensures { RangeExported
        (memory_in (memory_bytes names.now payloads.now entries.now largest.now table.now))
        (numbers largest.now)
        name.now
        (bound_of lower_kind lower)
        (bound_of upper_kind upper)
        (range_told result found.new position.new start.new length.new) }
{
    let memory = HeldMemory {
        names,
        payloads,
        entries,
        largest,
        table,
    };
    let lo = bound(lower_kind, lower);
    let hi = bound(upper_kind, upper);
    let answer = multi_record_log::range(memory, name, lo, hi);
    tell_range(answer, found, position, start, length)
}

#[unsafe(no_mangle)]
pub extern "C" fn mrecordlog_positions(
    names: &[u8],
    payloads: &[u8],
    entries: &[u8],
    largest: &[u8],
    table: &[u8],
    name: &[u8],
    start: &mut u64,
    next: &mut u64,
) -> u64
    ensures { PositionsExported
        (memory_in (memory_bytes names.now payloads.now entries.now largest.now table.now))
        (numbers largest.now)
        name.now
        (positions_told result start.new next.new) }
{
    let memory = HeldMemory {
        names,
        payloads,
        entries,
        largest,
        table,
    };
    let answer = multi_record_log::positions(memory, name);
    tell_positions(answer, start, next)
}

#[unsafe(no_mangle)]
pub extern "C" fn mrecordlog_largest(
    names: &[u8],
    payloads: &[u8],
    entries: &[u8],
    largest: &[u8],
    table: &[u8],
    name: &[u8],
    found: &mut u64,
    length: &mut u64,
    position: &mut u64,
) -> u64
    ensures { LargestExported
        (memory_in (memory_bytes names.now payloads.now entries.now largest.now table.now))
        (numbers largest.now)
        name.now
        (largest_told result found.new length.new position.new) }
{
    let memory = HeldMemory {
        names,
        payloads,
        entries,
        largest,
        table,
    };
    let answer = multi_record_log::largest(memory, name);
    tell_largest(answer, found, length, position)
}

#[unsafe(no_mangle)]
pub extern "C" fn mrecordlog_first_block(
    names: &[u8],
    payloads: &[u8],
    entries: &[u8],
    largest: &[u8],
    table: &[u8],
    found: &mut u64,
    block: &mut u64,
) -> u64
    ensures { FirstBlockExported
        (memory_in (memory_bytes names.now payloads.now entries.now largest.now table.now))
        (numbers largest.now)
        (first_block_told result found.new block.new) }
{
    let memory = HeldMemory {
        names,
        payloads,
        entries,
        largest,
        table,
    };
    let answer = multi_record_log::first_block(memory);
    tell_first_block(answer, found, block)
}
