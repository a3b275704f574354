// What the tables lent as bytes hold.
ghost use Rattle.std.specs.Prelude.{◌≡◌, ◌*◌, ◌≤◌, length};
ghost use Rattle.slices.specs.Bytes.{Bytes};
ghost use Rattle.abi_queues.specs.Words.{words_from};
ghost use Rattle.abi_entries.specs.Packing.{entries_used};
ghost use Rattle.abi_largest.specs.Numbers.{read_over};

use lent::HeldMemory;

// That the tables of a memory are bytes.
pub fn below_256(memory: HeldMemory<'_, '_, u8, u8>)
    ensures entries { Bytes memory.entry.entries.now }
    ensures largest { Bytes memory.entry.largest.now }
    ensures table { Bytes memory.entry.table.now }
{
    slices::below_256(memory.entries);
    slices::below_256(memory.largest);
    slices::below_256(memory.table);
}

// The memory with its words, and the numbers of the used entries, read into tables lent beside it.
pub fn with_words<'a>(
    memory: HeldMemory<'a, 'a, u8, u8>,
    numbers: &'a mut [u64],
    words: &'a mut [u64],
) -> HeldMemory<'a, 'a, u8, u64>
    requires { (8 * length numbers.old ≤ length memory.largest.now)
        × (8 * length words.old ≤ length memory.table.now) }
    ensures names { result.names.now ≡ memory.entry.names.now }
    ensures payloads { result.payloads.now ≡ memory.entry.payloads.now }
    ensures entries { result.entries.now ≡ memory.entry.entries.now }
    ensures largest { result.largest.now
        ≡ read_over (entries_used (length numbers.old) result.table.now) memory.entry.largest.now numbers.old }
    ensures table { result.table.now ≡ words_from (length words.old) memory.entry.table.now }
{
    abi_queues::unpack(memory.table, words);
    abi_largest::unpack_used(memory.largest, numbers, words);
    HeldMemory {
        names: memory.names,
        payloads: memory.payloads,
        entries: memory.entries,
        largest: numbers,
        table: words,
    }
}
