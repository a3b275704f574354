// Commands in words and decimals, one a line, for the programs that run the calls. What they answer goes to standard output as text.
//
// Words stand one space apart. NAME and BYTES are words: `-` is none, `0x80ff` is in hex, anything else is as it stands, and `ab*5` is ababa, five
// bytes in all. A number is decimal, after the word that says what it is; bytes that are no digits are passed over. The commands:
//
//   lend [log N] [scratch N] [names N] [payload_bytes N] [entries N] [numbers N] [table N]
//                         how many bytes of each memory are lent from here on, all where none is named; any other command may say it for itself
//   start                 a zero log, no queues, write position 0
//   create NAME, delete NAME, truncate NAME through P, append NAME payloads N bytes N [sum N] [even] [seed N] [at P]
//                         the answer, with the sum of the two counts of bytes; with the word `counts` both of them, frame bytes + padding bytes; with the word
//                         `same` at the end also whether all that is lent is left as it was
//   mark shift N clock N  the same of a mark, which names no queue
//   positions NAME, first NAME [after P], ranges NAME from P to P, largest NAME, first_block, blocks, queues
//                         questions: the first record of a queue; that of nine ranges; its largest payload; the lowest block that a record held has; the
//                         block of each, as the record table has it; all queues with their records
//   replay, reopen, reads   replay; replay and all queues; all reads up to the end of the log. Writing goes on where a replay resumes
//   copy                  a copy of what is held, its replay into other memory, and the blocks there
//   stain, move at N, keep number N at N, soil, block number N at N, set queues N
//                         the scratch filled with aa hex; the write position; one number of the further table; that table filled with aa hex; the block
//                         of one entry of the record table; the number of queues in the table
//   xor at N by N, cut at N, put BYTES at N, fill bytes N at N seed N
//                         the log changed: one byte; zeros from there on; bytes; a run of bytes
//   place, held, scratch, log   the write position; queues and name bytes held; whether the scratch is zero; CRC-32 of the log
//   case TEXT, line TEXT, expect TEXT   the text printed: with a colon; as a line; after a bar, what the case should answer
//
// A run of bytes from a seed x: for each byte x becomes (1,103,515,245 x + 12,345) mod 2^31, and the byte is x / 65,536 mod 256. An append's payloads are
// such a run, end to end. The first payload has all bytes and the others none; with `even` n payloads of b bytes have b / n each, and the first b mod n one
// more. With `sum` the lengths are those of this many bytes, whatever the run has.
#![tactic(auto)]

mod answers;
mod bytes;
mod changes;
mod command;
mod line;
mod lines;
mod memory;
mod questions;
mod reads;
mod writes;

pub use lines::run;
