// The calls that write.
use crate::answers::{called, text};
use crate::bytes::fill;
use crate::command::Write;
use crate::line::Line;
use crate::memory::Memory;
use multi_record_log::{Called, Mark, Refusal};

// The lengths of payloads that have this many bytes in all: the first has all of them, or, where they are spread evenly, each as many as the next or one more.
fn spread(lens: &mut [u64], bytes: u64, even: bool) {
    let n = lens.len() as u64;
    if !even {
        lens.fill(0);
        if let Some(first) = lens.first_mut() {
            *first = bytes;
        }
    } else if n != 0 {
        let (longer, others) = lens.split_at_mut((bytes % n) as usize);
        longer.fill((bytes / n).wrapping_add(1));
        others.fill(bytes / n);
    }
}

// An append of payloads, at most 98,304 bytes in 1,025 of them; none is made of more.
fn append(memory: &mut Memory<'_>, name: &[u8], line: Line<'_>) -> Option<Result<Called, Refusal>> {
    let mut run = [0u8; 98304];
    let mut lens = [0u64; 1025];
    fill(&mut run, line.number_or_0(b"seed"));
    let payloads = lens.get_mut(..line.number_or_0(b"payloads") as usize)?;
    let bytes = (line.number_or_0(b"bytes") as usize).min(98304);
    spread(
        payloads,
        line.number(b"sum").unwrap_or(bytes as u64),
        line.has(b"even"),
    );
    Some(multi_record_log::append(
        &mut memory.writer,
        &mut memory.queues,
        name,
        line.number_of_word(b"at"),
        &run[..bytes],
        payloads,
    ))
}

fn call(
    memory: &mut Memory<'_>,
    write: Write,
    name: &[u8],
    line: Line<'_>,
) -> Option<Result<Called, Refusal>> {
    let Memory { writer, queues } = memory;
    match write {
        Write::Create => Some(multi_record_log::create(writer, queues, name)),
        Write::Delete => Some(multi_record_log::delete(writer, queues, name)),
        Write::Truncate => {
            let through = line.number_or_0(b"through");
            Some(multi_record_log::truncate(writer, queues, name, through))
        }
        Write::Append => append(memory, name, line),
        Write::Mark => {
            let said = Mark {
                shift: line.number_or_0(b"shift"),
                clock: line.number_or_0(b"clock"),
            };
            Some(multi_record_log::mark(writer, said))
        }
    }
}

// A call, and with the word `same` whether all that is lent is left as it was.
pub fn do_write(memory: &mut Memory<'_>, write: Write, name: &[u8], line: Line<'_>) {
    let before = line.has(b"same").then(|| memory.sums());
    if let Some(answer) = call(memory, write, name, line) {
        called(write, answer, line.has(b"counts"));
    }
    if before.is_some_and(|sums| sums == memory.sums()) {
        text(b" same");
    }
}
