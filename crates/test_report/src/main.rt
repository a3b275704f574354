// Feeds logs to a report and asks for the mean, as standard input says, and prints each answer with the report's numbers. An item is its kind, then two
// lengths of three bytes each, the low one first: how long a run of bytes is and how many of its bytes are stored; these follow, and zeros up to its length,
// also where the input ends before they do. Kind 0 is a report to go on with, 1 a log that is fed, any other a question for the mean. A report of more than
// 256 bytes ends the items, and a log of more than 131,072 is passed over. examples/report/make.py works out from the documents' text what is to be printed.
#![tactic(auto)]

use report::MeanLength;

// The longest report and the longest log.
const MAX_REPORT_LEN: usize = 256;

const MAX_LOG_LEN: usize = 131072;

#[derive(Clone, Copy)]
enum Kind {
    Report,
    Log,
    Mean,
}

impl From<u8> for Kind {
    fn from(kind: u8) -> Kind {
        match kind {
            0 => Kind::Report,
            1 => Kind::Log,
            _ => Kind::Mean,
        }
    }
}

// What stands before the stored bytes of an item.
#[derive(Clone, Copy)]
struct Head {
    kind: Kind,
    len: usize,
    stored: usize,
}

// The next item's head, where there is one.
fn next_head() -> Option<Head> {
    let mut head = [0u8; 7];
    if io::read_full(0, &mut head) < 7 {
        return None;
    }
    let [kind, a, b, c, d, e, f] = head;
    Some(Head {
        kind: Kind::from(kind),
        len: u32::from_le_bytes([a, b, c, 0]) as usize,
        stored: u32::from_le_bytes([d, e, f, 0]) as usize,
    })
}

// The run of an item: its stored bytes, where they are no more than the run has, and zeros after them.
// Kept: no plainer by std: a run that is cut off counts as far as it goes, of which `read_exact` tells nothing; the head is read from the same input likewise.
fn read_run(run: &mut [u8], stored: usize) {
    run.fill(0);
    if let Some(bytes) = run.get_mut(..stored) {
        io::read_full(0, bytes);
    }
}

// The whole numbers of 8 bytes. A write that fails is passed over, here and below.
fn print_numbers(rt: &impl Print, held: &[u8]) {
    for number in held.as_chunks::<8>().0 {
        let _ = print!(rt; " {}", u64::from_le_bytes(*number));
    }
    let _ = println!(rt; "");
}

fn print_mean(rt: &impl Print, held: &[u8]) {
    let _ = match report::mean(held) {
        Ok(
            Some(
                MeanLength {
                    whole,
                    remainder,
                    count,
                },
            ),
        ) => println!(rt; "mean {whole} remainder {remainder} over {count}"),
        Ok(None) => println!(rt; "mean none"),
        Err(refusal) => println!(rt; "mean refused {}", refusal.number()),
    };
}

fn print_report(rt: &impl Print, held: &[u8]) {
    let len = held.len();
    let _ = print!(rt; "report of {len}:");
    print_numbers(rt, held);
}

// A log fed to the report.
fn feed(rt: &impl Print, held: &mut [u8], log: &[u8]) {
    let number = report::number(report::feed(held, log));
    let len = log.len();
    let _ = print!(rt; "log of {len}: {number}");
    print_numbers(rt, held);
}

// The log of an item.
fn feed_run(rt: &impl Print, held: &mut [u8], head: Head) {
    let mut room = [0u8; MAX_LOG_LEN];
    let Some(log) = room.get_mut(..head.len) else {
        return;
    };
    read_run(log, head.stored);
    feed(rt, held, log);
}

fn main(rt: HostRuntime) {
    let mut room = [0u8; MAX_REPORT_LEN];
    let mut len = 0;
    for _ in 0..1000 {
        let Some(head) = next_head() else {
            break;
        };
        if let Kind::Report = head.kind {
            len = head.len;
        }
        let Some(held) = room.get_mut(..len) else {
            break;
        };
        match head.kind {
            Kind::Report => {
                read_run(held, head.stored);
                print_report(&rt, held);
            }
            Kind::Log => feed_run(&rt, held, head),
            Kind::Mean => print_mean(&rt, held),
        }
    }
}
