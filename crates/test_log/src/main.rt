// The unstarred edges of frames and the record log, on real logs in memory. Each line prints what came, and after the bar
// what should come; `log_text` says how.
#![tactic(auto)]

use test_log_text::{DataLog, count_up, number, read_into, text};

// One byte of the log changed.
fn set(log: &mut [u8], at: usize, b: u8) {
    if let Some(byte) = log.get_mut(at) {
        *byte = b;
    }
}

fn read_all(written: &DataLog<'_, '_>) {
    let mut scratch = [0u8; 70000];
    written.read(&mut scratch);
}

// Records in two blocks: 5 bytes and 32,749 fill the first, 7 follow in the second.
fn two_blocks(written: &mut DataLog<'_, '_>) {
    written.clear();
    written.put(0, 5);
    written.put(12, 32749);
    written.put(32768, 7);
}

fn wrong_checksum(written: &mut DataLog<'_, '_>) {
    two_blocks(written);
    text(b"whole log:");
    read_all(written);
    text(b" | r5 r32749 r7 E\nwrong checksum:");
    set(written.log, 0, 0);
    read_all(written);
    text(b" | C r32749 r7 E\n");
}

fn lost_blocks(written: &mut DataLog<'_, '_>) {
    two_blocks(written);
    set(written.log, 6, 5);
    text(b"unknown type:");
    read_all(written);
    text(b" | T r7 E\npast the block:");
    set(written.log, 6, 1);
    set(written.log, 5, 128);
    read_all(written);
    text(b" | P r7 E\n");
}

// A record over three blocks: First of 32,654 bytes, Middle of 32,761, Last of 4,585.
fn three_blocks(written: &mut DataLog<'_, '_>) {
    written.clear();
    written.put(0, 100);
    written.put(107, 70000);
    written.put(70128, 10);
}

fn long_records(written: &mut DataLog<'_, '_>) {
    three_blocks(written);
    text(b"over three blocks:");
    read_all(written);
    text(b" | r100 r70000 r10 E\nits First hit, Middle and Last passed over:");
    set(written.log, 200, 9);
    read_all(written);
    text(b" | r100 C r10 E\n");
}

// Three blocks filled to the last byte. 65,523 bytes at 32,768 are one too many, and at the end not even an empty record fits.
fn full(written: &mut DataLog<'_, '_>) {
    written.clear();
    text(b"filled to the last byte:");
    written.put(0, 32761);
    written.put(32768, 65523);
    written.put(32768, 65522);
    written.put(98304, 0);
    read_all(written);
    text(b" | 13 13 r32761 r65522 E\n");
}

fn long_for_scratch(written: &mut DataLog<'_, '_>) {
    written.clear();
    written.put(0, 20);
    written.put(27, 21);
    text(b"longer than a scratch of 20:");
    let mut scratch = [0u8; 20];
    written.read(&mut scratch);
    text(b" | r20 X\n");
}

fn zeros_before_a_block(written: &mut DataLog<'_, '_>) {
    written.clear();
    written.put(0, 5);
    written.put(32768, 7);
    text(b"seven zeros, though blocks follow:");
    read_all(written);
    text(b" | r5 E\n");
}

// Empty records, one after the other. Answers the place after them.
fn put_empty(written: &mut DataLog<'_, '_>, n: usize) -> usize {
    (0..n).fold(0, |place, _| written.put(place, 0))
}

fn most_frames_in(written: &mut DataLog<'_, '_>) {
    text(b"frames of no data in one block: place ");
    number(put_empty(written, 4681));
    written.put(32767, 0);
    text(b" answers ");
    let mut scratch = [0u8; 8];
    let all = read_into(written.log, &mut scratch, None);
    number(all.count);
    text(b" | place 32767 13 answers 4681\n");
}

fn most_frames(data: &[u8]) {
    let mut log = [0u8; 32768];
    most_frames_in(&mut DataLog {
        log: &mut log,
        data,
    });
}

fn show_tail(log: &[u8]) {
    let tail = log.get(32768..);
    if tail.is_some_and(|tail| tail.iter().all(|byte| *byte == 170)) {
        text(b" tail kept");
    }
}

// One block filled by a record, and a tail of 100 bytes. A second record does not go into the tail.
fn tail_in(written: &mut DataLog<'_, '_>) {
    text(b"a tail of 100 bytes:");
    written.put(0, 32761);
    written.put(32768, 5);
    read_all(written);
    show_tail(written.log);
    text(b" | 13 r32761 E tail kept\n");
}

fn tail(data: &[u8]) {
    let mut log = [170u8; 32868];
    log[..32768].fill(0);
    tail_in(&mut DataLog {
        log: &mut log,
        data,
    });
}

// Records of 12 bytes with 8, 7, 6, 1 and 0 bytes left in the block.
fn two_counts(written: &mut DataLog<'_, '_>) {
    text(b"frame bytes + padding bytes:");
    for place in [32760, 32761, 32762, 32767, 32768] {
        written.put_counted(place, 12);
    }
    text(b" | 26+0 26+0 19+6 19+1 19+0\n");
}

// Empty ones with 7 and 6 bytes left; 32,781 bytes with 7 left: First of 0, Middle of 32,761, Last of 20. The last record has no room.
fn other_counts(written: &mut DataLog<'_, '_>) {
    text(b"empty, over three blocks, without room:");
    written.put_counted(32761, 0);
    written.put_counted(32762, 0);
    written.put_counted(32761, 32781);
    written.put_counted(98298, 0);
    text(b" | 7+0 7+6 32802+0 13\n");
}

fn counts(written: &mut DataLog<'_, '_>) {
    written.clear();
    two_counts(written);
    other_counts(written);
}

fn three_whole_blocks(written: &mut DataLog<'_, '_>) {
    wrong_checksum(written);
    lost_blocks(written);
    long_records(written);
    full(written);
    long_for_scratch(written);
    zeros_before_a_block(written);
    counts(written);
}

fn main() {
    let mut data = [0u8; 70000];
    count_up(&mut data);
    three_whole_blocks(&mut DataLog {
        log: &mut [0u8; 98304],
        data: &data,
    });
    tail(&data);
    most_frames(&data);
}
