// Power lost during a record (02, Ticket 6): a record is written after another, and from the cut's place on the log is zeros.
// Each line is one cut: its place, all reads, where a writer resumes, and all reads after one more record was written there
// (13 where it does not fit); `log_text` says how. What must be printed is worked out by examples/cuts/make.py.
#![tactic(auto)]

use test_log_text::{DataLog, count_up, number, resume, text};

// The lengths of the record before, of the one that is cut, and of the one written after reopening.
#[derive(Clone, Copy)]
struct Case {
    before: usize,
    len: usize,
    after: usize,
}

impl Case {
    fn new(before: usize, len: usize, after: usize) -> Case {
        Case { before, len, after }
    }

    // The two records, and zeros from a place on.
    fn write_and_cut(self, written: &mut DataLog<'_, '_>, at: usize) {
        written.clear();
        let place = written.put(0, self.before);
        written.put(place, self.len);
        if let Some(rest) = written.log.get_mut(at..) {
            rest.fill(0);
        }
    }

    fn cut(self, written: &mut DataLog<'_, '_>, scratch: &mut [u8], at: usize) {
        number(at);
        text(b":");
        self.write_and_cut(written, at);
        let place = reopen(written, scratch);
        text(b" at ");
        number(place);
        text(b":");
        written.put(place, self.after);
        reopen(written, scratch);
        text(b"\n");
    }

    // Cuts at every place from one to another.
    fn cuts(self, written: &mut DataLog<'_, '_>, scratch: &mut [u8], from: usize, to: usize) {
        for at in from..to {
            self.cut(written, scratch, at);
        }
    }
}

// All reads. Answers where a writer resumes.
fn reopen(written: &DataLog<'_, '_>, scratch: &mut [u8]) -> usize {
    resume(written.read(scratch).reader)
}

// First of 32,654 bytes at 107, Middle of 32,761, Last of 4,585 at 65,536; its end is 70,128.
fn three_frames(written: &mut DataLog<'_, '_>, scratch: &mut [u8]) {
    let case = Case::new(100, 70000, 10);
    text(b"three frames\n");
    case.cuts(written, scratch, 107, 117);
    case.cuts(written, scratch, 32764, 32778);
    case.cuts(written, scratch, 50000, 50001);
    case.cuts(written, scratch, 65532, 65546);
    case.cuts(written, scratch, 70124, 70129);
}

// The data end in these bytes, where they have as many.
fn end_with(data: &mut [u8], last: &[u8]) {
    if last.len() <= data.len() {
        let start = data.len() - last.len();
        data[start..].copy_from_slice(last);
    }
}

// The last ten bytes of the same record are zeros.
fn zeros_missing(log: &mut [u8], scratch: &mut [u8]) {
    let mut data = [0u8; 70000];
    count_up(&mut data);
    end_with(&mut data, &[0; 10]);
    text(b"zeros at its end\n");
    let case = Case::new(100, 70000, 10);
    let mut written = DataLog { log, data: &data };
    case.cuts(&mut written, scratch, 70112, 70129);
}

// The record begins in the first of three blocks with 7 bytes left (First has no data), and with 30 (First has 23).
fn begins_at_an_end(written: &mut DataLog<'_, '_>, scratch: &mut [u8]) {
    let seven = Case::new(32754, 32861, 10);
    text(b"begins with 7 bytes left\n");
    seven.cuts(written, scratch, 32761, 32777);
    seven.cuts(written, scratch, 65533, 65546);
    let thirty = Case::new(32731, 32884, 10);
    text(b"begins with 30 bytes left\n");
    thirty.cuts(written, scratch, 32738, 32777);
    thirty.cuts(written, scratch, 65533, 65546);
}

// With 6 bytes left they are padding, and First has 32,761 bytes; in four blocks.
fn begins_behind_padding(scratch: &mut [u8], data: &[u8]) {
    let mut log = [0u8; 131072];
    let case = Case::new(32755, 65622, 10);
    let mut written = DataLog {
        log: &mut log,
        data,
    };
    text(b"begins with 6 bytes left\n");
    case.cuts(&mut written, scratch, 32762, 32777);
    case.cuts(&mut written, scratch, 65533, 65546);
    case.cuts(&mut written, scratch, 98301, 98314);
}

// The record ends in the last block: cuts around its last header, and near its end.
fn ends(written: &mut DataLog<'_, '_>, scratch: &mut [u8], case: Case, from: usize, to: usize) {
    case.cuts(written, scratch, 65533, 65546);
    case.cuts(written, scratch, from, to);
}

fn ends_at_an_end(written: &mut DataLog<'_, '_>, scratch: &mut [u8]) {
    text(b"leaves 7 bytes\n");
    ends(written, scratch, Case::new(100, 98169, 0), 98293, 98298);
    text(b"leaves 6 bytes\n");
    ends(written, scratch, Case::new(100, 98170, 0), 98294, 98299);
    text(b"leaves 30 bytes\n");
    ends(written, scratch, Case::new(100, 98146, 23), 98270, 98275);
}

// One block: what begins in it with 7, 30 and 6 bytes left.
fn one_block(scratch: &mut [u8], data: &[u8]) {
    let mut log = [0u8; 32768];
    let mut written = DataLog {
        log: &mut log,
        data,
    };
    text(b"one block with 7 bytes left\n");
    Case::new(32754, 0, 0).cuts(&mut written, scratch, 32761, 32769);
    text(b"one block with 30 bytes left\n");
    Case::new(32731, 16, 23).cuts(&mut written, scratch, 32738, 32762);
    text(b"one block with 6 bytes left\n");
    Case::new(32755, 0, 0).cuts(&mut written, scratch, 32762, 32764);
}

// Data that end in five bytes with the checksum of five zeros: cut before them, the record reads as another one.
fn fits_zeros(scratch: &mut [u8], data: &[u8]) {
    let mut log = [0u8; 32768];
    let mut written = DataLog {
        log: &mut log,
        data,
    };
    text(b"ends in 41 06 71 DB 01\n");
    Case::new(60, 70, 10).cuts(&mut written, scratch, 136, 145);
}

fn fitting(scratch: &mut [u8]) {
    let mut data = [0u8; 70];
    count_up(&mut data);
    end_with(&mut data, &[0x41, 0x06, 0x71, 0xdb, 0x01]);
    fits_zeros(scratch, &data);
}

fn three_blocks(written: &mut DataLog<'_, '_>, scratch: &mut [u8]) {
    three_frames(written, scratch);
    zeros_missing(written.log, scratch);
    begins_at_an_end(written, scratch);
    ends_at_an_end(written, scratch);
}

fn other_logs(scratch: &mut [u8], data: &[u8]) {
    begins_behind_padding(scratch, data);
    one_block(scratch, data);
    fitting(scratch);
}

fn main() {
    let mut data = [0u8; 98304];
    count_up(&mut data);
    let mut scratch = [0u8; 98304];
    let mut written = DataLog {
        log: &mut [0u8; 98304],
        data: &data,
    };
    three_blocks(&mut written, &mut scratch);
    other_logs(&mut scratch, &data);
}
