// What reading a log of records gives, as text on standard output. Every record is the first bytes of one run of data.
// Answers: rN a record of N bytes as they were written (rN? where they are others), C a wrong checksum, T an unknown type, P a length past the block,
// X a record longer than the scratch, E end of log; 13 where the log had no room.
#![tactic(auto)]

use frame::{Corruption, Reader};
use recordlog::{RecordAnswer, RecordWrite};

// How many records and corruptions there were, and where the reader was left.
#[derive(Clone, Copy)]
pub struct AllRead {
    pub count: usize,
    pub reader: Reader,
}

// Kept: no plainer: these functions can't fail, and with `print!` each of them takes the runtime and answers a result, and so does each one that calls them.
// One with test_commands takes a crate for the one line.
pub fn text(s: &[u8]) {
    io::write_all(1, s);
}

pub fn number(n: usize) {
    io::print_decimal(1, n as u64);
}

// The data: 1, 2, .. 250, 0, and again from the start.
pub fn count_up(s: &mut [u8]) {
    for (i, byte) in s.iter_mut().enumerate() {
        *byte = ((i % 251 + 1) % 251) as u8;
    }
}

// A log, and the data: each of its records is the first bytes of them.
#[derive(Drop)]
pub struct DataLog<'a, 'd> {
    pub log: &'a mut [u8],
    pub data: &'d [u8],
}

impl DataLog<'_, '_> {
    pub fn clear(&mut self) {
        self.log.fill(0);
    }

    // A record of the first n bytes of the data at a place; there is none where the data are shorter.
    fn write(&mut self, place: usize, n: usize) -> Option<RecordWrite> {
        let record = self.data.get(..n)?;
        recordlog::write_record(self.log, place, record)
    }

    // The same. Answers the place after it; where there is no room, 13 is printed and the place stays.
    pub fn put(&mut self, place: usize, n: usize) -> usize {
        match self.write(place, n) {
            Some(written) => written.next,
            None => {
                text(b" 13");
                place
            }
        }
    }

    // The same, with the two counts printed: frame bytes + padding bytes.
    pub fn put_counted(&mut self, place: usize, n: usize) {
        match self.write(place, n) {
            Some(written) => {
                text(b" ");
                number(written.frame_bytes);
                text(b"+");
                number(written.padding_bytes);
            }
            None => text(b" 13"),
        }
    }

    // All answers of a fresh reader, printed.
    pub fn read(&self, scratch: &mut [u8]) -> AllRead {
        read_into(self.log, scratch, Some(self.data))
    }
}

fn show_record(scratch: &[u8], data: &[u8], len: usize) {
    text(b" r");
    number(len);
    match (scratch.get(..len), data.get(..len)) {
        (Some(read), Some(written)) if read == written => {}
        _ => text(b"?"),
    }
}

fn show(answer: RecordAnswer, scratch: &[u8], data: &[u8]) {
    match answer {
        RecordAnswer::Record(len) => show_record(scratch, data, len),
        RecordAnswer::Corruption(Corruption::WrongChecksum) => text(b" C"),
        RecordAnswer::Corruption(Corruption::UnknownType) => text(b" T"),
        RecordAnswer::Corruption(Corruption::PastBlock) => text(b" P"),
        RecordAnswer::EndOfLog => text(b" E"),
        RecordAnswer::TooLong => text(b" X"),
    }
}

// All answers of the fresh reader, printed where there are the data that were written.
pub fn read_into(log: &[u8], scratch: &mut [u8], written: Option<&[u8]>) -> AllRead {
    let mut reader = Reader::new();
    if log.len() < Reader::BLOCK_NUM_BYTES {
        return AllRead { count: 0, reader };
    }
    for count in 0..20000 {
        let read = recordlog::next_record(log, scratch, reader);
        reader = read.reader;
        let answer = read.answer;
        if let Some(data) = written {
            show(answer, scratch, data);
        }
        if matches!(answer, RecordAnswer::EndOfLog | RecordAnswer::TooLong) {
            return AllRead { count, reader };
        }
    }
    AllRead {
        count: 20000,
        reader,
    }
}

// The place of a reader, where a writer resumes.
pub fn resume(reader: Reader) -> usize {
    if reader.block < 4096 && reader.cursor <= Reader::BLOCK_NUM_BYTES {
        reader.block * Reader::BLOCK_NUM_BYTES + reader.cursor
    } else {
        0
    }
}
