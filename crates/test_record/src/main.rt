// Runs edge records through `record`, and prints for each its bytes, what was answered and what
// should be: the type, the position, where the name starts and how long it is, and for an append
// each item, with its position, where its payload starts and how long it is, and how the items end.
#![tactic(auto)]

use record::{Mark, MultiPlexedRecord, MultiRecord, RecordType};
use std::fmt;

// Bytes in hex.
#[derive(Clone, Copy)]
struct Hex<'a>(&'a [u8]);

impl fmt::Display for Hex<'_> {
    fn fmt<W: fmt::Write>(&self, f: &mut fmt::Formatter<W>) -> fmt::Result {
        for byte in self.0 {
            write!(f, "{byte:02x}")?;
        }
        Ok(())
    }
}

// Item after item.
fn print_items(rt: &impl Print, s: &[u8], mut left: MultiRecord) {
    while let Ok(Some(item)) = record::next_item(s, left) {
        let _ = print!(rt; " item {} {} {}", item.position, item.start, item.len);
        left = item.rest;
    }
    let end = if record::next_item(s, left).is_ok() {
        " end"
    } else {
        " bad"
    };
    let _ = print!(rt; "{end}");
}

// What it is, its position, and where its name or its body starts and how long it is.
fn print_record(rt: &impl Print, s: &[u8], r: Option<MultiPlexedRecord>) {
    let Some(record) = r else {
        let _ = print!(rt; "none");
        return;
    };
    let _ = match record {
        MultiPlexedRecord::Truncate {
            position,
            name_start,
            name_len,
        } => print!(rt; "truncate {position} {name_start} {name_len}"),
        MultiPlexedRecord::Touch {
            position,
            name_start,
            name_len,
        } => print!(rt; "touch {position} {name_start} {name_len}"),
        MultiPlexedRecord::Delete {
            position,
            name_start,
            name_len,
        } => print!(rt; "delete {position} {name_start} {name_len}"),
        MultiPlexedRecord::Append {
            position,
            name_start,
            name_len,
            items,
        } => {
            let told = print!(rt; "append {position} {name_start} {name_len}");
            print_items(rt, s, items);
            told
        }
        MultiPlexedRecord::Mark {
            position,
            body_start,
        } => print!(rt; "mark {position} {body_start} 8"),
    };
}

// The first len bytes of s.
fn run_first(rt: &impl Print, s: &[u8], len: usize, should: &str) {
    let _ = print!(rt; "{} first {len}: ", Hex(s));
    print_record(rt, s, record::decode(s, len));
    let _ = println!(rt; ", should be {should}");
}

fn run(rt: &impl Print, s: &[u8], should: &str) {
    run_first(rt, s, s.len(), should);
}

// Each length from `from` up to and without `to`.
fn run_lengths(rt: &impl Print, s: &[u8], from: usize, to: usize, should: &str) {
    for len in from..to {
        run_first(rt, s, len, should);
    }
}

// A record of 12 bytes, cut at every length, and asked for more bytes than there are.
fn every_length(rt: &impl Print) {
    let s = b"\x01\x05\0\0\0\0\0\0\0\x01\0a";
    run_lengths(rt, s, 0, 12, "none");
    run_lengths(rt, s, 12, 14, "truncate 5 11 1");
}

// An item's position and length cut at each byte.
fn item_heads(rt: &impl Print) {
    let s = b"\x04\x05\0\0\0\0\0\0\0\x01\0a\x07\0\0\0\0\0\0\0\0\0\0\0";
    run_first(rt, s, 12, "append 5 11 1 end");
    run_lengths(rt, s, 13, 24, "none");
    run_first(rt, s, 24, "append 5 11 1 item 7 24 0 end");
}

// Types 0, 2 to 5 and 255, and positions of eight bytes.
fn types(rt: &impl Print) {
    run(rt, b"\x00\x05\0\0\0\0\0\0\0\x01\0a", "none");
    run(rt, b"\x02\x05\0\0\0\0\0\0\0\x01\0a", "touch 5 11 1");
    run(rt, b"\x03\x05\0\0\0\0\0\0\0\x01\0a", "delete 5 11 1");
    run(rt, b"\x04\x05\0\0\0\0\0\0\0\x01\0a", "append 5 11 1 end");
    run(rt, b"\x05\x05\0\0\0\0\0\0\0\x01\0a", "none");
    run(rt, b"\xff\x05\0\0\0\0\0\0\0\x01\0a", "none");
    run(
        rt,
        b"\x01\xff\xff\xff\xff\xff\xff\xff\xff\x01\0a",
        "truncate 18446744073709551615 11 1",
    );
    run(
        rt,
        b"\x02\x01\x02\x03\x04\x05\x06\x07\x08\0\0",
        "touch 578437695752307201 11 0",
    );
}

// The empty name; a name length one past the end, with its two bytes turned round, and the greatest;
// a name that is not UTF-8, and 01's two names; a body after a truncate, a touch and a delete.
fn names(rt: &impl Print) {
    run(rt, b"\x03\0\0\0\0\0\0\0\0\0\0", "delete 0 11 0");
    run(rt, b"\x01\x05\0\0\0\0\0\0\0\x02\0a", "none");
    run(rt, b"\x01\x05\0\0\0\0\0\0\0\0\x01a", "none");
    run(rt, b"\x01\x05\0\0\0\0\0\0\0\xff\xffa", "none");
    run(rt, b"\x01\x05\0\0\0\0\0\0\0\x01\0\x80", "none");
    run(rt, b"\x01\x05\0\0\0\0\0\0\0\x03\0\xed\xa0\x80", "none");
    run(
        rt,
        b"\x01\x05\0\0\0\0\0\0\0\x04\0\xf4\x8f\xbf\xbf",
        "truncate 5 11 4",
    );
    run(rt, b"\x01\x05\0\0\0\0\0\0\0\x01\0abody", "truncate 5 11 1");
    run(rt, b"\x02\x05\0\0\0\0\0\0\0\x01\0a\xff", "touch 5 11 1");
    run(rt, b"\x03\x05\0\0\0\0\0\0\0\0\0body", "delete 5 11 0");
}

// An item with one byte of payload: its length right, one past the end, one before it, and the
// greatest. Two items, the second without payload; the same with its last byte missing.
fn items(rt: &impl Print) {
    run(
        rt,
        b"\x04\0\0\0\0\0\0\0\0\0\0\x07\0\0\0\0\0\0\0\x01\0\0\0x",
        "append 0 11 0 item 7 23 1 end",
    );
    run(
        rt,
        b"\x04\0\0\0\0\0\0\0\0\0\0\x07\0\0\0\0\0\0\0\x02\0\0\0x",
        "none",
    );
    run(
        rt,
        b"\x04\0\0\0\0\0\0\0\0\0\0\x07\0\0\0\0\0\0\0\0\0\0\0x",
        "none",
    );
    run(
        rt,
        b"\x04\0\0\0\0\0\0\0\0\0\0\x07\0\0\0\0\0\0\0\xff\xff\xff\xffx",
        "none",
    );
    run(
        rt,
        b"\x04\0\0\0\0\0\0\0\0\0\0\x07\0\0\0\0\0\0\0\x03\0\0\0one\xff\xff\xff\xff\xff\xff\xff\xff\0\0\0\0",
        "append 0 11 0 item 7 23 3 item 18446744073709551615 38 0 end",
    );
    run(
        rt,
        b"\x04\0\0\0\0\0\0\0\0\0\0\x07\0\0\0\0\0\0\0\x03\0\0\0one\xff\xff\xff\xff\xff\xff\xff\xff\0\0\0",
        "none",
    );
}

// Marks: a body of 8 bytes, the numbers 0 and 2^64-1; bodies of 7, 9 and no bytes.
fn marks(rt: &impl Print) {
    run(
        rt,
        b"\x05\x07\0\0\0\0\0\0\0\0\0\x01\x02\x03\x04\x05\x06\x07\x08",
        "mark 7 11 8",
    );
    run(
        rt,
        b"\x05\0\0\0\0\0\0\0\0\0\0\0\0\0\0\0\0\0\0",
        "mark 0 11 8",
    );
    run(
        rt,
        b"\x05\xff\xff\xff\xff\xff\xff\xff\xff\0\0\xff\xff\xff\xff\xff\xff\xff\xff",
        "mark 18446744073709551615 11 8",
    );
    run(
        rt,
        b"\x05\x07\0\0\0\0\0\0\0\0\0\x01\x02\x03\x04\x05\x06\x07",
        "none",
    );
    run(
        rt,
        b"\x05\x07\0\0\0\0\0\0\0\0\0\x01\x02\x03\x04\x05\x06\x07\x08\x09",
        "none",
    );
    run(rt, b"\x05\x07\0\0\0\0\0\0\0\0\0", "none");
}

// A mark's type and a name of one byte, with 8 and with 7 bytes after it; types 1 and 6 in the form of a mark.
fn near_marks(rt: &impl Print) {
    run(
        rt,
        b"\x05\x07\0\0\0\0\0\0\0\x01\0a\x01\x02\x03\x04\x05\x06\x07\x08",
        "none",
    );
    run(
        rt,
        b"\x05\x07\0\0\0\0\0\0\0\x01\0a\x01\x02\x03\x04\x05\x06\x07",
        "none",
    );
    run(
        rt,
        b"\x01\x07\0\0\0\0\0\0\0\0\0\x01\x02\x03\x04\x05\x06\x07\x08",
        "truncate 7 11 0",
    );
    run(
        rt,
        b"\x06\x07\0\0\0\0\0\0\0\0\0\x01\x02\x03\x04\x05\x06\x07\x08",
        "none",
    );
}

// Up to where something was written.
#[derive(Clone, Copy)]
struct Written(Option<usize>);

impl fmt::Display for Written {
    fn fmt<W: fmt::Write>(&self, f: &mut fmt::Formatter<W>) -> fmt::Result {
        match self.0 {
            Some(place) => write!(f, "until {place}"),
            None => write!(f, "nothing"),
        }
    }
}

// A mark with the clock reading in little-endian bytes.
fn run_mark(rt: &impl Print, s: &mut [u8], should: &str) {
    let mark = Mark {
        shift: 7,
        clock: 513,
    };
    let written = Written(record::put_mark(s, mark));
    let _ = println!(rt; "mark: {written} {}, should be {should}", Hex(s));
}

// Into bytes of ee hex: one too few, just enough, and one to spare.
fn mark_writes(rt: &impl Print) {
    run_mark(
        rt,
        &mut [0xee; 18],
        "nothing eeeeeeeeeeeeeeeeeeeeeeeeeeeeeeeeeeee",
    );
    run_mark(
        rt,
        &mut [0xee; 19],
        "until 19 05070000000000000000000102000000000000",
    );
    run_mark(
        rt,
        &mut [0xee; 20],
        "until 19 05070000000000000000000102000000000000ee",
    )
}

fn run_step(rt: &impl Print, s: &[u8], start: usize, end: usize, should: &str) {
    let _ = print!(rt; "step {start} {end}: gives");
    print_items(rt, s, MultiRecord { start, end });
    let _ = println!(rt; ", should be gives {should}");
}

// Items asked for at any places.
fn steps(rt: &impl Print) {
    let s = b"\x07\0\0\0\0\0\0\0\x01\0\0\0x";
    run_step(rt, s, 0, 13, "item 7 12 1 end");
    run_step(rt, s, 13, 13, "end");
    for (start, end) in [
        (0, 12),
        (1, 13),
        (13, 14),
        (14, 14),
        (5, 4),
        (0, usize::MAX),
    ] {
        run_step(rt, s, start, end, "bad");
    }
}

// A head, then an item after it.
fn run_write(rt: &impl Print, s: &mut [u8], should: &str) {
    let head = Written(record::put_head(s, RecordType::Append, 5, b"ab"));
    let item = Written(record::put_item(s, 13, 7, b"one"));
    let _ = println!(rt; "write: {head} {item} {}, should be {should}", Hex(s));
}

// Into bytes of ee hex: too few for the head, just enough for it, one too few for the item, just
// enough, and one to spare.
fn writes(rt: &impl Print) {
    run_write(
        rt,
        &mut [0xee; 12],
        "nothing nothing eeeeeeeeeeeeeeeeeeeeeeee",
    );
    run_write(
        rt,
        &mut [0xee; 13],
        "until 13 nothing 04050000000000000002006162",
    );
    run_write(
        rt,
        &mut [0xee; 27],
        "until 13 nothing 04050000000000000002006162eeeeeeeeeeeeeeeeeeeeeeeeeeee",
    );
    run_write(
        rt,
        &mut [0xee; 28],
        "until 13 until 28 040500000000000000020061620700000000000000030000006f6e65",
    );
    run_write(
        rt,
        &mut [0xee; 29],
        "until 13 until 28 040500000000000000020061620700000000000000030000006f6e65ee",
    )
}

// What is answered for a name, items and payloads of such lengths, as a number; 0 stands for too long.
fn lengths(rt: &impl Print) {
    let cases: [(usize, usize, usize, usize); 8] = [
        (0, 0, 0, 11),
        (1, 2, 3, 39),
        (65535, 1024, 134217728, 134295562),
        (18446744073709551604, 0, 0, 18446744073709551615),
        (18446744073709551605, 0, 0, 0),
        (0, 0, 18446744073709551605, 0),
        (0, 1537228672809129300, 0, 18446744073709551611),
        (0, 1537228672809129301, 0, 0),
    ];
    for (name, items, payload, should) in cases {
        let len = record::encoded_len(name, items, payload).unwrap_or(0);
        let _ = println!(rt; "length {name} {items} {payload}: {len}, should be {should}");
    }
}

fn main(rt: HostRuntime) {
    every_length(&rt);
    item_heads(&rt);
    types(&rt);
    names(&rt);
    items(&rt);
    steps(&rt);
    writes(&rt);
    lengths(&rt);
    marks(&rt);
    near_marks(&rt);
    mark_writes(&rt);
}
