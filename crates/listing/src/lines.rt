// The lines of the listing.
ghost use Rattle.std.specs.Prelude.{◌≡◌, ◌+◌, ◌<◌, ◌^◌, ◌*◌};
ghost use Rattle.listing.specs.Internal.{SameOut, Puts};
ghost use Rattle.listing.specs.Listing.{numbered, number_line, head_line, record_line, fill_line, fill_tenths, half_even};
ghost use Rattle.listing.specs.Claims.{LogFits};
ghost use Rattle.record.specs.Record.{item};

use crate::Text;
use frame::Reader;

impl<'a> Text<'a> {
    // A word and a number.
    pub fn put_numbered(&mut self, word: &[u8], n: u64)
        ensures same { SameOut self.old self.new }
        ensures puts { Puts self.old (numbered word.now n) self.new }
    {
        self.put_bytes(word);
        self.put_decimal(n);
    }

    pub fn put_number_line(&mut self, word: &[u8], n: u64)
        ensures same { SameOut self.old self.new }
        ensures puts { Puts self.old (number_line word.now n) self.new }
    {
        self.put_numbered(word, n);
        self.put_byte(b'\n');
    }

    // A queue's name, start, next position and number of records.
    pub fn put_head(&mut self, name: &[u8], start: u64, next: u64, held: u64)
        ensures same { SameOut self.old self.new }
        ensures puts { Puts self.old (head_line name.now start next held) self.new }
    {
        self.put_bytes(b"queue ");
        self.put_hex(name);
        self.put_numbered(b" start ", start);
        self.put_numbered(b" next ", next);
        self.put_number_line(b" held ", held);
    }

    // A record's position and payload.
    pub fn put_record(&mut self, position: u64, payload: &[u8])
        ensures same { SameOut self.old self.new }
        ensures puts { Puts self.old (record_line (item position payload.now)) self.new }
    {
        self.put_numbered(b"record ", position);
        self.put_byte(b' ');
        self.put_hex(payload);
        self.put_byte(b'\n');
    }

    pub fn put_fill(&mut self, tenths: u64)
        ensures same { SameOut self.old self.new }
        ensures puts { Puts self.old (fill_line tenths) self.new }
    {
        self.put_numbered(b"fill ", tenths / 10);
        self.put_number_line(b".", tenths % 10);
    }
}

// a / b to the nearest whole number, at an exact half the even one.
fn half_even(a: u64, b: u64) -> u64
    requires { (0 < b) × (2 * a + 2 * b < 2 ^ 64) }
    ensures { result ≡ half_even a b }
{
    let whole = a / b;
    let twice = 2 * (a % b);
    if twice < b {
        return whole;
    }
    if b < twice {
        return whole + 1;
    }
    whole + whole % 2
}

// The bytes before the resume point, in tenths of a percent of the log's whole blocks.
// Kept: no plainer: `LogFits`, here, in `list` and in `end_lines`: a struct of the two numbers is made in one place, in readout_text, and taken apart in one,
// here.
pub fn fill_tenths(resumed: usize, log_bytes: usize) -> u64
    requires { LogFits resumed log_bytes }
    ensures { result ≡ fill_tenths resumed log_bytes }
{
    let whole = log_bytes / Reader::BLOCK_NUM_BYTES * Reader::BLOCK_NUM_BYTES;
    half_even(1000 * (resumed as u64), whole as u64)
}
