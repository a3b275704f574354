// Numbers in decimal, and runs of bytes in lower-case hex.
// Kept: no plainer: `write!` through a `Display` says nothing of the buffer where its answer is an `Err`, and a text that does not fit
// is promised as far as it fits.
ghost use Rattle.std.specs.Prelude.{◌≡◌, [], ◌∷◌, ◌<◌};
ghost use Rattle.listing.specs.Internal.{SameOut, Puts};
ghost use Rattle.listing.specs.Digits.{digit, hex_run, hex, decimal};

use crate::Text;

// The digit of a number below 16.
fn digit(d: u8) -> u8
    requires { d < 16 }
    ensures { result ≡ digit d }
{
    if d < 10 { b'0' + d } else { b'a' + (d - 10) }
}

impl<'a> Text<'a> {
    // A number in decimal: the digits before the last one first.
    pub fn put_decimal(&mut self, n: u64)
        ensures same { SameOut self.old self.new }
        ensures puts { Puts self.old (decimal n) self.new }
    {
        if 10 <= n {
            self.put_decimal(n / 10);
        }
        self.put_byte(digit((n % 10) as u8));
    }

    // Two digits for each byte.
    fn put_hex_run(&mut self, bytes: &[u8])
        ensures same { SameOut self.old self.new }
        ensures puts { Puts self.old (hex_run bytes.now) self.new }
    {
        for b in bytes {
            self.put_byte(digit(*b / 16));
            self.put_byte(digit(*b % 16));
        }
    }

    // A run of bytes in hex, or '-' where there are none.
    pub fn put_hex(&mut self, bytes: &[u8])
        ensures same { SameOut self.old self.new }
        ensures puts { Puts self.old (hex bytes.now) self.new }
    {
        if bytes.is_empty() {
            self.put_byte(b'-');
        } else {
            self.put_hex_run(bytes);
        }
    }
}
