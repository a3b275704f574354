// CRC-32 by a table of what a byte adds to the register through the bytes after it, up to 16 bytes a turn. Each contract gives the result outright, by the
// bitwise definition of `crc32`.
//
// A constant array is copied to the stack wherever it is read; a static is lent where it stands.
#![tactic(auto)]

mod table;

ghost use Rattle.std.specs.Prelude.{◌≡◌, ◌++◌, ◌+◌, ◌%◌, ◌≤◌, ◌<◌, length};
ghost use Rattle.std.specs.Int.Bits.{bit_xor};
ghost use Rattle.slices.specs.Bytes.{zeros};
ghost use Rattle.crc32.specs.Crc.{run, bits_of, bits};
ghost use Rattle.crc32.specs.Wide.{Starts, wide_table};

use table::PARTS;

// The wide table, by which 16 bytes go into the register at once: a part of it for each of them.
#[derive(Clone, Copy)]
pub struct PartsTable {
    entries: &'static [u32],
    ghost right: { Starts 4096 entries.now },
}

// The static, which is the list that the bitwise rule gives.
fn parts() -> &'static [u32]
    ensures { result.now ≡ wide_table }
{
    &PARTS
}

// The table that the static is.
pub fn parts_table() -> PartsTable
    ensures { result.entries.now ≡ wide_table }
{
    PartsTable { entries: parts() }
}

impl PartsTable {
    // What the byte b adds, with what the register crc has at its place: through k more bytes, by the entry of part k.
    fn byte_share(self, k: usize, crc: u32, b: u8) -> u32
        requires { k < 16 }
        ensures { result ≡ run (bit_xor crc b % 256) (bits (zeros (k + 1))) }
    {
        let low = ((crc ^ (b as u32)) & 0xff) as usize;
        self.entries[k * 256 + low]
    }

    // The register after the eight bits of one byte, lowest first.
    // Kept: no plainer, here and at `by_ones`, as one with `next` and `by_bytes` of crc32: the byte table has one part, and a turn takes a part for each byte.
    pub fn next(self, crc: u32, b: u8) -> u32
        ensures { result ≡ run crc (bits_of 8 b) }
    {
        self.byte_share(0, crc, b) ^ (crc >> 8)
    }

    // The register after all bytes of a slice: 16 a turn, then eight, and the last ones one by one. The widths are written at the calls, so that each has a
    // loop of its own.
    pub fn by_table(self, crc: u32, data: &[u8]) -> u32
        ensures { result ≡ run crc (bits «data».now) }
    {
        let (front, back) = data.split_at(data.len() / 16 * 16);
        let c = self.by_turns(16, crc, front);
        self.by_turns(8, c, back)
    }

    // All bytes of a slice, `width` a turn by as many parts, and the last ones one by one.
    #[inline(always)]
    fn by_turns(self, width: usize, crc: u32, data: &[u8]) -> u32
        requires { (8 ≤ width) × (width ≤ 16) }
        ensures { result ≡ run crc (bits «data».now) }
    {
        let mut c = crc;
        let mut rest = data;
        while let Some((s, later)) = rest.split_at_checked(width) {
            c = self.several(c, s);
            rest = later;
        }
        self.by_few(c, rest)
    }

    // The register after the bytes of a slice and k zero bytes: each byte by the part that is as far from the end.
    fn bytes_share(self, crc: u32, s: &[u8], k: usize) -> u32
        requires { (4 ≤ length s.now) × (length s.now + k ≤ 16) }
        ensures { result ≡ run crc (bits (s.now ++ zeros k)) }
    {
        let mut r = 0;
        let mut c = crc;
        for (i, b) in s.iter().enumerate() {
            r ^= self.byte_share(s.len() - i - 1 + k, c, *b);
            c >>= 8;
        }
        r
    }

    // The register after a slice's bytes. Only the first four of them meet what is in it: the others need not wait for it, and go first.
    #[inline(always)]
    pub fn several(self, crc: u32, s: &[u8]) -> u32
        requires { (8 ≤ length s.now) × (length s.now ≤ 16) }
        ensures { result ≡ run crc (bits s.now) }
    {
        let last = self.bytes_share(0, &s[4..], 0);
        self.bytes_share(crc, &s[0..4], s.len() - 4) ^ last
    }

    // The register after the last bytes of a slice: four at once where there are as many, and the others one by one.
    fn by_few(self, crc: u32, data: &[u8]) -> u32
        ensures { result ≡ run crc (bits «data».now) }
    {
        let Some((s, later)) = data.split_at_checked(4) else {
            return self.by_ones(crc, data);
        };
        let c = self.bytes_share(crc, s, 0);
        self.by_ones(c, later)
    }

    // The register after all bytes of a slice, one a turn.
    fn by_ones(self, crc: u32, data: &[u8]) -> u32
        ensures { result ≡ run crc (bits «data».now) }
    {
        let mut c = crc;
        for b in data {
            c = self.next(c, *b);
        }
        c
    }
}
