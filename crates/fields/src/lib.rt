// Little-endian numbers in a part of a slice.
// Kept: three functions each way, for std has from_le_bytes and to_le_bytes at each width and no trait over them; one of our own would hold these six bodies.
#![tactic(auto)]

ghost use Rattle.std.specs.Prelude.{◌≡◌, ◌+◌, ◌≤◌, length, take, drop};
ghost use Rattle.slices.specs.Put.{put};
ghost use Rattle.fields.specs.Le.{le, le_bytes};

// The number in the 2 bytes from `at` on.
pub fn u16_at(s: &[u8], at: usize) -> u16
    requires { at + 2 ≤ length s.now }
    ensures { result ≡ le (take 2 (drop at s.now)) }
{
    u16::from_le_bytes([s[at], s[at + 1]])
}

// The number in the 4 bytes from `at` on.
pub fn u32_at(s: &[u8], at: usize) -> u32
    requires { at + 4 ≤ length s.now }
    ensures { result ≡ le (take 4 (drop at s.now)) }
{
    u32::from_le_bytes([s[at], s[at + 1], s[at + 2], s[at + 3]])
}

// The number in the 8 bytes from `at` on.
pub fn u64_at(s: &[u8], at: usize) -> u64
    requires { at + 8 ≤ length s.now }
    ensures { result ≡ le (take 8 (drop at s.now)) }
{
    u64::from_le_bytes([
        s[at],
        s[at + 1],
        s[at + 2],
        s[at + 3],
        s[at + 4],
        s[at + 5],
        s[at + 6],
        s[at + 7],
    ])
}

// The 2 bytes of x, from `at` on.
pub fn put_u16(s: &mut [u8], at: usize, x: u16)
    requires { at + 2 ≤ length s.old }
    ensures { s.new ≡ put s.old at (le_bytes 2 x) }
{
    s[at..at + 2].copy_from_slice(&x.to_le_bytes());
}

// The 4 bytes of x, from `at` on.
pub fn put_u32(s: &mut [u8], at: usize, x: u32)
    requires { at + 4 ≤ length s.old }
    ensures { s.new ≡ put s.old at (le_bytes 4 x) }
{
    s[at..at + 4].copy_from_slice(&x.to_le_bytes());
}

// The 8 bytes of x, from `at` on.
pub fn put_u64(s: &mut [u8], at: usize, x: u64)
    requires { at + 8 ≤ length s.old }
    ensures { s.new ≡ put s.old at (le_bytes 8 x) }
{
    s[at..at + 8].copy_from_slice(&x.to_le_bytes());
}
