// Runs in lent slices: stored, cleared, moved, compared.
#![tactic(auto)]

ghost use Rattle.std.specs.Prelude.{◌≡◌, ◌+◌, ◌≤◌, length, take, drop};
ghost use Rattle.slices.specs.Bytes.{Bytes, zeros};
ghost use Rattle.slices.specs.Put.{put};
ghost use Rattle.slices.specs.Same.{same_bytes};
ghost use Rattle.slices.specs.Order.{order};

use std::cmp::Ordering;

// All of src, from `at` on.
// Kept: a loop, which is compiled into its caller: copy_from_slice calls memmove, and takes 13 ns in place of 3 for 16 bytes.
pub fn copy_at<T: Copy>(dst: &mut [T], at: usize, src: &[T])
    requires { at + length src.now ≤ length dst.old }
    ensures { dst.new ≡ put dst.old at src.now }
{
    for (i, x) in src.iter().enumerate() {
        dst[at + i] = *x;
    }
}

// n zeros, from `at` on.
pub fn zero_at(dst: &mut [u8], at: usize, n: usize)
    requires { at + n ≤ length dst.old }
    ensures { dst.new ≡ put dst.old at (zeros n) }
{
    let end = at + n;
    dst[at..end].fill(0);
}

// Zeros in all of the slice.
pub fn clear(dst: &mut [u8])
    ensures { dst.new ≡ zeros (length dst.old) }
{
    dst.fill(0);
}

// The n elements from `from` on, at the place `to`, which may be lower or higher.
pub fn move_within<T: Copy>(s: &mut [T], to: usize, from: usize, n: usize)
    requires { (from + n ≤ length s.old) × (to + n ≤ length s.old) }
    ensures { s.new ≡ put s.old to (take n (drop from s.old)) }
{
    s.copy_within(from..from + n, to);
}

// Whether the two are the same.
// Kept: nothing calls it, but the edit same_by_the_last_byte stands in it, and an edit that must fail keeps its name and meaning (a rule of the project).
pub fn same(a: &[u8], b: &[u8]) -> bool
    ensures { result ≡ same_bytes a.now b.now }
{
    a == b
}

// How a stands to b in byte order.
fn compare_all(a: &[u8], b: &[u8]) -> Ordering
    ensures { result ≡ order a.now b.now }
{
    a.cmp(&b)
}

// The same. Many names differ in their first byte: it is looked at where the call stands.
#[inline(always)]
pub fn compare(a: &[u8], b: &[u8]) -> Ordering
    ensures { result ≡ order a.now b.now }
{
    if 0 < a.len() && 0 < b.len() {
        if a[0] < b[0] {
            return Ordering::Less;
        }
        if b[0] < a[0] {
            return Ordering::Greater;
        }
    }
    compare_all(a, b)
}

// That bytes are below 256: the check knows it of a slice that is a parameter, and not of one that a struct lends. It does nothing.
pub fn below_256(bytes: &[u8])
    ensures { Bytes bytes.now }
{}
