// UTF-8 (RFC 3629): the test of a name, as the Rust's `str::from_utf8` tests it.
#![tactic(auto)]

ghost use Rattle.std.specs.Prelude.{◌≡◌, Some};
ghost use Rattle.utf8.specs.Utf8.{utf8, grammar, begun, after};
ghost use Rattle.utf8.specs.Wanted.{wanted, follow, are_one_octet};

// What is still to come of a character: `left` bytes, the next of them from `low` to `high`, each
// further one from 0x80 to 0xbf. With none left it is whole, and `low` and `high` mean nothing.
#[derive(Clone, Copy)]
struct Wanted {
    low: u8,
    high: u8,
    left: u8,
}

// What is wanted after one byte more. None: no UTF-8 goes on so.
fn wants(low: u8, high: u8, left: u8) -> Option<Wanted>
    ensures { result ≡ Some (record { low = low; high = high; left = left }) }
{
    Some(Wanted { low, high, left })
}

// What the first byte of a character wants after it: the rules of the RFC's grammar.
fn begin(b: u8) -> Option<Wanted>
    ensures { follow result ≡ begun grammar b }
{
    match b {
        0x00..=0x7f => wants(0x80, 0xbf, 0),
        0xc2..=0xdf => wants(0x80, 0xbf, 1),
        0xe0 => wants(0xa0, 0xbf, 2),
        0xe1..=0xec | 0xee..=0xef => wants(0x80, 0xbf, 2),
        0xed => wants(0x80, 0x9f, 2),
        0xf0 => wants(0x90, 0xbf, 3),
        0xf1..=0xf3 => wants(0x80, 0xbf, 3),
        0xf4 => wants(0x80, 0x8f, 3),
        _ => None,
    }
}

// One byte more: the first of a character, or the next one of it.
fn step(w: Wanted, b: u8) -> Option<Wanted>
    ensures { follow result ≡ after (wanted w) b }
{
    if w.left == 0 {
        return begin(b);
    }
    if b < w.low || w.high < b {
        return None;
    }
    wants(0x80, 0xbf, w.left - 1)
}

// Whether the bytes are UTF-8. Each is looked at once, by what is wanted there.
fn follows_grammar(s: &[u8]) -> bool
    ensures { result ≡ utf8 s.now }
{
    let mut w = Wanted {
        low: 0x80,
        high: 0xbf,
        left: 0,
    };
    for b in s {
        let Some(next) = step(w, *b) else {
            return false;
        };
        w = next;
    }
    w.left == 0
}

// Whether each of the bytes is a character of its own (UTF8-1), as in most names. It looks at all of them, with no way out before the end: eight bytes make one
// comparison then.
fn are_one_octet(s: &[u8]) -> bool
    ensures { result ≡ are_one_octet s.now }
{
    let mut all = true;
    for b in s {
        all &= *b < 0x80;
    }
    all
}

// Whether the bytes are UTF-8.
// Kept: no plainer: std's `str::from_utf8` speaks of std's definition, where the promises on names speak of the RFC's grammar; a proof that the two agree would
// stand in the place of this code.
pub fn is_utf8(s: &[u8]) -> bool
    ensures { result ≡ utf8 s.now }
{
    let mut rest = s;
    while let Some((eight, later)) = rest.split_at_checked(8) {
        if !are_one_octet(eight) {
            return follows_grammar(rest);
        }
        rest = later;
    }
    are_one_octet(rest) || follows_grammar(rest)
}
