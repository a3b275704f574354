// Lists the cards that standard input holds, one after the other, an empty line after each. A card is stored as its length and how many of its bytes are
// stored, three bytes each, the low one first, then these bytes; zeros follow them up to the card's length, also where the input ends before they do. A card
// of more than 65,537 bytes, and one of which more is stored than it has, end the list.
#![tactic(auto)]

use std::io::Read;

// A write that fails is passed over, here and in `main`.
fn list(rt: &impl Print, card: &[u8]) {
    let mut out = [0u8; 420235];
    if let Some(n) = readout_text::list_card(card, &mut out) {
        let _ = rt.write_all(&out[..n]);
    }
}

// The next card, where there is one, in a buffer of zeros.
fn next_card<'a>(input: &mut impl Read, room: &'a mut [u8]) -> Option<&'a [u8]> {
    let mut head = [0u8; 6];
    input.read_exact(&mut head).ok()?;
    let [a, b, c, d, e, f] = head;
    let len = u32::from_le_bytes([a, b, c, 0]) as usize;
    let stored = u32::from_le_bytes([d, e, f, 0]) as usize;
    let card = room.get_mut(..len)?;
    let _ = input.read_exact(card.get_mut(..stored)?);
    Some(card)
}

fn main(rt: HostRuntime) {
    let mut input = rt.stdin();
    for _ in 0..1000 {
        let mut room = [0u8; 65537];
        let Some(card) = next_card(&mut input, &mut room) else {
            break;
        };
        list(&rt, card);
        let _ = println!(rt; "");
    }
}
