// Lists the card on standard input: the whole of it is read, a byte more than a card may have at most, and the library's text is written. A read or a write
// that fails is said on standard error, and where the input could not be read to its end nothing is listed.
#![tactic(auto)]

use card_input::{fail, read_card};
use std::io::Write;

fn show<O: Write, E: Write>(output: &mut O, errors: &mut E, input: &[u8]) {
    let mut text = [0u8; 420235];
    let Some(n) = readout_text::list_card(input, &mut text) else {
        return;
    };
    if let Err(error) = output.write_all(&text[..n]) {
        fail(errors, b"readout: standard output", error);
    }
}

// Kept: no plainer: cutdown's `main` reads its card likewise; a function of both would take as closures what each does with a card and with a failure.
fn main(rt: HostRuntime) {
    let mut errors = rt.stderr();
    let mut input = [0u8; 65537];
    match read_card(&mut rt.stdin(), &mut input) {
        Ok(n) => show(&mut rt.stdout(), &mut errors, &input[..n]),
        Err(failed) => fail(&mut errors, b"readout: standard input", failed.error),
    }
}
