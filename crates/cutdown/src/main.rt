// Cuts the card on standard input down to what it holds, and writes the fresh card to standard output. A card that is refused is told on standard error, as
// `refused` and the number, and so is a read or a write that fails; then nothing is written, or, where a write fails, perhaps a part.
#![tactic(auto)]

use calls::Refusal;
use card_input::{fail, read_card};
use cutdown_card::NotCut;
use std::io::Write;

fn tell<E: Write>(errors: &mut E, refusal: Refusal) {
    let mut line = [0u8; 32];
    let Some(n) = listing::refused(&mut line, refusal.number()) else {
        return;
    };
    let _ = errors.write_all(&line[..n]);
}

fn write<O: Write, E: Write>(output: &mut O, errors: &mut E, fresh: &[u8]) {
    if let Err(error) = output.write_all(fresh) {
        fail(errors, b"cutdown: standard output", error);
    }
}

fn cut<O: Write, E: Write>(output: &mut O, errors: &mut E, input: &[u8]) {
    let mut fresh = [0u8; 65536];
    match cutdown_card::cut_down(input, &mut fresh) {
        Ok(n) => write(output, errors, &fresh[..n]),
        Err(NotCut::Refused(refusal)) => tell(errors, refusal),
        Err(NotCut::NoRoom) => (),
    }
}

// Kept: no plainer: this main and that of readout have one body, but for the name that is told and what is done with the card, and a shared function would
// take both, the second as a closure over two streams.
fn main(rt: HostRuntime) {
    let mut errors = rt.stderr();
    let mut input = [0u8; 65537];
    match read_card(&mut rt.stdin(), &mut input) {
        Ok(n) => cut(&mut rt.stdout(), &mut errors, &input[..n]),
        Err(failed) => fail(&mut errors, b"cutdown: standard input", failed.error),
    }
}
