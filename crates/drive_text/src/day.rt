// A day on an empty log of two blocks, and the listing of the log that it leaves.
ghost use Rattle.std.specs.Prelude.{◌≡◌, length};
ghost use Rattle.slices.specs.Bytes.{zeros};
ghost use Rattle.listing.specs.Writing.{written, listed};
ghost use Rattle.readout_text.specs.Card.{card_text};
ghost use Rattle.drive_calls.specs.Driven.{drive_text, drive_log};
ghost use Rattle.drive_text.specs.Internal.{Drove, listed_behind, left_behind};

use crate::run::run;
use listing::{Text, refused};
use multi_record_log::{LogWriter, QueueMemory, Refusal};
use readout_text::list_card;
use slices::clear;

const MAX_INPUT_LEN: usize = 65536;

// The calls, with `readout`'s memory, on a log of zeros. Answers the place behind their lines.
// Kept: there is no heap, so the arrays stand in the frame that lends them, here, in cutdown_card and, as entries and words, in readout_text.
fn drive_zeroed(input: &[u8], log: &mut [u8], out: &mut [u8]) -> usize
    requires { log.old ≡ zeros 65536 }
    ensures { Drove input.now log.new out.old result out.new }
{
    let mut write_position: usize = 0;
    let mut scratch = [0u8; 65536];
    let mut names = [0u8; 32768];
    let mut payloads = [0u8; 32768];
    let mut entries = [0u8; 32768];
    let mut largest = [0u8; 8192];
    let mut table = [0u8; 1568];
    let mut writer = LogWriter {
        log,
        write_position: &mut write_position,
        scratch: &mut scratch,
    };
    let mut memory = QueueMemory {
        names: &mut names,
        payloads: &mut payloads,
        entries: &mut entries,
        largest: &mut largest,
        table: &mut table,
    };
    let mut text = Text { out, at: 0 };
    run(input, &mut writer, &mut memory, &mut text);
    text.at
}

// The listing of a log behind what stands in the buffer up to a place.
// Kept: no plainer: `at` is how much is written, which the answer counts on from.
fn list_behind(log: &[u8], out: &mut [u8], at: usize) -> Option<usize>
    ensures { (result ≡ listed_behind (length out.old) at (card_text log.now))
        × (out.new ≡ left_behind out.old at (card_text log.now)) }
{
    if out.len() < at {
        return None;
    }
    Some(at + list_card(log, &mut out[at..])?)
}

// What `drive` prints for an input, with zeros after it, and the log that the calls leave. An input that is too long leaves the log as it was.
pub fn drive(input: &[u8], log: &mut [u8; 65536], out: &mut [u8]) -> Option<usize>
    ensures { (result ≡ listed (length out.old) (length (drive_text input.now)))
        × ((out.new ≡ written (zeros (length out.old)) 0 (drive_text input.now))
        × (log.new ≡ drive_log input.now log.old)) }
{
    clear(out);
    if MAX_INPUT_LEN < input.len() {
        return refused(out, Refusal::LogSize.number());
    }
    clear(log);
    let at = drive_zeroed(input, log, out);
    list_behind(log, out, at)
}
