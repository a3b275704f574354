// What the depot's tool prints for a report, and a card fed.
#![tactic(auto)]

ghost use Rattle.std.specs.Prelude.{◌≡◌, ◌++◌, Some, Ok, length};
ghost use Rattle.slices.specs.Bytes.{zeros};
ghost use Rattle.listing.specs.Writing.{written, listed};
ghost use Rattle.listing.specs.Internal.{SameOut, Puts, Lists};
ghost use Rattle.report.specs.Feed.{feed_number, mean_answer};
ghost use Rattle.report_text.specs.Text.{row_line, table_lines, other_lines, mean_line, count_lines, report_text, refused_line, card_refusal, card_left};

use calls::Refusal;
use frame::Reader;
use listing::{Text, refused};
use report::{MeanLength, ReportRefusal};
use slices::clear;

// Two blocks.
const MAX_CARD_LEN: usize = 2 * Reader::BLOCK_NUM_BYTES;

// A type's right and wrong frames.
fn put_row(text: &mut Text, word: &[u8], right: u64, wrong: u64)
    ensures same { SameOut text.old text.new }
    ensures puts { Puts text.old (row_line word.now right wrong) text.new }
{
    text.put_numbered(word, right);
    text.put_number_line(b" wrong ", wrong);
}

fn put_table(text: &mut Text, numbers: &[u64; 12])
    ensures same { SameOut text.old text.new }
    ensures puts { Puts text.old (table_lines numbers.now) text.new }
{
    put_row(text, b"full right ", numbers[1], numbers[2]);
    put_row(text, b"first right ", numbers[3], numbers[4]);
    put_row(text, b"middle right ", numbers[5], numbers[6]);
    put_row(text, b"last right ", numbers[7], numbers[8]);
}

fn put_others(text: &mut Text, numbers: &[u64; 12])
    ensures same { SameOut text.old text.new }
    ensures puts { Puts text.old (other_lines numbers.now) text.new }
{
    text.put_number_line(b"unreadable ", numbers[9]);
    text.put_number_line(b"over-long ", numbers[10]);
    text.put_number_line(b"data ", numbers[11]);
}

fn put_counts(text: &mut Text, numbers: &[u64; 12])
    ensures same { SameOut text.old text.new }
    ensures puts { Puts text.old (count_lines numbers.now) text.new }
{
    text.put_number_line(b"logs ", numbers[0]);
    put_table(text, numbers);
    put_others(text, numbers);
}

fn put_parts(text: &mut Text, mean: MeanLength)
    ensures same { SameOut text.old text.new }
    ensures puts { Puts text.old (mean_line (Ok (Some mean))) text.new }
{
    text.put_numbered(b"mean ", mean.whole);
    text.put_numbered(b" remainder ", mean.remainder);
    text.put_number_line(b" over ", mean.count);
}

fn put_mean(text: &mut Text, mean: Result<Option<MeanLength>, ReportRefusal>)
    ensures same { SameOut text.old text.new }
    ensures puts { Puts text.old (mean_line mean) text.new }
{
    match mean {
        Ok(Some(parts)) => put_parts(text, parts),
        Ok(None) => text.put_bytes(b"mean none\n"),
        Err(refusal) => text.put_number_line(b"refused ", refusal.number()),
    }
}

// The text of an arranged report by its numbers and their mean, from the buffer's start on.
fn list_arranged(
    out: &mut [u8],
    numbers: &[u64; 12],
    mean: Result<Option<MeanLength>, ReportRefusal>,
) -> Option<usize>
    ensures { Lists out.old (count_lines numbers.now ++ mean_line mean) result out.new }
{
    let mut text = Text { out, at: 0 };
    put_counts(&mut text, numbers);
    put_mean(&mut text, mean);
    text.listed()
}

// What is printed for a report, with zeros after it.
pub fn list_report(report: &[u8], out: &mut [u8]) -> Option<usize>
    ensures { (result ≡ listed (length out.old) (length (report_text report.now)))
        × (out.new ≡ written (zeros (length out.old)) 0 (report_text report.now)) }
{
    clear(out);
    match report::arranged_numbers(report) {
        Some(numbers) => list_arranged(out, &numbers, report::mean(report)),
        None => refused(out, Refusal::NotArranged.number()),
    }
}

// The line for a card that is refused, from the buffer's start on.
// Kept: no plainer: the line has a number in it, and a caller may give any; the type of a refusal would take three.
pub fn list_refused(number: u64, name: &[u8], out: &mut [u8]) -> Option<usize>
    ensures { (result ≡ listed (length out.old) (length (refused_line number name.now)))
        × (out.new ≡ written out.old 0 (refused_line number name.now)) }
{
    let mut text = Text { out, at: 0 };
    text.put_numbered(b"refused ", number);
    text.put_byte(b' ');
    text.put_bytes(name);
    text.put_byte(b'\n');
    text.listed()
}

// A card fed to the report. A refusal leaves the report as it was.
pub fn feed_card(report: &mut [u8], card: &[u8]) -> Result<(), ReportRefusal>
    ensures { (feed_number result ≡ card_refusal report.old card.now)
        × (report.new ≡ card_left report.old card.now) }
{
    if MAX_CARD_LEN < card.len() {
        return Err(ReportRefusal::LogSize);
    }
    report::feed(report, card)
}
