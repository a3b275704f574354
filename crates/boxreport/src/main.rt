// Feeds the cards whose files are named as arguments to a report, one after another, and prints a line for each card that is refused, then the report. A
// card that could not be read, and a write that fails, are said on standard error, and nothing more is printed.
#![tactic(auto)]

use card_input::{Stopped, file_name, name_too_long, read_card, stop};
use std::env::FillError;
use std::fs::File;
use std::io::{Error, Read, Write};
use std::rt::{Env, Files};

// The report, and where its text and what fails are written.
#[derive(Drop)]
struct Feeder<'a, O, E> {
    output: &'a mut O,
    errors: &'a mut E,
    held: [u8; 96],
}

fn open<R: Files>(rt: &R, name: &[u8]) -> Result<R::File, Error> {
    File::open(rt, file_name(name)?)
}

impl<O: Write, E: Write> Feeder<'_, O, E> {
    // Writes a text that stands in the buffer.
    fn show(&mut self, listed: Option<usize>, text: &[u8]) -> Result<(), Stopped> {
        let n = listed.ok_or(Stopped)?;
        let text = text.get(..n).ok_or(Stopped)?;
        match self.output.write_all(text) {
            Ok(()) => Ok(()),
            Err(error) => Err(stop(self.errors, b"boxreport: standard output", error)),
        }
    }

    // A card that was read, and the line of one that is refused.
    fn feed(&mut self, name: &[u8], card: &[u8]) -> Result<(), Stopped> {
        match report_text::feed_card(&mut self.held, card) {
            Ok(()) => Ok(()),
            Err(refusal) => {
                let mut text = [0u8; 8192];
                let listed = report_text::list_refused(refusal.number(), name, &mut text);
                self.show(listed, &text)
            }
        }
    }

    // The card in an open file. A card longer than the buffer's last byte but one is too long, whatever follows.
    fn feed_open<F: Read>(&mut self, name: &[u8], file: &mut F) -> Result<(), Stopped> {
        let mut card = [0u8; 65537];
        match read_card(file, &mut card) {
            Ok(n) => self.feed(name, &card[..n]),
            Err(failed) => Err(stop(self.errors, name, failed.error)),
        }
    }

    fn feed_named<R: Files>(&mut self, rt: &R, name: &[u8]) -> Result<(), Stopped> {
        match open(rt, name) {
            Ok(mut file) => self.feed_open(name, &mut file),
            Err(error) => Err(stop(self.errors, name, error)),
        }
    }

    // The card that argument i names. Answers whether there is such an argument.
    fn feed_argument<R: Files + Env>(&mut self, rt: &R, i: usize) -> Result<bool, Stopped> {
        let mut name = [0u8; 4096];
        match rt.arg(i, &mut name) {
            Ok(n) => {
                self.feed_named(rt, &name[..n])?;
                Ok(true)
            }
            Err(FillError::NotPresent) => Ok(false),
            Err(FillError::TooLong) => Err(stop(
                self.errors,
                b"boxreport: a card's name",
                name_too_long(),
            )),
        }
    }

    // All cards, and then the report.
    fn run<R: Files + Env>(&mut self, rt: &R) -> Result<(), Stopped> {
        for i in 1..usize::MAX {
            if !self.feed_argument(rt, i)? {
                break;
            }
        }
        let mut text = [0u8; 1024];
        let listed = report_text::list_report(&self.held, &mut text);
        self.show(listed, &text)
    }
}

fn main(rt: HostRuntime) {
    let mut feeder = Feeder {
        output: &mut rt.stdout(),
        errors: &mut rt.stderr(),
        held: [0; 96],
    };
    let _ = feeder.run(&rt);
}
