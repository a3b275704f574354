// Drives a day from the commands on standard input: the whole of it is read, a byte more than an input may have at most, and the library's text is
// written. Where a file is named as the argument, the log that the calls left goes there first. A read or a write that fails is said on standard error,
// and then nothing is printed, or, where the text itself could not be written, perhaps a part.
#![tactic(auto)]

use card_input::{Stopped, fail, file_name, name_too_long, read_card, stop};
use std::env::FillError;
use std::fs;
use std::io::{Error, Write};
use std::rt::{Env, Files};

const MAX_INPUT_LEN: usize = 65536;

fn write_log<R: Files>(rt: &R, name: &[u8], log: &[u8]) -> Result<(), Error> {
    fs::write(rt, file_name(name)?, log)
}

// The log to the file that the argument names, if there is one.
fn keep_log<R: Files + Env, E: Write>(rt: &R, errors: &mut E, log: &[u8]) -> Result<(), Stopped> {
    let mut name = [0u8; 4096];
    match rt.arg(1, &mut name) {
        Ok(n) => match write_log(rt, &name[..n], log) {
            Ok(()) => Ok(()),
            Err(error) => Err(stop(errors, &name[..n], error)),
        },
        Err(FillError::NotPresent) => Ok(()),
        Err(FillError::TooLong) => Err(stop(errors, b"drive: the log's name", name_too_long())),
    }
}

// The text of an input of so many bytes, after the log. There is no log to keep of an input that is too long.
// Kept: no plainer: streams, text and log are used once each, so that a struct of them would be made and taken apart for one run.
fn print<R: Files + Env, O: Write, E: Write>(
    rt: &R,
    output: &mut O,
    errors: &mut E,
    text: &[u8],
    log: &[u8],
    input_len: usize,
) -> Result<(), Stopped> {
    if input_len <= MAX_INPUT_LEN {
        keep_log(rt, errors, log)?;
    }
    match output.write_all(text) {
        Ok(()) => Ok(()),
        Err(error) => Err(stop(errors, b"drive: standard output", error)),
    }
}

fn show<R: Files + Env, O: Write, E: Write>(
    rt: &R,
    output: &mut O,
    errors: &mut E,
    input: &[u8],
    log: &mut [u8; 65536],
) {
    let mut text = [0u8; 247570];
    let Some(n) = drive_text::drive(input, log, &mut text) else {
        return;
    };
    let _ = print(rt, output, errors, &text[..n], log, input.len());
}

// Kept: no plainer as one with readout's `main`, for the reason that stands there.
fn main(rt: HostRuntime) {
    let mut errors = rt.stderr();
    let mut input = [0u8; 65537];
    let mut log = [0u8; 65536];
    match read_card(&mut rt.stdin(), &mut input) {
        Ok(n) => show(&rt, &mut rt.stdout(), &mut errors, &input[..n], &mut log),
        Err(failed) => fail(&mut errors, b"drive: standard input", failed.error),
    }
}
