// A card read from an open file, or from whatever else gives bytes; the names of files; and the line that says what failed.
#![tactic(auto)]

ghost use Rattle.std.specs.Prelude.{◌≡◌, IfOk, IfErr, IfSome, OnErr, IsUtf8, ◌<◌, ◌≤◌, [], take, length};
ghost use Rattle.std.specs.Io.KnownBytes.{Consumes, IsAtEnd};
ghost use Rattle.io.specs.Counts.{IsPrefixLen};
ghost use Rattle.std.specs.IoError.{error_kind};
ghost use Rattle.std.specs.declared.io.ErrorKind.TheVariants.{Interrupted, InvalidFilename};

use std::io::{Error, ErrorKind, Read, Write};

// Why the rest of a file could not be read, and how many of its bytes stand at the start of the buffer.
#[derive(Clone, Copy)]
pub struct ReadFailed {
    pub bytes: usize,
    pub error: Error,
}

// What a read that failed means: a signal cut it before a byte came, and it is done again, or there is no more to be had.
fn cut_or_failed(cause: Error) -> Result<Option<usize>, Error>
    ensures cut { IfOk result (λ bytes. bytes ≡ Some 0) }
    ensures retried { IfErr result (λ e. ¬ (error_kind e ≡ Interrupted)) }
{
    if cause.kind() == ErrorKind::Interrupted {
        Ok(Some(0))
    } else {
        Err(cause)
    }
}

// One read of the file into the rest of the buffer: how many bytes came, or that it has ended. No rest ends it: nothing more is asked for.
fn read_on<R: Read>(file: &mut R, rest: &mut [u8]) -> Result<Option<usize>, Error>
    ensures within { IfOk result (λ some. IfSome some (λ n. n ≤ length rest.new)) }
    ensures consumed { IfOk result (λ some. IfSome some (λ n. Consumes (R.remaining file.old) (R.remaining file.new) (take n rest.new))) }
    ensures ended { result ≡ Ok None → Consumes (R.remaining file.old) (R.remaining file.new) [] }
    ensures end { result ≡ Ok None → 0 < length rest.new → IsAtEnd (R.remaining file.new) }
    ensures failed { IfErr result (λ _. Consumes (R.remaining file.old) (R.remaining file.new) []) }
    ensures retried { IfErr result (λ e. ¬ (error_kind e ≡ Interrupted)) }
{
    match file.read(rest) {
        Ok(0) => Ok(None),
        Ok(n) => Ok(Some(n)),
        Err(error) => cut_or_failed(error),
    }
}

// The file to its end, or as much of it as the buffer takes: how many bytes. Nothing says that a file ends, so the turns are counted, to a number that no run
// comes to.
pub fn read_card<R: Read>(file: &mut R, card: &mut [u8]) -> Result<usize, ReadFailed>
    ensures within { IfOk result (λ n. IsPrefixLen n card.new) }
    ensures consumed { IfOk result (λ n. Consumes (R.remaining file.old) (R.remaining file.new) (take n card.new)) }
    ensures end { IfOk result (λ n. n < length card.new → IsAtEnd (R.remaining file.new)) }
    ensures failed_within { IfErr result (λ e. IsPrefixLen e.«bytes» card.new) }
    ensures failed_consumed { IfErr result (λ e. Consumes (R.remaining file.old) (R.remaining file.new) (take e.«bytes» card.new)) }
    ensures retried { IfErr result (λ e. ¬ (error_kind e.error ≡ Interrupted)) }
{
    let mut bytes = 0;
    for _ in 0..u64::MAX {
        match read_on(file, &mut card[bytes..]) {
            Ok(Some(n)) => bytes += n,
            Ok(None) => return Ok(bytes),
            Err(error) => return Err(ReadFailed { bytes, error }),
        }
    }
    Err(ReadFailed {
        bytes,
        error: Error::from(ErrorKind::TimedOut),
    })
}

// Writes a line: what failed, as the caller names it, and why. Where it cannot be written, nobody is told.
pub fn fail<W: Write>(to: &mut W, what: &[u8], error: Error) {
    let _ = to.write_all(what);
    let _ = writeln!(to, ": {error}");
}

// Something failed, which was said: nothing more is printed.
#[derive(Clone, Copy)]
pub struct Stopped;

// The same as `fail`, for a caller that answers it.
pub fn stop<W: Write>(to: &mut W, what: &[u8], error: Error) -> Stopped {
    fail(to, what, error);
    Stopped
}

// A file's name, as the system's calls take it here: text.
pub fn file_name(name: &[u8]) -> Result<&str, Error>
    ensures text { IfOk result (λ text. text.now ≡ name.now) }
    ensures refused { OnErr result (¬ (IsUtf8 name.now)) }
    ensures kind { IfErr result (λ e. error_kind e ≡ InvalidFilename) }
{
    str::from_utf8(name).map_err(|_| Error::new(ErrorKind::InvalidFilename, "The name is no UTF-8"))
}

// Why a name of more bytes than a name may have is not taken.
pub fn name_too_long() -> Error
    ensures { error_kind result ≡ InvalidFilename }
{
    Error::new(ErrorKind::InvalidFilename, "File name too long")
}
