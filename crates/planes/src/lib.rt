// Readings stored by byte planes, and back: for the queue's owner, before an append and after a read. The log is not touched and does not mark such payloads.
#![tactic(auto)]

ghost use Rattle.std.specs.Prelude.{◌≡◌, ◌+◌, ◌*◌, ◌≤◌, ◌<◌, length};
ghost use Rattle.slices.specs.Put.{put};
ghost use Rattle.planes.specs.Planes.{every, crossed};
ghost use Rattle.planes.specs.Step.{planes_fit, step_answer, to_planes_left, from_planes_left, error_number, planes_number};

// Why a step is refused.
#[derive(Clone, Copy, Debug, PartialEq, Eq)]
pub enum PlanesError {
    // The width is outside 1 to 64 or doesn't divide the payload's length, or the target's length isn't the payload's.
    WidthWrong = 18,
}

impl PlanesError {
    // The refusal's number.
    // Kept: no plainer: one cast, with a name that says what the number is.
    pub fn number(self) -> u64
        ensures { result ≡ error_number self }
    {
        self as u64
    }
}

// The number of an answer: 0 where nothing is refused.
// Kept: the C interface gives refusals as numbers. One over all error types takes a trait, and an impl of it for each.
pub fn number(answer: Result<(), PlanesError>) -> u64
    ensures { result ≡ planes_number answer }
{
    answer.err().map_or(0, PlanesError::number)
}

// Whether the step is taken, for readings of this many bytes, a payload and a target of these lengths.
fn planes_fit(width: u64, payload: usize, target: usize) -> bool
    ensures { result ≡ planes_fit width payload target }
{
    1 <= width && width <= 64 && payload % (width as usize) == 0 && target == payload
}

// Byte `from` of src and every `step`-th after it, n bytes, stored from `at` on.
fn gather(src: &[u8], from: usize, step: usize, n: usize, dst: &mut [u8], at: usize)
    requires { (from < step) × (n * step ≤ length src.now) × (at + n ≤ length dst.old) }
    ensures { dst.new ≡ put dst.old at (every step n from src.now) }
{
    for i in 0..n {
        dst[at + i] = src[i * step + from];
    }
}

// m runs of n bytes each: run j is byte j of src and every m-th after it.
fn cross(src: &[u8], m: usize, n: usize, dst: &mut [u8])
    requires { (length src.now ≡ m * n) × (length dst.old ≡ m * n) }
    ensures { dst.new ≡ crossed m n src.now }
{
    for j in 0..m {
        gather(src, j, m, n, dst, j * n);
    }
}

// The readings of a payload as planes.
pub fn to_planes(payload: &[u8], width: u64, target: &mut [u8]) -> Result<(), PlanesError>
    ensures { (result ≡ step_answer width payload.now target.old)
        × (target.new ≡ to_planes_left width payload.now target.old) }
{
    if !planes_fit(width, payload.len(), target.len()) {
        return Err(PlanesError::WidthWrong);
    }
    let w = width as usize;
    cross(payload, w, payload.len() / w, target);
    Ok(())
}

// The readings that a payload of planes holds.
pub fn from_planes(payload: &[u8], width: u64, target: &mut [u8]) -> Result<(), PlanesError>
    ensures { (result ≡ step_answer width payload.now target.old)
        × (target.new ≡ from_planes_left width payload.now target.old) }
{
    if !planes_fit(width, payload.len(), target.len()) {
        return Err(PlanesError::WidthWrong);
    }
    let w = width as usize;
    cross(payload, payload.len() / w, w, target);
    Ok(())
}
