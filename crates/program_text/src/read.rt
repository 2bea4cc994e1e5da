// Reading.
ghost use Rattle.std.specs.Prelude.{◌≡◌, ◌<◌, ◌≤◌, IfOk, length, take, replicate};
ghost use Rattle.std.specs.Io.KnownBytes.{IsAtEnd};

use crate::calls::CallError;
use shift_limits::{MAX_FILE, RING_LEN};
use std::io;
use std::io::Read;

// The most bytes of a shift file, and of a ring, and one byte more: a file that is longer fills the whole buffer.
pub const FILE_ROOM: usize = MAX_FILE + 1;

pub const RING_ROOM: usize = RING_LEN + 1;

// The first len bytes of buf, or all of buf if it is shorter.
pub fn front(buf: &[u8], len: usize) -> &[u8]
    ensures { (result.now ≡ take len buf.now) × (result.ref_ptr ≡ buf.entry.ref_ptr) }
{
    &buf[..len.min(buf.len())]
}

// Reads until buf is full or the input ends, and returns how many bytes it put at the start of buf. The loop stands here since
// `read_exact` does not say how many bytes came before the end.
pub fn full<R: Read>(input: &mut R, buf: &mut [u8]) -> io::Result<usize>
    ensures bound { IfOk result (λ n. n ≤ length buf.new) }
    ensures end { IfOk result (λ n. n < length buf.new → IsAtEnd (R.remaining input.new)) }
{
    let mut done: usize = 0;
    while done < buf.len() {
        let got = input.read(&mut buf[done..])?;
        if got == 0 {
            return Ok(done);
        }
        done += got;
    }
    Ok(done)
}

// The first len elements of buf; the call is bad if buf is shorter.
pub fn front_mut<T>(buf: &mut [T], len: usize) -> Result<&mut [T], CallError>
    ensures { IfOk result (λ front. length front.now ≡ len) }
{
    if buf.len() < len {
        return Err(CallError::Bad);
    }
    Ok(&mut buf[..len])
}

// Reads len bytes of the input into buf and returns them; the call is bad if buf is too short or the input ends.
pub fn part<'a, R: Read>(
    input: &mut R,
    buf: &'a mut [u8],
    len: usize,
) -> Result<&'a mut [u8], CallError>
    ensures { IfOk result (λ part. length part.now ≡ len) }
{
    let part = front_mut(buf, len)?;
    input.read_exact(part)?;
    Ok(part)
}

// Zeros, with room for so many bytes. A function of its own: the prover carries no array of a file's length that stands in the
// body where it is used.
pub fn room<const N: usize>() -> [u8; N]
    ensures { result ≡ replicate N 0 }
{
    [0u8; N]
}
