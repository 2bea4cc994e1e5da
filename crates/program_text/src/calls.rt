// A call of a test program: its head in the input, and the lines that it prints.
ghost use Rattle.std.specs.Prelude.{◌<◌};

use crate::print::Page;
use crate::read::full;
use std::io;
use std::io::{ErrorKind, Read, Write};

// The bytes of a call's head.
const HEAD_LEN: usize = 30;

// What every call begins with: op, suite, job and six numbers, most of them lengths; 0 if a call has none.
#[derive(Clone, Copy)]
pub struct Call {
    pub op: u8,
    pub suite: u8,
    pub job: u32,
    pub numbers: [usize; 6],
}

// Why a call has no lines.
#[derive(Debug, Drop)]
pub enum CallError {
    // A buffer is too small, the input ends inside the call, or there is no such op.
    Bad,
    // The run ends at this call, and no line says so.
    Ended,
    // The input cannot be read, or the lines cannot be written.
    Io(io::Error),
}

impl From<io::Error> for CallError {
    fn from(error: io::Error) -> CallError {
        match error.kind() {
            ErrorKind::UnexpectedEof => CallError::Bad,
            _ => CallError::Io(error),
        }
    }
}

fn call_of(head: &[u8; HEAD_LEN]) -> Call {
    let number = |at: usize| -> u32
        requires { at < 27 }
    { u32::from_le_bytes([head[at], head[at + 1], head[at + 2], head[at + 3]]) };
    Call {
        op: head[0],
        suite: head[1],
        job: number(2),
        numbers: [
            number(6) as usize,
            number(10) as usize,
            number(14) as usize,
            number(18) as usize,
            number(22) as usize,
            number(26) as usize,
        ],
    }
}

// The head of the next call; none at the end of the input, or, after a line that says so, if the input ends inside the head.
fn next<R: Read, W: Write>(input: &mut R, output: &mut W) -> io::Result<Option<Call>> {
    let mut head = [0u8; HEAD_LEN];
    match full(input, &mut head)? {
        0 => Ok(None),
        HEAD_LEN => Ok(Some(call_of(&head))),
        _ => {
            output.write_all(b"bad input\n")?;
            Ok(None)
        }
    }
}

// Writes the lines of a call, or that it was bad; returns whether the run goes on.
fn done<W: Write>(
    output: &mut W,
    lines: &[u8],
    outcome: Result<(), CallError>,
) -> io::Result<bool> {
    match outcome {
        Ok(()) => {
            output.write_all(lines)?;
            Ok(true)
        }
        Err(CallError::Bad) => {
            output.write_all(b"bad input\n")?;
            Ok(false)
        }
        Err(CallError::Ended) => Ok(false),
        Err(CallError::Io(error)) => Err(error),
    }
}

// Runs the calls of the input, up to its end or to a call that is bad, and writes the lines of each by one call.
pub fn each<R: Read, W: Write, F>(input: &mut R, output: &mut W, mut run: F) -> io::Result<()>
where
    F: FnMut(&mut R, Call, &mut Page) -> Result<(), CallError>,
    requires { F.IsAlwaysCallable run }
{
    // One page for all calls: a new one for each would zero its bytes each time.
    let mut lines = Page::new();
    for _ in 0..u64::MAX {
        let Some(call) = next(input, output)? else {
            return Ok(());
        };
        lines.clear();
        let outcome = run(input, call, &mut lines);
        if !done(output, lines.as_bytes(), outcome)? {
            return Ok(());
        }
    }
    Ok(())
}
