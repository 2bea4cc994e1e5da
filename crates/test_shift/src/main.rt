// Runs the calls that read shift files, and writes the lines of each.
//
// The call's op says which: 0 and 1 `opening`, 2 `search`, 3 `amended`, 4 `compared`, 5 `report`, 6 to 9 `printing`, 10
// `contents`. What a call's numbers are, what follows them and what its lines say is in the module of that name. Borrowed
// buffers hold 0xa5 before the call.
#![tactic(auto)]

mod amended;
mod compared;
mod contents;
mod decimal;
mod opening;
mod printing;
mod report;
mod search;

use program_text::calls;
use program_text::calls::{Call, CallError};
use program_text::print::Page;
use shift_limits::MAX_ROWS;
use std::io;
use std::io::Read;

// The most bytes of a file or an output, and of a ring, and the most places of a list, that a call can have here.
const FILE_ROOM: usize = 65540;

const RING_ROOM: usize = 300;

const LIST_ROOM: usize = MAX_ROWS + 8;

// The op is its number in the input, which is looked at here alone.
fn run<R: Read>(input: &mut R, call: Call, line: &mut Page) -> Result<(), CallError> {
    match call.op {
        0 => opening::one(input, call, line),
        1 => opening::damaged(input, call, line),
        2 => search::run(input, call, line),
        3 => amended::run(input, call, line),
        4 => compared::run(input, call, line),
        5 => report::run(input, call, line),
        6 => printing::job(input, call, line),
        7 => printing::current(input, call, line),
        8 => printing::differ(input, call, line),
        9 => printing::inspect(input, call, line),
        10 => contents::run(input, call, line),
        _ => Err(CallError::Bad),
    }
}

fn main(rt: HostRuntime) -> io::Result<()> {
    calls::each(
        &mut rt.stdin(),
        &mut rt.stdout(),
        |input, call, line| run(input, call, line),
    )
}
