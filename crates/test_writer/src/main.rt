// Runs the calls that write a file, and writes a line for each.
//
// A call's numbers are the lengths of file, ring and output; the file and the ring follow. Op 0 seals a draft, 1 gives the
// draft of a file back, 2 seals suite 4 entries again as suite 3, 3 moves a file to edition 2 and 4 back to edition 1 (both
// without a ring). A line is number, row and output, which holds 0xa5 before the call.
#![tactic(auto)]

use program_text::calls::{Call, CallError};
use program_text::print::{Page, Shown};
use program_text::read::{FILE_ROOM, front_mut, part};
use program_text::{calls, read};
use status::checked::{Answer, answered};
use std::io;
use std::io::{Read, Write};

// The most bytes of a ring and of an output that a call can have here.
const RING_ROOM: usize = 300;

const OUT_ROOM: usize = 65540;

// The answer to a call, by the op's number in the input; none if there is no such op.
fn answer(op: u8, file: &[u8], ring: &[u8], out: &mut [u8]) -> Option<Answer> {
    match op {
        0 => Some(answered(shift_writer::seal_file(file, ring, out))),
        1 => Some(answered(shift_writer::unseal_file(file, ring, out))),
        2 => Some(answered(shift_reseal::reseal(file, ring, out))),
        3 => Some(answered(shift_editions::to_edition2(file, out))),
        4 => Some(answered(shift_editions::to_edition1(file, out))),
        _ => None,
    }
}

fn run<R: Read>(input: &mut R, call: Call, line: &mut Page) -> Result<(), CallError> {
    let [file_len, ring_len, out_len, ..] = call.numbers;
    let mut file_buf = read::room::<FILE_ROOM>();
    let mut ring_buf = [0u8; RING_ROOM];
    let mut out_buf = [0xa5u8; OUT_ROOM];
    let file = part(input, &mut file_buf, file_len)?;
    let ring = part(input, &mut ring_buf, ring_len)?;
    let out = front_mut(&mut out_buf, out_len)?;
    let answer = answer(call.op, file, ring, out).ok_or(CallError::Bad)?;
    writeln!(line, "{} {} {}", answer.number, answer.row, Shown(out))?;
    Ok(())
}

fn main(rt: HostRuntime) -> io::Result<()> {
    calls::each(
        &mut rt.stdin(),
        &mut rt.stdout(),
        |input, call, line| run(input, call, line),
    )
}
