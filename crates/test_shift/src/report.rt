// The report on a file, and the reader. Numbers: the lengths of file and ring, how many elements the list of jobs and the list
// of numbers have, and how often the reader is called; the file and the ring follow.
//
// Two lines: number, row and count of the report, every element of the list of jobs, and the list of numbers as bytes; and
// "reader" and, for each call, row, job and station of the entry and the offset of its nonce, or "-" if it has ended.
use crate::{FILE_ROOM, LIST_ROOM, RING_ROOM, decimal};
use program_text::calls::{Call, CallError};
use program_text::print::{Shown, Spaced};
use program_text::read::{front_mut, part};
use shift_reader::cursor::{Listed, start};
use shift_reader::step_at;
use shift_report::answers::said;
use std::io;
use std::io::{Read, Write};

// The answer after the last row, as often as one call writes it.
const ENDED: [u8; 64] = *b" - - - - - - - - - - - - - - - - - - - - - - - - - - - - - - - -";

fn entry<W: Write>(listed: Listed, line: &mut W) -> io::Result<()> {
    decimal::spaced(
        &[
            listed.index as u64,
            u64::from(listed.row.job),
            u64::from(listed.station),
            listed.nonce as u64,
        ],
        line,
    )
}

// That the reader has ended, for each of so many calls.
fn ended<W: Write>(calls: usize, line: &mut W) -> io::Result<()> {
    for _ in 0..calls / 32 {
        line.write_all(&ENDED)?;
    }
    line.write_all(&ENDED[..2 * (calls % 32)])
}

// The reader's answers to so many calls. Those after the last row are counted, and written together.
fn answers<W: Write>(file: &[u8], calls: usize, line: &mut W) -> io::Result<()> {
    line.write_all(b"reader")?;
    let mut cursor = start(file);
    let mut after = 0usize;
    for _ in 0..calls {
        let stepped = step_at(file, cursor);
        cursor = stepped.next;
        if let Some(listed) = stepped.entry {
            ended(after, line)?;
            entry(listed, line)?;
            after = 0;
        } else {
            after = after.saturating_add(1);
        }
    }
    ended(after, line)?;
    writeln!(line)
}

pub(crate) fn run<R: Read, W: Write>(
    input: &mut R,
    call: Call,
    line: &mut W,
) -> Result<(), CallError> {
    let [file_len, ring_len, jobs_len, numbers_len, calls, _] = call.numbers;
    let mut file_buf = [0u8; FILE_ROOM];
    let mut ring_buf = [0u8; RING_ROOM];
    let mut jobs_buf = [0xa5a5a5a5u32; LIST_ROOM];
    let mut numbers_buf = [0xa5u8; LIST_ROOM];
    let file = part(input, &mut file_buf, file_len)?;
    let ring = part(input, &mut ring_buf, ring_len)?;
    let jobs = front_mut(&mut jobs_buf, jobs_len)?;
    let numbers = front_mut(&mut numbers_buf, numbers_len)?;
    let summary = said(shift_report::report(file, ring, jobs, numbers));
    write!(line, "{} {} {}", summary.number, summary.row, summary.count)?;
    writeln!(line, "{} {}", Spaced(jobs), Shown(numbers))?;
    answers(file, calls, line)?;
    Ok(())
}
