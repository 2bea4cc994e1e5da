// The current entry of a job. Numbers: the lengths of amendment, day's file, ring and output; the three files follow.
//
// A line: number, file and row; offset, length and bytes of the associated data that is returned; number, file and row of
// opening the current entry, and its output.
use crate::{FILE_ROOM, RING_ROOM};
use program_text::calls::{Call, CallError};
use program_text::print::Shown;
use program_text::read::{front_mut, part};
use shift_lookup::answers::answer_of;
use status::checked::answered;
use std::io;
use std::io::{Read, Write};

// Number, file and row of the current entry; offset, length and bytes of its associated data.
fn located<'a, W: Write>(
    amendment: &'a [u8],
    day: &'a [u8],
    job: u32,
    line: &mut W,
) -> io::Result<()> {
    let current = shift_amend::locate(amendment, day, job);
    let answer = answer_of(current.entry.map(|entry| entry.row));
    let start = current.entry.map_or(0, |entry| entry.ad_at);
    let ad = shift_amend::current(amendment, day, job);
    write!(
        line,
        "{} {} {}",
        answer.number,
        u32::from(current.file),
        answer.row
    )?;
    write!(line, " {start} {} {}", ad.len(), Shown(ad))
}

pub(crate) fn run<R: Read, W: Write>(
    input: &mut R,
    call: Call,
    line: &mut W,
) -> Result<(), CallError> {
    let [amendment_len, day_len, ring_len, out_len, ..] = call.numbers;
    let mut amendment_buf = [0u8; FILE_ROOM];
    let mut day_buf = [0u8; FILE_ROOM];
    let mut ring_buf = [0u8; RING_ROOM];
    let mut out_buf = [0xa5u8; FILE_ROOM];
    let amendment = part(input, &mut amendment_buf, amendment_len)?;
    let day = part(input, &mut day_buf, day_len)?;
    let ring = part(input, &mut ring_buf, ring_len)?;
    let out = front_mut(&mut out_buf, out_len)?;
    located(amendment, day, call.job, line)?;
    let current = shift_amend::open_current(amendment, day, ring, call.job, out);
    let opened = answered(current.opened);
    let file = u32::from(current.file);
    writeln!(
        line,
        " {} {file} {} {}",
        opened.number,
        opened.row,
        Shown(out)
    )?;
    Ok(())
}
