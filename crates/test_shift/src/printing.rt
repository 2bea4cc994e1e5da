// What the plant's programs print, as they print it. Files follow, whose lengths are the numbers.
//
// Op 6: `job`, of file and ring. Op 7: `current`, of amendment, day's file and ring. Op 8: `differ`, of the first file and the
// second. Op 9: `inspect`, of file and ring.
use crate::{FILE_ROOM, RING_ROOM};
use program_text::calls::{Call, CallError};
use program_text::read;
use program_text::read::part;
use std::io;
use std::io::{Read, Write};

// Reads two files, and prints what is printed of them.
fn of_two<R: Read, F>(input: &mut R, call: Call, print: F) -> Result<(), CallError>
where
    F: FnOnce(&[u8], &[u8]) -> io::Result<()>,
    requires { F.IsAlwaysCallable print }
{
    let [first_len, second_len, ..] = call.numbers;
    let mut first_buf = read::room::<{ read::FILE_ROOM }>();
    let mut second_buf = [0u8; FILE_ROOM];
    let first = part(input, &mut first_buf, first_len)?;
    let second = part(input, &mut second_buf, second_len)?;
    print(first, second)?;
    Ok(())
}

pub(crate) fn job<R: Read, W: Write>(
    input: &mut R,
    call: Call,
    line: &mut W,
) -> Result<(), CallError> {
    of_two(
        input,
        call,
        |file, ring| program_reports::write_job(file, ring, call.job, line),
    )
}

pub(crate) fn differ<R: Read, W: Write>(
    input: &mut R,
    call: Call,
    line: &mut W,
) -> Result<(), CallError> {
    of_two(
        input,
        call,
        |first, second| program_reports::write_differ(first, second, line),
    )
}

pub(crate) fn inspect<R: Read, W: Write>(
    input: &mut R,
    call: Call,
    line: &mut W,
) -> Result<(), CallError> {
    of_two(
        input,
        call,
        |file, ring| program_reports::write_inspect(file, ring, line),
    )
}

pub(crate) fn current<R: Read, W: Write>(
    input: &mut R,
    call: Call,
    line: &mut W,
) -> Result<(), CallError> {
    let [amendment_len, day_len, ring_len, ..] = call.numbers;
    let mut amendment_buf = [0u8; FILE_ROOM];
    let mut day_buf = [0u8; FILE_ROOM];
    let mut ring_buf = [0u8; RING_ROOM];
    let amendment = part(input, &mut amendment_buf, amendment_len)?;
    let day = part(input, &mut day_buf, day_len)?;
    let ring = part(input, &mut ring_buf, ring_len)?;
    program_reports::write_current(amendment, day, ring, call.job, line)?;
    Ok(())
}
