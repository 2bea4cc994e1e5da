// The comparison of two files. Numbers: the lengths of the files and how many elements the three lists have; the files follow.
//
// A line: number, file, row, the three counts, and every element of the three lists.
use crate::{FILE_ROOM, LIST_ROOM};
use program_text::calls::{Call, CallError};
use program_text::print::Spaced;
use program_text::read::{front_mut, part};
use shift_compare::{compare, said};
use std::io::{Read, Write};

pub(crate) fn run<R: Read, W: Write>(
    input: &mut R,
    call: Call,
    line: &mut W,
) -> Result<(), CallError> {
    let [
        first_len,
        second_len,
        only_first_len,
        only_second_len,
        differ_len,
        _,
    ] = call.numbers;
    let mut first_buf = [0u8; FILE_ROOM];
    let mut second_buf = [0u8; FILE_ROOM];
    let mut only_first_buf = [0xa5a5a5a5u32; LIST_ROOM];
    let mut only_second_buf = [0xa5a5a5a5u32; LIST_ROOM];
    let mut differ_buf = [0xa5a5a5a5u32; LIST_ROOM];
    let first = part(input, &mut first_buf, first_len)?;
    let second = part(input, &mut second_buf, second_len)?;
    let only_first = front_mut(&mut only_first_buf, only_first_len)?;
    let only_second = front_mut(&mut only_second_buf, only_second_len)?;
    let differ = front_mut(&mut differ_buf, differ_len)?;
    let finding = said(compare(first, second, only_first, only_second, differ));
    write!(line, "{} {} {}", finding.number, finding.file, finding.row)?;
    write!(
        line,
        " {} {} {}",
        finding.first, finding.second, finding.differ
    )?;
    writeln!(
        line,
        "{}{}{}",
        Spaced(only_first),
        Spaced(only_second),
        Spaced(differ)
    )?;
    Ok(())
}
