// The table of contents by row number. Job: the first row; numbers: the length of the file and how many rows; the file follows.
//
// A line of status, edition and row count; then a line for each row from the first on: status, job, station, suite, key
// number, offset of the nonce, offset and length of the associated data, offset and length of the text.
use crate::decimal;
use program_text::calls::{Call, CallError};
use program_text::read;
use program_text::read::part;
use shift_reader::contents::{header, row};
use status::checked::Refuses;
use std::io;
use std::io::{Read, Write};

fn header_line<W: Write>(file: &[u8], line: &mut W) -> io::Result<()> {
    match header(file) {
        Ok(fields) => writeln!(line, "0 {} {}", fields.edition, fields.count),
        Err(refusal) => writeln!(line, "{} 0 0", refusal.answer().number),
    }
}

fn row_line<W: Write>(file: &[u8], index: u32, line: &mut W) -> io::Result<()> {
    match row(file, index) {
        Ok(listed) => {
            let fields = [
                u64::from(listed.job),
                u64::from(listed.station),
                u64::from(listed.suite),
                u64::from(listed.key_number),
                u64::from(listed.nonce_at),
                u64::from(listed.ad_at),
                u64::from(listed.ad_len),
                u64::from(listed.text_at),
                u64::from(listed.text_len),
            ];
            decimal::line(0, &fields, line)
        }
        Err(error) => decimal::line(u64::from(error.answer().number), &[0; 9], line),
    }
}

// The header's line, and a line for each of so many rows, as far as there are numbers.
pub(crate) fn run<R: Read, W: Write>(
    input: &mut R,
    call: Call,
    line: &mut W,
) -> Result<(), CallError> {
    let [file_len, count, ..] = call.numbers;
    let mut file_buf = read::room::<{ read::FILE_ROOM }>();
    let file = part(input, &mut file_buf, file_len)?;
    header_line(file, line)?;
    for index in (call.job..=u32::MAX).take(count) {
        row_line(file, index, line)?;
    }
    Ok(())
}
