// The binary search. Job: the first one; numbers: the length of the file and how many jobs; the file follows.
//
// A line for each job from the first on: number, row, how many rows were looked at.
use crate::decimal;
use program_text::calls::{Call, CallError};
use program_text::read;
use program_text::read::part;
use shift_lookup::answers::answer_of;
use std::io::{Read, Write};

// A line for each of so many jobs, as far as there are numbers. The call is bad if there is none.
pub(crate) fn run<R: Read, W: Write>(
    input: &mut R,
    call: Call,
    line: &mut W,
) -> Result<(), CallError> {
    let [file_len, count, ..] = call.numbers;
    let mut file_buf = read::room::<{ read::FILE_ROOM }>();
    let file = part(input, &mut file_buf, file_len)?;
    if count == 0 {
        return Err(CallError::Bad);
    }
    for job in (call.job..=u32::MAX).take(count) {
        let search = shift_search::search(file, job);
        let found = answer_of(search.found);
        decimal::line(
            found.number as u64,
            &[found.row as u64, search.looked as u64],
            line,
        )?;
    }
    Ok(())
}
