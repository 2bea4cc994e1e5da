// A supplier's file: `inspect` (document 02, W14).
use shift_limits::MAX_ROWS;
use status::checked::Refuses;
use std::io;
use std::io::Write;

// The first `count` jobs, each with its number, one to a line.
fn list<W: Write>(out: &mut W, jobs: &[u32], numbers: &[u8], count: usize) -> io::Result<()> {
    for (job, number) in jobs.iter().zip(numbers).take(count) {
        writeln!(out, "{job} {number}")?;
    }
    Ok(())
}

// "entries" and their number, and then a line for each: its job number and 0 if its tag is right under the ring, 8
// if it is wrong; on a refusal one line, "refused", status and row. A file has at most 512 rows, so no list is too short.
pub fn write_inspect<W: Write>(file: &[u8], ring: &[u8], out: &mut W) -> io::Result<()> {
    let mut jobs = [0u32; MAX_ROWS];
    let mut numbers = [0u8; MAX_ROWS];
    match shift_report::report(file, ring, &mut jobs, &mut numbers) {
        Ok(count) => {
            writeln!(out, "entries {count}")?;
            list(out, &jobs, &numbers, count)
        }
        Err(error) => {
            let answer = error.answer();
            writeln!(out, "refused {} {}", answer.number, answer.row)
        }
    }
}
