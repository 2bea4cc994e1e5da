// Two files compared: `differ` (document 02, W8).
use shift_limits::MAX_ROWS;
use std::io;
use std::io::Write;

// A name, and the first `count` jobs of a list, one to a line.
fn list<W: Write>(out: &mut W, name: &str, jobs: &[u32], count: usize) -> io::Result<()> {
    writeln!(out, "{name}")?;
    for job in jobs.iter().take(count) {
        writeln!(out, "{job}")?;
    }
    Ok(())
}

// The jobs only in the first, only in the second, and in both but different, one number to a line, under the lines "first",
// "second" and "differ"; on a refusal one line, "refused", file, number and row. A file has at most 512 rows, so no list is
// longer.
pub fn write_differ<W: Write>(first: &[u8], second: &[u8], out: &mut W) -> io::Result<()> {
    let mut only_first = [0u32; MAX_ROWS];
    let mut only_second = [0u32; MAX_ROWS];
    let mut differ = [0u32; MAX_ROWS];
    let compared = shift_compare::compare(
        first,
        second,
        &mut only_first,
        &mut only_second,
        &mut differ,
    );
    match compared {
        Ok(counts) => {
            list(out, "first", &only_first, counts.first)?;
            list(out, "second", &only_second, counts.second)?;
            list(out, "differ", &differ, counts.differ)
        }
        Err(_) => {
            let refused = shift_compare::said(compared);
            writeln!(
                out,
                "refused {} {} {}",
                refused.file, refused.number, refused.row
            )
        }
    }
}
