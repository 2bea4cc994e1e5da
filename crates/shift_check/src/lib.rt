// The table of contents of the plant's shift file: its rows, and the full check.
#![tactic(auto)]

mod marks;
mod rules;
mod table;

ghost use Rattle.std.specs.Prelude.{◌≡◌};
ghost use Rattle.status.specs.Answers.{answer, checked_answer};
ghost use Rattle.shift_check.specs.Check.{head_number, rows_from, check_between, check_as, check_file};

use marks::{has, mark, put};
use rules::{check_row, outside};
use shift_format::row::{
    FIRST_EDITION, NEWEST, count, get16, get32, row_size, row_size_of, row_start,
};
use shift_limits::{HEADER_LEN, MAX_FILE, MAX_ROWS};
use status::checked::{Checked, Refusal};
use table::Table;

// The first of 20 to 24 that applies; editions from low to high are accepted.
#[tactic(auto, unfolding(crate::specs::Check::head_number))]
pub fn check_head(low: u16, high: u16, file: &[u8]) -> Checked
    ensures { checked_answer result ≡ answer (head_number low high file.now) 0 }
{
    if !(HEADER_LEN..=MAX_FILE).contains(&file.len()) {
        return Err(Refusal::Size);
    }
    let edition = get16(file, 0);
    if outside(low, high, edition) {
        return Err(Refusal::Edition);
    }
    let n = count(file);
    if MAX_ROWS < n {
        return Err(Refusal::Count);
    }
    if get32(file, 4) as usize != file.len() {
        return Err(Refusal::Total);
    }
    if file.len() < row_start(row_size(edition), n) {
        return Err(Refusal::Table);
    }
    Ok(())
}

// The rows, each with 25 to 30 and 34, and then 31. The loop carries the offset at which the next body has to start, and the Bloom filter of the rows so far.
fn check_rows(table: &Table) -> Checked
    ensures { checked_answer result ≡ rows_from table.now.size table.now.file.now table.now.rows 0 }
{
    let mut start = table.body_start(0);
    let mut seen = [0u64; 128];
    for i in 0..table.rows {
        let hash = mark(table, i);
        let marked = has(&seen, hash);
        // No `map_err(..)?`: of a closure that borrows `i`, the proof of the loop names neither `i` nor the result.
        match check_row(table, i, marked, start) {
            Err(fault) => return Err(Refusal::InRow(fault, i)),
            Ok(()) => {}
        }
        put(&mut seen, hash);
        start = table.body_start(i + 1);
    }
    if start != table.file.len() {
        return Err(Refusal::End);
    }
    Ok(())
}

// The full check of a file of one of the editions from low to high.
pub fn check_between(low: u16, high: u16, file: &[u8]) -> Checked
    ensures { checked_answer result ≡ check_between low high file.now }
{
    check_head(low, high, file)?;
    let table = Table {
        file,
        size: row_size_of(file),
        rows: count(file),
    };
    check_rows(&table)
}

// The full check of a file of an edition.
pub fn check_as(edition: u16, file: &[u8]) -> Checked
    ensures { checked_answer result ≡ check_as edition file.now }
{
    check_between(edition, edition, file)
}

// The full check of a shift file: numbers 20 to 31, and 34.
pub fn check(file: &[u8]) -> Checked
    ensures { checked_answer result ≡ check_file file.now }
{
    check_between(FIRST_EDITION, NEWEST, file)
}
