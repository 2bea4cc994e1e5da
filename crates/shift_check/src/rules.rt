// The rules of one row: numbers 25 to 30, and 34.
ghost use Rattle.std.specs.Prelude.{◌≡◌, false, ◌&&◌, eqb, ◌+◌, ◌≤◌, ◌<◌, length};
ghost use Rattle.shift_format.specs.Format.{row_at};
ghost use Rattle.status.specs.Answers.{row_number_of};
ghost use Rattle.shift_check.specs.Check.{not_above, outside, bad_suite, bad_length, body_start, misplaced, unread_set, clash, nonce_seen};
ghost use Rattle.shift_check.specs.Check.{bad_data, body_number, row_number};
ghost use Rattle.shift_check.specs.Spared.{Spared};
ghost use Rattle.shift_check.specs.Marks.{Sieved};

use crate::table::Table;
use cipher::LIMIT;
use shift_format::row::{Row, body_end, get32};
use shift_limits::{MAX_AD, MAX_KEY, MIN_AD};
use status::checked::{Fault, RowCheck};

// 25: the job number is not above the row before's.
#[tactic(auto, unfolding(crate::specs::Check::not_above))]
fn not_above(table: &Table, index: usize) -> bool
    requires { index < table.now.rows }
    ensures { result ≡ not_above table.now.size table.now.file.now index }
{
    index != 0 && table.row(index).job <= table.row(index - 1).job
}

// The value is outside low to high.
pub(crate) fn outside(low: u16, high: u16, value: u16) -> bool
    ensures { result ≡ outside low high value }
{
    !(low..=high).contains(&value)
}

// 26: no such suite, or no such key.
#[tactic(auto, unfolding(crate::specs::Check::bad_suite))]
fn bad_suite(row: Row) -> bool
    ensures { result ≡ bad_suite row }
{
    !cipher::is_suite(row.suite) || MAX_KEY < row.key
}

// 27: associated data or message of a length that is not allowed.
#[tactic(auto, unfolding(crate::specs::Check::bad_length))]
fn bad_length(row: Row) -> bool
    ensures { result ≡ bad_length row }
{
    outside(MIN_AD, MAX_AD, row.ad_len) || LIMIT < row.text_len as usize
}

// 28: the body does not start where it has to, or ends past the file.
#[tactic(auto, unfolding(crate::specs::Check::misplaced))]
fn misplaced(table: &Table, index: usize, start: usize) -> bool
    requires { (index < table.now.rows) × (start ≡ body_start table.now.size table.now.file.now table.now.rows index) }
    ensures { result ≡ misplaced table.now.size table.now.file.now table.now.rows index }
{
    let row = table.row(index);
    row.ad_at as usize != start || table.file.len() < body_end(row)
}

// 34: a nonce byte that the suite does not read is not 0.
#[tactic(auto, unfolding(crate::specs::Check::unread_set))]
fn unread_set(table: &Table, index: usize, row: Row) -> bool
    requires { (index < table.now.rows) × (row ≡ row_at table.now.size table.now.file.now index) }
    ensures { result ≡ unread_set table.now.size table.now.file.now index }
{
    let stored = table.nonce(index);
    let read = table.read(index, row.suite);
    !block::same(stored, read)
}

// Two rows have the same suite and the same key number.
fn same_key(this: Row, earlier: Row) -> bool
    ensures { result ≡ (eqb this.suite earlier.suite && eqb this.key earlier.key) }
{
    this.suite == earlier.suite && this.key == earlier.key
}

// Two rows clash. The bytes that a suite does not read are zero (34), so comparing all sixteen bytes compares those that it reads.
fn clashes(table: &Table, index: usize, other: usize) -> bool
    requires { (index < table.now.rows) × ((other < table.now.rows)
        × ((unread_set table.now.size table.now.file.now index ≡ false) × (unread_set table.now.size table.now.file.now other ≡ false))) }
    ensures { result ≡ clash table.now.size table.now.file.now index other }
{
    let this = table.nonce(index);
    let earlier = table.nonce(other);
    block::same(this, earlier) && same_key(table.row(index), table.row(other))
}

// 29: the row clashes with an earlier one.
fn nonce_seen(table: &Table, index: usize) -> bool
    requires { (index < table.now.rows) × Spared table.now.size table.now.file.now (index + 1) }
    ensures { result ≡ nonce_seen table.now.size table.now.file.now index }
{
    for j in 0..index {
        if clashes(table, index, j) {
            return true;
        }
    }
    false
}

// 29, with the Bloom filter checked first: a row whose bits are not both set clashes with no earlier row.
fn seen_before(table: &Table, index: usize, marked: bool) -> bool
    requires { (index < table.now.rows) × (Spared table.now.size table.now.file.now (index + 1) × Sieved table.now.size table.now.file.now index marked) }
    ensures { result ≡ nonce_seen table.now.size table.now.file.now index }
{
    marked && nonce_seen(table, index)
}

// 30: the associated data has another job number, or no unit.
#[tactic(auto, unfolding(crate::specs::Check::bad_data))]
fn bad_data(file: &[u8], row: Row) -> bool
    requires { row.ad_at + 5 ≤ length file.now }
    ensures { result ≡ bad_data file.now row }
{
    let at = row.ad_at as usize;
    let unit = file[at + 4];
    get32(file, at) != row.job || (unit != 1 && unit != 2)
}

// 28, 34, 29 and 30, of a row.
#[tactic(auto, unfolding(crate::specs::Check::body_number))]
fn check_body(table: &Table, index: usize, row: Row, marked: bool, start: usize) -> RowCheck
    requires { (index < table.now.rows) × ((row ≡ row_at table.now.size table.now.file.now index) × ((bad_length row ≡ false)
        × (Spared table.now.size table.now.file.now index × (Sieved table.now.size table.now.file.now index marked
        × (start ≡ body_start table.now.size table.now.file.now table.now.rows index))))) }
    ensures { row_number_of result ≡ body_number table.now.size table.now.file.now table.now.rows index }
{
    if misplaced(table, index, start) {
        return Err(Fault::Place);
    }
    if unread_set(table, index, row) {
        return Err(Fault::Unread);
    }
    if seen_before(table, index, marked) {
        return Err(Fault::Nonce);
    }
    if bad_data(table.file, row) {
        return Err(Fault::Data);
    }
    Ok(())
}

// 25 to 28, 34, 29 and 30, of a row.
#[tactic(auto, unfolding(crate::specs::Check::row_number))]
pub(crate) fn check_row(table: &Table, index: usize, marked: bool, start: usize) -> RowCheck
    requires { (index < table.now.rows) × (Spared table.now.size table.now.file.now index × (Sieved table.now.size table.now.file.now index marked
        × (start ≡ body_start table.now.size table.now.file.now table.now.rows index))) }
    ensures { row_number_of result ≡ row_number table.now.size table.now.file.now table.now.rows index }
{
    let row = table.row(index);
    if not_above(table, index) {
        return Err(Fault::Order);
    }
    if bad_suite(row) {
        return Err(Fault::Suite);
    }
    if bad_length(row) {
        return Err(Fault::Length);
    }
    check_body(table, index, row, marked, start)
}
