// Two rows, compared as entries; each file has its own edition.
#![tactic(auto)]

ghost use Rattle.std.specs.Prelude.{◌≡◌, ◌-◌, ◌≤◌, length, take};
ghost use Rattle.block.specs.Bytes.{same_bytes};
ghost use Rattle.shift_format.specs.Part.{stretch};
ghost use Rattle.shift_format.specs.Format.{row_size_of, body_end};
ghost use Rattle.shift_format.specs.Inside.{EntryIn};
ghost use Rattle.shift_same.specs.Same.{same_fields, same_entry};

use block::{same, whole};
use shift_format::row::{Row, body_end, nonce_block, row_at, row_size_of, station_of, stretch};

// Whether the first sixteen bytes are equal, compared as blocks.
fn same_sixteen(first: &[u8], second: &[u8]) -> bool
    requires { (16 ≤ length first.now) × (16 ≤ length second.now) }
    ensures { result ≡ same_bytes (take 16 first.now) (take 16 second.now) }
{
    same(whole(&first[..16]), whole(&second[..16]))
}

// Whether all bytes are equal. The first sixteen come first, as blocks: bodies that differ there need no call of the library's `==`, which
// costs more than sixteen bytes are worth.
fn same_bytes(first: &[u8], second: &[u8]) -> bool
    ensures { result ≡ same_bytes first.now second.now }
{
    if first.len() != second.len() {
        return false;
    }
    if first.len() < 16 {
        return first == second;
    }
    same_sixteen(first, second) && first[16..] == second[16..]
}

// A row's body, as a part of the file.
fn body_of(file: &[u8], row: Row) -> &[u8]
    requires { body_end row ≤ length file.now }
    ensures { result.now ≡ stretch file.now row.ad_at (body_end row - row.ad_at) }
{
    let at = row.ad_at as usize;
    stretch(file, at, body_end(row) - at)
}

// Suite, key number and associated data length of two rows are equal.
#[tactic(auto, unfolding(crate::specs::Same::same_fields))]
fn same_fields(first: Row, second: Row) -> bool
    ensures { result ≡ same_fields first second }
{
    (first.suite, first.key, first.ad_len) == (second.suite, second.key, second.ad_len)
}

// Row i of the first file and row j of the second are the same entry. Nonces are compared as blocks: a call of the library's `==`
// costs more than sixteen bytes are worth. Inlined, since a merge asks it for each row.
#[inline(always)]
pub fn same_entry(first: &[u8], second: &[u8], i: usize, j: usize) -> bool
    requires { EntryIn (row_size_of first.now) first.now i × EntryIn (row_size_of second.now) second.now j }
    ensures { result ≡ same_entry first.now second.now i j }
{
    let first_size = row_size_of(first);
    let second_size = row_size_of(second);
    let first_row = row_at(first_size, first, i);
    let second_row = row_at(second_size, second, j);
    same_fields(first_row, second_row)
        && station_of(first, i) == station_of(second, j)
        && same(
            nonce_block(first_size, first, i),
            nonce_block(second_size, second, j),
        )
        && same_bytes(body_of(first, first_row), body_of(second, second_row))
}
