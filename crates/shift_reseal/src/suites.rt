// The table after resealing: 3 for 4 in its suite bytes, and the first of its rows that clashes.
ghost use Rattle.std.specs.Prelude.{◌≡◌, ◌&&◌, ◌<◌, eqb};
ghost use Rattle.std.specs.Option.{option_map_or};
ghost use Rattle.status.specs.Answers.{answer};
ghost use Rattle.block.specs.Blocks.{wide};
ghost use Rattle.shift_format.specs.Format.{row_size_of, nonce_at};
ghost use Rattle.shift_check.specs.Check.{clash, nonce_seen};
ghost use Rattle.shift_format.specs.Inside.{RowIn, TableIn};
ghost use Rattle.shift_reseal.specs.Files.{new_suite, resuited, retabled};
ghost use Rattle.shift_reseal.specs.Answers.{seen_from};
ghost use Rattle.shift_reseal.specs.Inside.{Passing};

use block::{Block, same};
use cipher::RETIRED;
use shift_format::row::{Row, nonce_block, row_size_of, set_suite};
use shift_lookup::found::row_of;

// The suite that follows the retired one.
pub(crate) const SUCCESSOR: u8 = 3;

// The suite byte of a row after resealing: a byte as the file stores it, whatever suite it names.
fn new_suite(suite: u8) -> u8
    ensures { result ≡ new_suite suite }
{
    if suite == RETIRED { SUCCESSOR } else { suite }
}

// The new suites of the file's rows, into the table of `out`.
pub(crate) fn put_suites(file: &[u8], rows: usize, out: &mut [u8])
    requires { TableIn (row_size_of file.now) file.now rows × TableIn (row_size_of file.now) out.old rows }
    ensures { out.new ≡ resuited file.now rows out.old }
{
    for i in 0..rows {
        let row = row_of(file, i);
        set_suite(row_size_of(file), out, i, new_suite(row.suite));
    }
}

// Two rows have the same new suite and the same key number: new suites that differ, or the key numbers' own comparison.
fn same_key(this: Row, earlier: Row) -> bool
    ensures { result ≡ (eqb (new_suite this.suite) (new_suite earlier.suite) && eqb this.key earlier.key) }
{
    new_suite(this.suite) == new_suite(earlier.suite) && this.key == earlier.key
}

// The nonce of a row as a block.
fn nonce_of(file: &[u8], index: usize) -> Block
    requires { RowIn (row_size_of file.now) file.now index }
    ensures { wide result ≡ nonce_at (row_size_of file.now) file.now index }
{
    nonce_block(row_size_of(file), file, index)
}

// Two rows clash in the table after resealing. The bytes that a suite does not read are zero (34), so comparing all sixteen bytes compares those that it reads.
fn clashes(file: &[u8], rows: usize, index: usize, other: usize) -> bool
    requires { Passing file.now rows × ((index < rows) × (other < rows)) }
    ensures { result ≡ clash (row_size_of (retabled file.now)) (retabled file.now) index other }
{
    if same(nonce_of(file, index), nonce_of(file, other)) {
        return same_key(row_of(file, index), row_of(file, other));
    }
    false
}

// A row clashes with an earlier one in the table after resealing.
fn nonce_seen(file: &[u8], rows: usize, index: usize) -> bool
    requires { Passing file.now rows × (index < rows) }
    ensures { result ≡ nonce_seen (row_size_of (retabled file.now)) (retabled file.now) index }
{
    for j in 0..index {
        if clashes(file, rows, index, j) {
            return true;
        }
    }
    false
}

// 29 for the table after resealing, from the file's own rows: no table is copied.
pub(crate) fn first_clash(file: &[u8], rows: usize) -> Option<usize>
    requires { Passing file.now rows }
    ensures { option_map_or (answer 29) result (answer 0 0) ≡ seen_from (retabled file.now) rows 0 }
{
    (0..rows).find(|i| nonce_seen(file, rows, *i))
}
