// The row that a lookup found, and its entry: the file is not checked again.
ghost use Rattle.std.specs.Prelude.{◌≡◌};
ghost use Rattle.shift_format.specs.Format.{row_size_of, row_of};
ghost use Rattle.shift_format.specs.Inside.{RowIn};
ghost use Rattle.shift_lookup.specs.Answers.{found_answer};
ghost use Rattle.shift_lookup.specs.Entry.{entry_answer, entry_at};
ghost use Rattle.shift_lookup.specs.Inside.{FoundIn};

use crate::answers::{Entry, Found, LookupError};
use shift_format::row::{Row, row_at, row_size_of};

// A row of a shift file, by its index.
pub fn row_of(file: &[u8], index: usize) -> Row
    requires { RowIn (row_size_of file.now) file.now index }
    ensures { result ≡ row_of file.now index }
{
    row_at(row_size_of(file), file, index)
}

// The row that a lookup found, and offsets and lengths of the row's associated data and its text.
pub fn entry_found(file: &[u8], found: Found) -> Result<Entry, LookupError>
    requires { FoundIn file.now (found_answer found) }
    ensures { entry_answer result ≡ entry_at file.now (found_answer found) }
{
    let index = found?;
    let row = row_of(file, index);
    Ok(Entry {
        row: index,
        ad_at: row.ad_at,
        ad_len: row.ad_len as u32,
        text_at: row.ad_at + row.ad_len as u32,
        text_len: row.text_len,
    })
}
