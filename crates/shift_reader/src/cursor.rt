// A cursor into a shift file, by value: the file's entries one after another, for callers that have the file.
ghost use Rattle.std.specs.Prelude.{◌≡◌};
ghost use Rattle.shift_format.specs.Format.{row_size_of};
ghost use Rattle.shift_format.specs.Inside.{RowIn};
ghost use Rattle.shift_reader.specs.Reading.{rows_laid, listed_of, start_of, ask_of};

use shift_check::{check, check_head};
use shift_format::row::{FIRST_EDITION, NEWEST, Row, count, nonce_start, row_size_of, station_of};
use shift_lookup::found::row_of;

// The row that is next, and how many rows there are.
#[derive(Clone, Copy, PartialEq, Eq, Debug)]
pub struct Cursor {
    at: usize,
    end: usize,
}

// A row as the table has it: which one it is, its fields, its station (0 in edition 1), and where in the file its sixteen
// nonce bytes start.
#[derive(Clone, Copy, PartialEq, Eq, Debug)]
pub struct Listed {
    pub index: usize,
    pub row: Row,
    pub station: u32,
    pub nonce: usize,
}

// The result of a call, a row or the end of the rows, and the cursor after it.
#[derive(Clone, Copy, PartialEq, Eq, Debug)]
pub struct Stepped {
    pub next: Cursor,
    pub entry: Option<Listed>,
}

// A cursor at row 0. The file is checked here, once; one that does not pass has no rows.
pub fn start(file: &[u8]) -> Cursor
    ensures { result ≡ start_of file.now }
{
    match check(file) {
        Ok(()) => Cursor {
            at: 0,
            end: count(file),
        },
        Err(_) => Cursor { at: 0, end: 0 },
    }
}

// How many rows the header states; none if one of 20 to 24 applies.
fn laid(file: &[u8]) -> usize
    ensures { result ≡ rows_laid file.now }
{
    match check_head(FIRST_EDITION, NEWEST, file) {
        Ok(()) => count(file),
        Err(_) => 0,
    }
}

// A row, as it is listed.
pub(crate) fn listed_at(file: &[u8], index: usize) -> Listed
    requires { RowIn (row_size_of file.now) file.now index }
    ensures { result ≡ listed_of file.now index }
{
    Listed {
        index: index,
        row: row_of(file, index),
        station: station_of(file, index),
        nonce: nonce_start(row_size_of(file), index),
    }
}

// The next row, and the cursor after it. A cursor may come with any file, so 20 to 24 are checked again, which shows
// that the row lies in the file; the full check is not run again.
#[tactic(auto, unfolding(crate::specs::Reading::ask_of))]
pub fn ask(cursor: Cursor, file: &[u8]) -> Stepped
    ensures { result ≡ ask_of cursor file.now }
{
    let n = laid(file);
    if cursor.end != n || n <= cursor.at {
        return Stepped {
            next: cursor,
            entry: None,
        };
    }
    let row = listed_at(file, cursor.at);
    Stepped {
        next: Cursor {
            at: cursor.at + 1,
            end: cursor.end,
        },
        entry: Some(row),
    }
}
