// The table of contents by row number: the header's edition and row count, and the fields of one row. Both check 20 to 24 alone.
ghost use Rattle.std.specs.Prelude.{◌≡◌, ◌<◌, Ok};
ghost use Rattle.status.specs.Answers.{refusal_answer};
ghost use Rattle.shift_lookup.specs.Answers.{lookup_error_answer};
ghost use Rattle.shift_reader.specs.Contents.{header_told, header_answer, row_told, fields_of, row_answer, error_row};

use crate::cursor::{Listed, listed_at};
use shift_check::check_head;
use shift_format::row::{FIRST_EDITION, NEWEST, count, get16};
use shift_lookup::answers::LookupError;
use status::checked::Refusal;

// The edition and the number of rows.
#[derive(Clone, Copy, PartialEq, Eq, Debug)]
pub struct HeaderFields {
    pub edition: u32,
    pub count: u32,
}

// The fields of a row, with the offsets in the file of its nonce, associated data and text.
#[derive(Clone, Copy, PartialEq, Eq, Debug)]
pub struct RowFields {
    pub job: u32,
    pub station: u32,
    pub suite: u32,
    pub key_number: u32,
    pub nonce_at: u32,
    pub ad_at: u32,
    pub ad_len: u32,
    pub text_at: u32,
    pub text_len: u32,
}

// The edition and the number of rows of a shift file, or one of 20 to 24.
pub fn header(file: &[u8]) -> Result<HeaderFields, Refusal>
    ensures { (header_told result ≡ header_answer file.now) × (error_row refusal_answer result ≡ 0) }
{
    check_head(FIRST_EDITION, NEWEST, file)?;
    Ok(HeaderFields {
        edition: get16(file, 0) as u32,
        count: count(file) as u32,
    })
}

// The fields of a listed row. The text's offset is a 32-bit sum that wraps: a row that was not checked may hold any offset.
fn fields_of(listed: Listed) -> RowFields
    requires { listed.nonce < 0x1_0000_0000 }
    ensures { row_told (Ok result) ≡ fields_of listed }
{
    let row = listed.row;
    RowFields {
        job: row.job,
        station: listed.station,
        suite: row.suite as u32,
        key_number: row.key as u32,
        nonce_at: listed.nonce as u32,
        ad_at: row.ad_at,
        ad_len: row.ad_len as u32,
        text_at: row.ad_at.wrapping_add(row.ad_len as u32),
        text_len: row.text_len,
    }
}

// The fields of the row at an index: one of 20 to 24, or 32 if the file has no such row.
pub fn row(file: &[u8], index: u32) -> Result<RowFields, LookupError>
    ensures { (row_told result ≡ row_answer file.now index) × (error_row lookup_error_answer result ≡ 0) }
{
    check_head(FIRST_EDITION, NEWEST, file)?;
    let at = index as usize;
    if count(file) <= at {
        return Err(LookupError::Missing);
    }
    Ok(fields_of(listed_at(file, at)))
}
