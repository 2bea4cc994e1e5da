// A row's body: associated data, text and tag, as parts of the file.
ghost use Rattle.std.specs.Prelude.{◌≡◌, ◌+◌, ◌≤◌, length};
ghost use Rattle.cipher.specs.Cipher.{size_of};
ghost use Rattle.shift_format.specs.Part.{PartOf};
ghost use Rattle.shift_format.specs.Format.{body_end};

use crate::row::{Row, stretch};

// The offset of a row's text, after its associated data.
pub fn text_start(row: Row) -> usize
    ensures { result ≡ row.ad_at + row.ad_len }
{
    let at = row.ad_at as usize;
    let ad = row.ad_len as usize;
    at + ad
}

// A row's associated data.
#[tactic(auto, unfolding(crate::specs::Format::body_end))]
pub fn data_of(file: &[u8], row: Row) -> &[u8]
    requires { body_end row ≤ length file.now }
    ensures { PartOf file.entry result row.ad_at row.ad_len }
{
    stretch(file, row.ad_at as usize, row.ad_len as usize)
}

// A row's text.
#[tactic(auto, unfolding(crate::specs::Format::body_end))]
pub fn text_of(file: &[u8], row: Row) -> &[u8]
    requires { body_end row ≤ length file.now }
    ensures { PartOf file.entry result (row.ad_at + row.ad_len) row.text_len }
{
    stretch(file, text_start(row), row.text_len as usize)
}

// A row's tag.
#[tactic(auto, unfolding(crate::specs::Format::body_end))]
pub fn tag_of(file: &[u8], row: Row) -> &[u8]
    requires { body_end row ≤ length file.now }
    ensures { PartOf file.entry result (row.ad_at + row.ad_len + row.text_len) (size_of row.suite) }
{
    let len = row.text_len as usize;
    stretch(file, text_start(row) + len, cipher::size_of(row.suite))
}
