// The table of contents: numbers, rows and nonces as they lie in the file. A row's size is its bytes in the file's edition.
ghost use Rattle.std.specs.Prelude.{◌≡◌, ◌+◌, ◌≤◌, ◌<◌, length, take, set};
ghost use Rattle.block.specs.Bytes.{word};
ghost use Rattle.block.specs.Blocks.{wide, filled};
ghost use Rattle.cipher.specs.Cipher.{nonce_of};
ghost use Rattle.shift_format.specs.Part.{PartOf};
ghost use Rattle.shift_format.specs.Format.{count_of, row_size, row_size_of, row_start, rest_start, row_at, station_of, nonce_start, nonce_at, body_end};
ghost use Rattle.shift_format.specs.Inside.{RowIn};

use block::Block;

// A row without its nonce. The body starts with the associated data, at `ad_at`.
#[derive(Clone, Copy, PartialEq, Eq, Debug)]
pub struct Row {
    pub job: u32,
    pub suite: u8,
    pub key: u8,
    pub ad_len: u16,
    pub ad_at: u32,
    pub text_len: u32,
}

// The two bytes from `at` as a number.
pub fn get16(file: &[u8], at: usize) -> u16
    requires { at + 2 ≤ length file.now }
    ensures { result ≡ word 2 file.now at }
{
    word::le16(file[at], file[at + 1])
}

// The four bytes from `at` as a number.
pub fn get32(file: &[u8], at: usize) -> u32
    requires { at + 4 ≤ length file.now }
    ensures { result ≡ word 4 file.now at }
{
    word::le32(file[at], file[at + 1], file[at + 2], file[at + 3])
}

// The number of rows that the header states.
pub fn count(file: &[u8]) -> usize
    requires { 8 ≤ length file.now }
    ensures { result ≡ count_of file.now }
{
    get16(file, 2) as usize
}

// The first edition of a shift file, which the writer writes, and the newest; readers accept both.
pub const FIRST_EDITION: u16 = 1;

pub const NEWEST: u16 = 2;

// The bytes of a row, in an edition.
#[tactic(auto, unfolding(crate::specs::Format::row_size))]
pub fn row_size(edition: u16) -> usize
    ensures { result ≡ row_size edition }
{
    if edition == NEWEST { 36 } else { 32 }
}

// The bytes of a row, in the file's own edition.
pub fn row_size_of(file: &[u8]) -> usize
    requires { 8 ≤ length file.now }
    ensures { result ≡ row_size_of file.now }
{
    row_size(get16(file, 0))
}

// The offset of a row, by its index. For an index equal to the number of rows: the offset of the first body.
#[tactic(auto, unfolding(crate::specs::Format::row_start))]
pub fn row_start(size: usize, index: usize) -> usize
    requires { row_start size index < 0x1_0000_0000_0000_0000 }
    ensures { result ≡ row_start size index }
{
    8 + size * index
}

// The offset of the rest of a row, after job number and station.
#[tactic(auto, unfolding(crate::specs::Format::rest_start))]
pub fn rest_start(size: usize, index: usize) -> usize
    requires { (28 ≤ size) × (row_start size index + size < 0x1_0000_0000_0000_0000) }
    ensures { (result ≡ rest_start size index) × (result + 28 ≡ row_start size index + size) }
{
    row_start(size, index) + (size - 28)
}

// The offset of a row's nonce, its last sixteen bytes.
#[tactic(auto, unfolding(crate::specs::Format::nonce_start))]
pub fn nonce_start(size: usize, index: usize) -> usize
    requires { (28 ≤ size) × (row_start size index + size < 0x1_0000_0000_0000_0000) }
    ensures { (result ≡ nonce_start size index) × (result + 16 ≡ row_start size index + size) }
{
    rest_start(size, index) + 12
}

// A row of the table. Row size, file and index are no struct: a caller reads one row of it, and would build the struct for one call.
// The check, which goes over all rows, has its own (`shift_check::table`).
#[tactic(auto, unfolding(crate::specs::Format::row_at))]
pub fn row_at(size: usize, file: &[u8], index: usize) -> Row
    requires { RowIn size file.now index }
    ensures { result ≡ row_at size file.now index }
{
    let start = row_start(size, index);
    let rest = rest_start(size, index);
    Row {
        job: get32(file, start),
        suite: file[rest],
        key: file[rest + 1],
        ad_len: get16(file, rest + 2),
        ad_at: get32(file, rest + 4),
        text_len: get32(file, rest + 8),
    }
}

// The station of a row of a shift file; 0 if its edition has none.
pub fn station_of(file: &[u8], index: usize) -> u32
    requires { RowIn (row_size_of file.now) file.now index }
    ensures { result ≡ station_of file.now index }
{
    let size = row_size_of(file);
    if size == 32 {
        return 0;
    }
    get32(file, row_start(size, index) + 4)
}

// Replaces the suite byte of a row.
pub fn set_suite(size: usize, file: &mut [u8], index: usize, suite: u8)
    requires { RowIn size file.old index }
    ensures { file.new ≡ set file.old (rest_start size index) suite }
{
    file[rest_start(size, index)] = suite;
}

// The len bytes from `at`, as a part of the file.
pub fn stretch(file: &[u8], at: usize, len: usize) -> &[u8]
    requires { at + len ≤ length file.now }
    ensures { PartOf file.entry result at len × (length result.now ≡ len) }
{
    &file[at..at + len]
}

// The nonce of a row, as a part of the file.
pub fn nonce_at(size: usize, file: &[u8], index: usize) -> &[u8]
    requires { RowIn size file.now index }
    ensures { PartOf file.entry result (nonce_start size index) 16 × (length result.now ≡ 16) }
{
    stretch(file, nonce_start(size, index), 16)
}

// The nonce of a row as a block.
pub fn nonce_block(size: usize, file: &[u8], index: usize) -> Block
    requires { RowIn size file.now index }
    ensures { wide result ≡ nonce_at size file.now index }
{
    byte_runs::filled(nonce_at(size, file, index))
}

// The nonce bytes that the row's suite reads, as a block padded with zeros.
pub fn read_block(size: usize, file: &[u8], index: usize, suite: u8) -> Block
    requires { RowIn size file.now index }
    ensures { wide result ≡ filled (take (nonce_of suite) (nonce_at size file.now index)) }
{
    byte_runs::filled(stretch(file, nonce_start(size, index), cipher::nonce_size(suite)))
}

// The offset at which a row's body ends.
#[tactic(auto, unfolding(crate::specs::Format::body_end))]
pub fn body_end(row: Row) -> usize
    ensures { result ≡ body_end row }
{
    let at = row.ad_at as usize;
    let ad = row.ad_len as usize;
    let len = row.text_len as usize;
    at + ad + len + cipher::size_of(row.suite)
}
