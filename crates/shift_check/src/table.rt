// The table of contents as the check goes through it.
ghost use Rattle.std.specs.Prelude.{◌≡◌, ◌≤◌, ◌<◌, take};
ghost use Rattle.block.specs.Blocks.{wide, filled};
ghost use Rattle.cipher.specs.Cipher.{nonce_of};
ghost use Rattle.shift_format.specs.Format.{row_at, nonce_at};
ghost use Rattle.shift_format.specs.Inside.{TableIn};
ghost use Rattle.shift_check.specs.Check.{body_start};

use block::Block;
use shift_format::row::{Row, body_end, nonce_block, read_block, row_at, row_start};

// A file and its table: `rows` rows of `size` bytes each, which lie in the file.
#[derive(Clone, Copy)]
pub(crate) struct Table<'a> {
    pub(crate) file: &'a [u8],
    pub(crate) size: usize,
    pub(crate) rows: usize,
    ghost lies: { TableIn size file.now rows },
}

impl Table<'_> {
    // A row.
    pub(crate) fn row(&self, index: usize) -> Row
        requires { index < self.now.rows }
        ensures { result ≡ row_at self.now.size self.now.file.now index }
    {
        row_at(self.size, self.file, index)
    }

    // Its nonce, as a block.
    pub(crate) fn nonce(&self, index: usize) -> Block
        requires { index < self.now.rows }
        ensures { wide result ≡ nonce_at self.now.size self.now.file.now index }
    {
        nonce_block(self.size, self.file, index)
    }

    // The nonce bytes that a suite reads, as a block padded with zeros.
    pub(crate) fn read(&self, index: usize, suite: u8) -> Block
        requires { index < self.now.rows }
        ensures { wide result ≡ filled (take (nonce_of suite) (nonce_at self.now.size self.now.file.now index)) }
    {
        read_block(self.size, self.file, index, suite)
    }

    // The offset at which the body of a row has to start. For an index equal to the number of rows: the offset at which the last body ends.
    #[tactic(auto, unfolding(crate::specs::Check::body_start))]
    pub(crate) fn body_start(&self, index: usize) -> usize
        requires { index ≤ self.now.rows }
        ensures { result ≡ body_start self.now.size self.now.file.now self.now.rows index }
    {
        if index == 0 {
            return row_start(self.size, self.rows);
        }
        body_end(self.row(index - 1))
    }
}
