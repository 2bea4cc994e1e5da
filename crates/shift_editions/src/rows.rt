// The rows, rewritten from one edition's layout to the other's.
ghost use Rattle.std.specs.Prelude.{◌≡◌, ◌<◌, length};
ghost use Rattle.shift_editions.specs.Files.{carried, moved_row, moved_rows, moved_from};
ghost use Rattle.shift_editions.specs.Inside.{Movable};

use crate::front::Front;
use shift_format::row::{rest_start, row_at, row_start, stretch};

// The bytes of a row that has no station.
const PLAIN_ROW: usize = 32;

// A move: rows of `from` bytes become rows of `to` bytes.
#[derive(Clone, Copy)]
pub(crate) struct Move<'a> {
    pub(crate) from: usize,
    pub(crate) to: usize,
    pub(crate) file: &'a [u8],
    pub(crate) rows: usize,
    pub(crate) ghost few: { rows < 65536 },
    pub(crate) ghost movable: { Movable from to file.now rows },
}

impl Move<'_> {
    ghost use Rattle.std.specs.Prelude.{◌+◌, ◌++◌, ◌≤◌};
    ghost use Rattle.block.specs.Bytes.{bytes};
    ghost use Rattle.shift_format.specs.Format.{row_start, row_at};
    ghost use Rattle.shift_editions.specs.Appended.{Appended};

    // The offset of row i's body after the move.
    fn offset(&self, index: usize) -> u32
        requires { index < self.now.rows }
        ensures { result ≡ carried self.now.from self.now.to self.now.rows (row_at self.now.from self.now.file.now index).ad_at }
    {
        let row = row_at(self.from, self.file, index);
        let at = row.ad_at as usize;
        let old = row_start(self.from, self.rows);
        let new = row_start(self.to, self.rows);
        (at - old + new) as u32
    }

    // Appends a row: its job number, a station of 0 if the new edition has stations, and the rest.
    fn put_row(&self, index: usize, front: &mut Front)
        requires { (index < self.now.rows) × (front.old.at + self.now.to ≤ length front.old.out.now) }
        ensures { Appended front.old front.new (moved_row self.now.from self.now.to self.now.file.now self.now.rows index) }
    {
        let start = row_start(self.from, index);
        let rest = rest_start(self.from, index);
        front.put(stretch(self.file, start, 4));
        front.put_zeros(self.to - PLAIN_ROW);
        front.put(stretch(self.file, rest, 4));
        front.put(&self.offset(index).to_le_bytes());
        front.put(stretch(self.file, rest + 8, 20));
    }

    // Appends all rows.
    fn put_rows(&self, front: &mut Front)
        requires { front.old.at + row_start self.now.to self.now.rows ≤ length front.old.out.now + 8 }
        ensures { Appended front.old front.new (moved_rows self.now.from self.now.to self.now.file.now self.now.rows self.now.rows) }
    {
        for index in 0..self.rows {
            self.put_row(index, front);
        }
    }

    // Appends the header: edition, row count, and the output's own length.
    fn put_header(&self, edition: u16, front: &mut Front)
        requires { (front.old.at + 8 ≤ length front.old.out.now) × (length front.old.out.now < 0x1_0000_0000) }
        ensures { Appended front.old front.new (bytes 2 edition ++ (bytes 2 self.now.rows ++ bytes 4 (length front.old.out.now))) }
    {
        let total = front.out.len() as u32;
        front.put(&edition.to_le_bytes());
        front.put(&(self.rows as u16).to_le_bytes());
        front.put(&total.to_le_bytes());
    }

    // Writes header, rows and bodies.
    pub(crate) fn put_file(&self, edition: u16, out: &mut [u8])
        requires { length out.old ≡ carried self.now.from self.now.to self.now.rows (length self.now.file.now) }
        ensures { out.new ≡ moved_from edition self.now.from self.now.to self.now.file.now self.now.rows }
    {
        let bodies = row_start(self.from, self.rows);
        let mut front = Front { out, at: 0 };
        self.put_header(edition, &mut front);
        self.put_rows(&mut front);
        front.put(stretch(self.file, bodies, self.file.len() - bodies));
    }
}
