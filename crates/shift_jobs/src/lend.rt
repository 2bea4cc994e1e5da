// The slices of a row that sealer, opener and verifier borrow: the entry's own part of the file, and its key.
ghost use Rattle.std.specs.Prelude.{◌≡◌, length, take};
ghost use Rattle.cipher.specs.Cipher.{nonce_of};
ghost use Rattle.status.specs.Verdicts.{number_of};
ghost use Rattle.comet.specs.Answers.{Sealed, Opened};
ghost use Rattle.shift_format.specs.Format.{row_size_of, row_of, nonce_at};
ghost use Rattle.shift_format.specs.Inside.{EntryIn};
ghost use Rattle.shift_jobs.specs.Opening.{ring_key, entry_sealing_as, entry_opening, entry_verifying};
ghost use Rattle.shift_jobs.specs.Inside.{Lendable};

use cipher::KEY_LEN;
use shift_format::body::{data_of, tag_of, text_of};
use shift_format::row::{Row, nonce_at, row_size_of, stretch};
use shift_lookup::found::row_of;
use status::verdict::Verdict;

// A row of a checked file, and the ring with its key: what every function here borrows from.
#[derive(Clone, Copy)]
pub struct Lent<'a> {
    pub file: &'a [u8],
    pub ring: &'a [u8],
    pub index: usize,
    pub row: Row,
    pub ghost lendable: { Lendable file.now ring.now index row },
}

impl<'a> Lent<'a> {
    // A row of a file that passed the check, and a ring of 256 bytes.
    pub fn new(file: &'a [u8], ring: &'a [u8], index: usize) -> Lent<'a>
        requires { EntryIn (row_size_of file.now) file.now index × (length ring.now ≡ 256) }
        ensures { (result.file ≡ file.entry) × (result.ring ≡ ring.entry) × (result.index ≡ index)
            × (result.row ≡ row_of file.now index) }
    {
        Lent {
            file: file,
            ring: ring,
            index: index,
            row: row_of(file, index),
        }
    }

    // The key of the row.
    fn key(&self) -> &'a [u8]
        ensures { result.now ≡ ring_key self.now.ring.now self.now.row.key }
    {
        let k = self.row.key as usize;
        stretch(self.ring, KEY_LEN * k, KEY_LEN)
    }

    // The nonce bytes of the row that a suite reads.
    fn nonce(&self, suite: u8) -> &'a [u8]
        ensures { result.now ≡ take (nonce_of suite) (nonce_at (row_size_of self.now.file.now) self.now.file.now self.now.index) }
    {
        let nonce = nonce_at(row_size_of(self.file), self.file, self.index);
        stretch(nonce, 0, cipher::nonce_size(suite))
    }

    // Seals a text in place with the key, nonce and associated data of the row, under a suite that the caller chooses.
    pub fn seal_as(&self, suite: u8, text: &mut [u8], tag: &mut [u8]) -> Verdict
        ensures { ◌≡◌ {A = Sealed} (record { number = number_of result; out = text.new; tag = tag.new })
            (entry_sealing_as self.now.file.now self.now.ring.now self.now.index suite text.old text.old tag.old) }
    {
        let ad = data_of(self.file, self.row);
        comet::seal_in_place(suite, self.key(), self.nonce(suite), ad, text, tag)
    }

    // Opens the row.
    pub fn open(&self, out: &mut [u8]) -> Verdict
        ensures { ◌≡◌ {A = Opened} (record { number = number_of result; out = out.new })
            (entry_opening self.now.file.now self.now.ring.now self.now.index out.old) }
    {
        let Lent { file, row, .. } = *self;
        comet::unseal(
            row.suite,
            self.key(),
            self.nonce(row.suite),
            data_of(file, row),
            text_of(file, row),
            tag_of(file, row),
            out,
        )
    }

    // Verifies the row: no text is written.
    pub fn verify(&self) -> Verdict
        ensures { number_of result ≡ entry_verifying self.now.file.now self.now.ring.now self.now.index }
    {
        let Lent { file, row, .. } = *self;
        comet::verify(
            row.suite,
            self.key(),
            self.nonce(row.suite),
            data_of(file, row),
            text_of(file, row),
            tag_of(file, row),
        )
    }
}
