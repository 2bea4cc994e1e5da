// The rows, from the file into the output: text and tag of each are replaced.
ghost use Rattle.std.specs.Prelude.{◌≡◌, true, ◌≤◌, length};
ghost use Rattle.std.specs.Result.{is_ok};
ghost use Rattle.cipher.specs.Cipher.{Seals};
ghost use Rattle.shift_format.specs.Format.{row_of};
ghost use Rattle.shift_draft.specs.Put.{put, put_all};
ghost use Rattle.shift_draft.specs.Files.{in_edition, piece_start, sealed_piece, draft_piece};
ghost use Rattle.shift_draft.specs.Answers.{tag_right, wrong_from, leaves, FileWritten};
ghost use Rattle.shift_writer.specs.Answers.{written_answer};
ghost use Rattle.shift_writer.specs.Inside.{RowsSeal, Writable, RowWritable};

use crate::answers::{WriteError, Written};
use byte_runs::{copy, wipe};
use shift_format::body::{text_of, text_start};
use shift_jobs::lend::Lent;
use shift_piece::seal_into;
use status::verdict::Verdict;

// Writes the edition, in the first two bytes.
pub(crate) fn put_edition(edition: u16, out: &mut [u8])
    requires { 2 ≤ length out.old }
    ensures { out.new ≡ in_edition edition out.old }
{
    out[0..2].copy_from_slice(&edition.to_le_bytes());
}

// Seals row i of a draft at its offset in the output, after copying its text there.
fn seal_entry(file: &[u8], ring: &[u8], index: usize, out: &mut [u8])
    requires { RowWritable file.now index ring.now out.old × Seals (row_of file.now index).suite }
    ensures { out.new ≡ put out.old (piece_start file.now index)
        (sealed_piece file.now ring.now index) }
{
    let lent = Lent::new(file, ring, index);
    let row = lent.row;
    let len = row.text_len as usize;
    let n = cipher::size_of(row.suite);
    let start = text_start(row);
    let tag_start = start + len;
    let end = tag_start + n;
    copy(text_of(file, row), &mut out[start..tag_start]);
    seal_into(&lent, row.suite, &mut out[start..end]);
}

// Seals the n rows of a draft into the output.
pub(crate) fn seal_rows(file: &[u8], rows: usize, ring: &[u8], out: &mut [u8])
    requires { Writable file.now rows ring.now out.old × RowsSeal file.now rows }
    ensures { out.new ≡ put_all (piece_start file.now) (sealed_piece file.now ring.now) rows out.old }
{
    for i in 0..rows {
        seal_entry(file, ring, i, out);
    }
}

// Opens row i of a file into the output, and zeros its tag there; a refusal if the tag is wrong.
fn unseal_entry(file: &[u8], ring: &[u8], index: usize, out: &mut [u8]) -> Verdict
    requires { RowWritable file.now index ring.now out.old }
    ensures right { is_ok result ≡ tag_right file.now ring.now index }
    ensures text { is_ok result ≡ true → out.new ≡ put out.old (piece_start file.now index)
        (draft_piece file.now ring.now index) }
{
    let lent = Lent::new(file, ring, index);
    let row = lent.row;
    let len = row.text_len as usize;
    let n = cipher::size_of(row.suite);
    let start = text_start(row);
    let tag_start = start + len;
    let end = tag_start + n;
    lent.open(&mut out[start..tag_start])?;
    wipe(&mut out[tag_start..end]);
    Ok(())
}

// Opens the n rows of a file into the output; the first whose tag is wrong sets all of it to 0.
pub(crate) fn unseal_rows(file: &[u8], rows: usize, ring: &[u8], out: &mut [u8]) -> Written
    requires { Writable file.now rows ring.now out.old }
    ensures { ◌≡◌ {A = FileWritten} (record { answer = written_answer result; out = out.new })
        (leaves (wrong_from file.now ring.now rows 0)
        (put_all (piece_start file.now) (draft_piece file.now ring.now) rows out.old) out.old) }
{
    for i in 0..rows {
        if unseal_entry(file, ring, i, out).is_err() {
            wipe(out);
            return Err(WriteError::Forged(i));
        }
    }
    Ok(())
}
