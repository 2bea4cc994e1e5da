// The suite 4 entries, from the file into the output: opened, and sealed again as suite 3.
ghost use Rattle.std.specs.Prelude.{◌≡◌, true, not};
ghost use Rattle.std.specs.Result.{is_ok};
ghost use Rattle.shift_draft.specs.Put.{put, put_all};
ghost use Rattle.shift_draft.specs.Files.{piece_start};
ghost use Rattle.shift_draft.specs.Answers.{tag_right, leaves, FileWritten};
ghost use Rattle.shift_writer.specs.Answers.{written_answer};
ghost use Rattle.shift_writer.specs.Inside.{Writable, RowWritable};
ghost use Rattle.shift_reseal.specs.Files.{again_piece};
ghost use Rattle.shift_reseal.specs.Answers.{wrong_again, wrong_again_from};
ghost use Rattle.shift_reseal.specs.Inside.{Resealable};

use crate::suites::SUCCESSOR;
use byte_runs::wipe;
use cipher::RETIRED;
use shift_format::body::text_start;
use shift_jobs::lend::Lent;
use shift_piece::seal_into;
use shift_writer::answers::{WriteError, Written};
use status::verdict::Verdict;

// Opens a row at its own offset in the output and seals it there; a refusal if the tag is wrong. The message is written nowhere else.
fn reseal_entry(lent: &Lent, out: &mut [u8]) -> Verdict
    requires { Resealable lent.now.file.now lent.now.index lent.now.row lent.now.ring.now out.old }
    ensures right { is_ok result ≡ tag_right lent.now.file.now lent.now.ring.now lent.now.index }
    ensures text { is_ok result ≡ true → out.new ≡ put out.old (piece_start lent.now.file.now lent.now.index)
        (again_piece lent.now.file.now lent.now.ring.now lent.now.index) }
{
    let row = lent.row;
    let len = row.text_len as usize;
    let whole = len + cipher::size_of(SUCCESSOR);
    let start = text_start(row);
    let tag_start = start + len;
    let end = start + whole;
    lent.open(&mut out[start..tag_start])?;
    seal_into(lent, SUCCESSOR, &mut out[start..end]);
    Ok(())
}

// Reseals a row of suite 4; any other row stays as it was copied. A refusal if the tag is wrong.
#[tactic(auto, using(crate::proofs::Lending::left_row))]
fn reseal_row(file: &[u8], ring: &[u8], index: usize, out: &mut [u8]) -> Verdict
    requires { RowWritable file.now index ring.now out.old }
    ensures right { not (is_ok result) ≡ wrong_again file.now ring.now index }
    ensures text { is_ok result ≡ true → out.new ≡ put out.old (piece_start file.now index)
        (again_piece file.now ring.now index) }
{
    let lent = Lent::new(file, ring, index);
    if lent.row.suite != RETIRED {
        return Ok(());
    }
    reseal_entry(&lent, out)
}

// The rows; the first whose tag is wrong sets the whole output to 0.
pub(crate) fn reseal_rows(file: &[u8], rows: usize, ring: &[u8], out: &mut [u8]) -> Written
    requires { Writable file.now rows ring.now out.old }
    ensures { ◌≡◌ {A = FileWritten} (record { answer = written_answer result; out = out.new })
        (leaves (wrong_again_from file.now ring.now rows 0)
        (put_all (piece_start file.now) (again_piece file.now ring.now) rows out.old) out.old) }
{
    for i in 0..rows {
        if reseal_row(file, ring, i, out).is_err() {
            wipe(out);
            return Err(WriteError::Forged(i));
        }
    }
    Ok(())
}
