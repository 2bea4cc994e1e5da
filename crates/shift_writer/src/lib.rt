// The writer of shift files: seals a draft, and restores the draft of a sealed file.
#![tactic(auto)]

pub mod answers;
mod rows;
mod suites;
mod tags;

ghost use Rattle.std.specs.Prelude.{◌≡◌};
ghost use Rattle.shift_draft.specs.Answers.{lent_answer, seal_answer, open_answer, FileWritten, file_sealing, file_unsealing};
ghost use Rattle.shift_writer.specs.Answers.{written_answer};

use answers::{WriteError, Written};
use byte_runs::copy;
use rows::{put_edition, seal_rows, unseal_rows};
use shift_check::check_as;
use shift_format::row::{FIRST_EDITION, count};
use shift_limits::RING_LEN;
use suites::first_retired;
use tags::first_set;

// The edition of a draft.
const DRAFT: u16 = 0;

// 2 and 6, from the lengths of file, ring and output: each length that is not the right one is its own number.
#[tactic(auto, unfolding(shift_draft::specs::Answers::lent_answer))]
pub fn lent_refused(file: usize, ring: usize, out: usize) -> Written
    ensures { written_answer result ≡ lent_answer file ring out }
{
    if ring != RING_LEN {
        return Err(WriteError::Ring);
    }
    if out != file {
        return Err(WriteError::Room);
    }
    Ok(())
}

// The refusals of sealing: the checks, 33, 10, 2, 6.
fn seal_refused(draft: &[u8], ring: usize, out: usize) -> Written
    ensures { written_answer result ≡ seal_answer draft.now ring out }
{
    check_as(DRAFT, draft)?;
    let n = count(draft);
    if let Some(row) = first_set(draft, n) {
        return Err(WriteError::TagSet(row));
    }
    if let Some(row) = first_retired(draft, n) {
        return Err(WriteError::Retired(row));
    }
    lent_refused(draft.len(), ring, out)
}

// The refusals of unsealing, but for 8: the checks, 2, 6.
fn unseal_refused(file: &[u8], ring: usize, out: usize) -> Written
    ensures { written_answer result ≡ open_answer file.now ring out }
{
    check_as(FIRST_EDITION, file)?;
    lent_refused(file.len(), ring, out)
}

// Seals a draft into an output of its length: the checks, 33, 10, 2, 6.
pub fn seal_file(draft: &[u8], ring: &[u8], out: &mut [u8]) -> Written
    ensures { ◌≡◌ {A = FileWritten} (record { answer = written_answer result; out = out.new })
        (file_sealing draft.now ring.now out.old) }
{
    seal_refused(draft, ring.len(), out.len())?;
    copy(draft, out);
    put_edition(FIRST_EDITION, out);
    seal_rows(draft, count(draft), ring, out);
    Ok(())
}

// Restores the draft of a sealed file: the checks, 2, 6, 8.
pub fn unseal_file(file: &[u8], ring: &[u8], out: &mut [u8]) -> Written
    ensures { ◌≡◌ {A = FileWritten} (record { answer = written_answer result; out = out.new })
        (file_unsealing file.now ring.now out.old) }
{
    unseal_refused(file, ring.len(), out.len())?;
    copy(file, out);
    put_edition(DRAFT, out);
    unseal_rows(file, count(file), ring, out)
}
