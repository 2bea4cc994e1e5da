// The reseal pass: entries of the retired suite 4 are sealed again as suite 3.
#![tactic(auto)]

mod rows;
mod suites;

ghost use Rattle.std.specs.Prelude.{◌≡◌};
ghost use Rattle.shift_draft.specs.Answers.{FileWritten};
ghost use Rattle.shift_writer.specs.Answers.{written_answer};
ghost use Rattle.shift_reseal.specs.Answers.{take_answer, file_resealing};

use byte_runs::copy;
use rows::reseal_rows;
use shift_check::check_as;
use shift_format::row::{FIRST_EDITION, count};
use shift_writer::answers::{WriteError, Written};
use shift_writer::lent_refused;
use status::checked::{Fault, Refusal};
use suites::{first_clash, put_suites};

// The refusals but for 8: the checks, 29, 2, 6.
fn refused(file: &[u8], ring: usize, out: usize) -> Written
    ensures { written_answer result ≡ take_answer file.now ring out }
{
    check_as(FIRST_EDITION, file)?;
    let rows = count(file);
    if let Some(row) = first_clash(file, rows) {
        return Err(WriteError::Refused(Refusal::InRow(Fault::Nonce, row)));
    }
    lent_refused(file.len(), ring, out)
}

// Seals the suite 4 entries of a file again as suite 3, into an output of the file's length: the checks, 29, 2, 6, 8.
pub fn reseal(file: &[u8], ring: &[u8], out: &mut [u8]) -> Written
    ensures { ◌≡◌ {A = FileWritten} (record { answer = written_answer result; out = out.new })
        (file_resealing file.now ring.now out.old) }
{
    refused(file, ring.len(), out.len())?;
    copy(file, out);
    let n = count(file);
    put_suites(file, n, out);
    reseal_rows(file, n, ring, out)
}
