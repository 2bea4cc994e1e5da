// Opening one entry.
ghost use Rattle.std.specs.Prelude.{◌≡◌};
ghost use Rattle.shift_format.specs.Format.{row_size_of};
ghost use Rattle.shift_format.specs.Inside.{EntryIn};
ghost use Rattle.shift_jobs.specs.Answers.{opened_answer};
ghost use Rattle.shift_jobs.specs.Opening.{JobOpened, row_opening};

use crate::answers::{JobAnswer, JobError};
use crate::lend::Lent;
use shift_limits::RING_LEN;

// Opens a row: 2, 6, 8.
pub(crate) fn open_entry(file: &[u8], ring: &[u8], index: usize, out: &mut [u8]) -> JobAnswer
    requires { EntryIn (row_size_of file.now) file.now index }
    ensures { ◌≡◌ {A = JobOpened} (record { answer = opened_answer result; out = out.new })
        (row_opening file.now ring.now index out.old) }
{
    if ring.len() != RING_LEN {
        return Err(JobError::Ring);
    }
    let lent = Lent::new(file, ring, index);
    let len = lent.row.text_len as usize;
    if out.len() != len {
        return Err(JobError::Room);
    }
    match lent.open(out) {
        Ok(()) => Ok(()),
        Err(_) => Err(JobError::Forged),
    }
}
