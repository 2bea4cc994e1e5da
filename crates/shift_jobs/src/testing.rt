// Verifying the tag of one entry: the offset of its associated data is returned only if the tag is right.
ghost use Rattle.std.specs.Prelude.{◌≡◌};
ghost use Rattle.shift_format.specs.Format.{row_size_of};
ghost use Rattle.shift_format.specs.Inside.{EntryIn};
ghost use Rattle.shift_lookup.specs.Answers.{found_answer};
ghost use Rattle.shift_lookup.specs.Inside.{FoundIn};
ghost use Rattle.shift_jobs.specs.Genuine.{genuine_answer, row_verifying, found_verifying};

use crate::answers::{Genuine, JobError};
use crate::lend::Lent;
use shift_limits::RING_LEN;
use shift_lookup::answers::Found;

// Verifies the tag of a row: 2, 8.
fn verify_entry(file: &[u8], ring: &[u8], index: usize) -> Result<Genuine, JobError>
    requires { EntryIn (row_size_of file.now) file.now index }
    ensures { genuine_answer result ≡ row_verifying file.now ring.now index }
{
    if ring.len() != RING_LEN {
        return Err(JobError::Ring);
    }
    let lent = Lent::new(file, ring, index);
    match lent.verify() {
        Ok(()) => Ok(Genuine {
            ad_at: lent.row.ad_at,
            ad_len: lent.row.ad_len as u32,
        }),
        Err(_) => Err(JobError::Forged),
    }
}

// Verifies the tag of the row that the lookup found: 2, 8; if the lookup refused, returns that status.
pub fn verify_found(file: &[u8], ring: &[u8], found: Found) -> Result<Genuine, JobError>
    requires { FoundIn file.now (found_answer found) }
    ensures { genuine_answer result ≡ found_verifying file.now ring.now (found_answer found) }
{
    let index = found?;
    verify_entry(file, ring, index)
}
