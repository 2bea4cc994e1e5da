// The jobs of the plant's shift file, opened and verified with the key ring.
#![tactic(auto)]

pub mod answers;
pub mod found;
pub mod lend;
mod opening;
pub mod testing;

ghost use Rattle.std.specs.Prelude.{◌≡◌};
ghost use Rattle.shift_jobs.specs.Answers.{opened_answer};
ghost use Rattle.shift_jobs.specs.Opening.{JobOpened, job_opening};
ghost use Rattle.shift_jobs.specs.Genuine.{genuine_answer, job_verifying};

use answers::{Genuine, JobAnswer, JobError};
use shift_lookup::lookup;

// Opens one job into out: the full check, 32, then 2, 6, 8.
pub fn open_job(file: &[u8], ring: &[u8], job: u32, out: &mut [u8]) -> JobAnswer
    ensures { ◌≡◌ {A = JobOpened} (record { answer = opened_answer result; out = out.new })
        (job_opening file.now ring.now job out.old) }
{
    found::open_found(file, ring, lookup(file, job), out)
}

// Offset and length of a job's associated data, once its tag was compared: the full check, 32, then 2, 8.
pub fn verified(file: &[u8], ring: &[u8], job: u32) -> Result<Genuine, JobError>
    ensures { genuine_answer result ≡ job_verifying file.now ring.now job }
{
    testing::verify_found(file, ring, lookup(file, job))
}
