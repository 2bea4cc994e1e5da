// The shift file.
ghost use Rattle.std.specs.Prelude.{◌≡◌};
ghost use Rattle.status.specs.Answers.{answer};
ghost use Rattle.shift_check.specs.Check.{check_file};
ghost use Rattle.shift_lookup.specs.Lookup.{lookup_job};
ghost use Rattle.shift_lookup.specs.Entry.{Entry, entry_of};
ghost use Rattle.shift_jobs.specs.Opening.{JobOpened, job_opening};
ghost use Rattle.shift_jobs.specs.Genuine.{Genuine, job_verifying};
ghost use Rattle.snoekeldraf.specs.Located.{Located, locating};

use shift_lookup::answers::answer_of;
use status::checked::{Refuses, answered, say};

// The full check: numbers 20 to 31 and 34, and the row.
pub fn shift_check(file: &[u8], row: &mut u32) -> u32
    ensures { answer result row.new ≡ check_file file.now }
{
    say(answered(shift_check::check(file)), row)
}

// The full check, and then the row that has the job, or 32.
pub fn shift_lookup(file: &[u8], job: u32, row: &mut u32) -> u32
    ensures { answer result row.new ≡ lookup_job file.now job }
{
    say(answer_of(shift_lookup::lookup(file, job)), row)
}

// The lookup's number, and where in the file the job's associated data lies; 0 and 0 if the lookup refuses.
pub fn shift_associated(file: &[u8], job: u32, at: &mut u32, len: &mut u32) -> u32
    ensures { ◌≡◌ {A = Located} (record { number = result; at = at.new; len = len.new }) (locating file.now job) }
{
    match shift_lookup::entry(file, job) {
        Ok(entry) => {
            *at = entry.ad_at;
            *len = entry.ad_len;
            0
        }
        Err(error) => {
            *at = 0;
            *len = 0;
            error.answer().number as u32
        }
    }
}

// The lookup's number and row, and where in the file the job's associated data and its text lie; 0 if the lookup refuses.
pub fn shift_entry(
    file: &[u8],
    job: u32,
    row: &mut u32,
    ad_at: &mut u32,
    ad_len: &mut u32,
    text_at: &mut u32,
    text_len: &mut u32,
) -> u32
    ensures { ◌≡◌ {A = Entry} (record {
      number = result;
      row = row.new;
      ad_at = ad_at.new;
      ad_len = ad_len.new;
      text_at = text_at.new;
      text_len = text_len.new;
    })
        (entry_of file.now job) }
{
    match shift_lookup::entry(file, job) {
        Ok(entry) => {
            *row = entry.row as u32;
            *ad_at = entry.ad_at;
            *ad_len = entry.ad_len;
            *text_at = entry.text_at;
            *text_len = entry.text_len;
            0
        }
        Err(error) => {
            *ad_at = 0;
            *ad_len = 0;
            *text_at = 0;
            *text_len = 0;
            say(error.answer(), row)
        }
    }
}

// Opens one job into out: the full check, 32, then 2, 6, 8.
pub fn shift_open_job(file: &[u8], ring: &[u8], job: u32, out: &mut [u8], row: &mut u32) -> u32
    ensures { ◌≡◌ {A = JobOpened} (record { answer = answer result row.new; out = out.new })
        (job_opening file.now ring.now job out.old) }
{
    say(answered(shift_jobs::open_job(file, ring, job, out)), row)
}

// The offset of the job's associated data, after its tag was compared: the full check, 32, then 2, 8; 0 and 0 after every number but 0.
pub fn shift_verified(
    file: &[u8],
    ring: &[u8],
    job: u32,
    row: &mut u32,
    at: &mut u32,
    len: &mut u32,
) -> u32
    ensures { ◌≡◌ {A = Genuine} (record { number = result; row = row.new; ad_at = at.new; ad_len = len.new })
        (job_verifying file.now ring.now job) }
{
    match shift_jobs::verified(file, ring, job) {
        Ok(genuine) => {
            *row = 0;
            *at = genuine.ad_at;
            *len = genuine.ad_len;
            0
        }
        Err(error) => {
            *at = 0;
            *len = 0;
            say(error.answer(), row)
        }
    }
}
