// The lookup of a job in the plant's shift file: its row, its entry and its associated data. No key is needed here.
#![tactic(auto)]

pub mod answers;
pub mod binary_search;
pub mod found;

ghost use Rattle.std.specs.Prelude.{◌≡◌};
ghost use Rattle.shift_format.specs.Part.{PartOf};
ghost use Rattle.shift_lookup.specs.Answers.{found_answer};
ghost use Rattle.shift_lookup.specs.Lookup.{lookup_job};
ghost use Rattle.shift_lookup.specs.Entry.{data_start, data_length, entry_answer, entry_of};

use answers::{Entry, Found, LookupError};
use shift_check::check;
use shift_format::row::{count, row_size_of, stretch};

// The full check, then the row that has the job, or 32. The check has shown that the job numbers rise, so a binary search
// finds it.
pub fn lookup(file: &[u8], job: u32) -> Found
    ensures { found_answer result ≡ lookup_job file.now job }
{
    check(file)?;
    binary_search::halve(row_size_of(file), file, count(file), job).found
}

// The lookup, and offsets and lengths of the job's associated data and its text.
pub fn entry(file: &[u8], job: u32) -> Result<Entry, LookupError>
    ensures { entry_answer result ≡ entry_of file.now job }
{
    found::entry_found(file, lookup(file, job))
}

// The associated data of a job, as a part of the file; its first zero bytes if the lookup refuses.
pub fn associated(file: &[u8], job: u32) -> &[u8]
    ensures { PartOf file.entry result (data_start file.now (lookup_job file.now job))
        (data_length file.now (lookup_job file.now job)) }
{
    match entry(file, job) {
        Ok(located) => stretch(file, located.ad_at as usize, located.ad_len as usize),
        Err(_) => stretch(file, 0, 0),
    }
}
