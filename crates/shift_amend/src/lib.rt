// Amendments: a small file that replaces some jobs of the day's.
#![tactic(auto)]

ghost use Rattle.std.specs.Prelude.{◌≡◌};
ghost use Rattle.shift_lookup.specs.Answers.{found_answer};
ghost use Rattle.shift_jobs.specs.Answers.{opened_answer};
ghost use Rattle.shift_amend.specs.Source.{file_number, file_of};
ghost use Rattle.shift_amend.specs.Amending.{answer_of, amended_entry, amended_answer, CurrentPart, AmendedOpening, amended_opening};
ghost use Rattle.shift_amend.specs.Inside.{refusing, finding};

use shift_format::row::stretch;
use shift_jobs::answers::JobAnswer;
use shift_jobs::found::open_found;
use shift_lookup::answers::{Entry, Found, LookupError};
use shift_lookup::found::entry_found;

// The file that a status concerns; neither, if neither has the job.
#[derive(Clone, Copy, PartialEq, Eq, Debug)]
pub enum Source {
    Neither,
    Amendment,
    Day,
}

impl From<Source> for u32 {
    ghost from_gives = { λ source number. number ≡ file_number source };

    fn from(source: Source) -> u32 {
        match source {
            Source::Neither => 0,
            Source::Amendment => 1,
            Source::Day => 2,
        }
    }
}

impl Source {
    // The file itself. The status that concerns neither is of the day's lookup, the last.
    fn of<'a>(self, amendment: &'a [u8], day: &'a [u8]) -> &'a [u8]
        ensures { result ≡ file_of (file_number self) amendment.entry day.entry }
    {
        match self {
            Source::Neither => day,
            Source::Amendment => amendment,
            Source::Day => day,
        }
    }
}

// The current entry of a job, and the file that its status concerns.
#[derive(Clone, Copy, PartialEq, Eq, Debug)]
pub struct Amended {
    pub file: Source,
    pub entry: Result<Entry, LookupError>,
}

// The status of opening the current entry, and the file that it concerns.
#[derive(Clone, Copy, PartialEq, Eq, Debug)]
pub struct OpenedIn {
    pub file: Source,
    pub opened: JobAnswer,
}

// What determines the current entry: the file that its status concerns, and that file's lookup (the day's, if neither
// has the job).
#[derive(Clone, Copy, PartialEq, Eq, Debug)]
pub struct Looked {
    pub file: Source,
    pub found: Found,
}

// Whether the lookup refuses the file.
fn refuses(found: Found) -> bool
    ensures { result ≡ refusing found }
{
    matches!(found, Err(LookupError::Refused(_)))
}

// Whether the lookup finds the job.
fn finds(found: Found) -> bool
    ensures { result ≡ finding found }
{
    matches!(found, Ok(_))
}

// The full check of the amendment, then of the day's file; then the amendment's lookup if it has the job, else the day's.
pub fn look_up(amendment: &[u8], day: &[u8], job: u32) -> Looked
    ensures { (file_number result.file ≡ (amended_entry amendment.now day.now job).file)
        × (found_answer result.found ≡ answer_of (amended_entry amendment.now day.now job)) }
{
    let one = shift_lookup::lookup(amendment, job);
    if refuses(one) {
        return Looked {
            file: Source::Amendment,
            found: one,
        };
    }
    let two = shift_lookup::lookup(day, job);
    if refuses(two) {
        return Looked {
            file: Source::Day,
            found: two,
        };
    }
    if finds(one) {
        return Looked {
            file: Source::Amendment,
            found: one,
        };
    }
    if finds(two) {
        return Looked {
            file: Source::Day,
            found: two,
        };
    }
    Looked {
        file: Source::Neither,
        found: two,
    }
}

// The full check of the amendment, then of the day's file; then the amendment's entry if it has the job, else the day's, or 32.
pub fn locate(amendment: &[u8], day: &[u8], job: u32) -> Amended
    ensures { amended_answer result ≡ amended_entry amendment.now day.now job }
{
    let Looked { file, found } = look_up(amendment, day, job);
    Amended {
        file: file,
        entry: entry_found(file.of(amendment, day), found),
    }
}

// The associated data of the current entry, as a part of the file that holds it; the amendment's first zero bytes on a
// refusal.
pub fn current<'a>(amendment: &'a [u8], day: &'a [u8], job: u32) -> &'a [u8]
    ensures { CurrentPart amendment.entry day.entry result job }
{
    let located = locate(amendment, day, job);
    match located.entry {
        Ok(entry) => {
            let file = located.file.of(amendment, day);
            stretch(file, entry.ad_at as usize, entry.ad_len as usize)
        }
        Err(_) => stretch(amendment, 0, 0),
    }
}

// Opens the current entry into out: the checks, 32, then 2, 6, 8 of the file that holds it.
pub fn open_current(amendment: &[u8], day: &[u8], ring: &[u8], job: u32, out: &mut [u8]) -> OpenedIn
    ensures { ◌≡◌ {A = AmendedOpening} (record { file = file_number result.file; answer = opened_answer result.opened; out = out.new })
        (amended_opening amendment.now day.now ring.now job out.old) }
{
    let looked = look_up(amendment, day, job);
    let file = looked.file.of(amendment, day);
    OpenedIn {
        file: looked.file,
        opened: open_found(file, ring, looked.found, out),
    }
}
