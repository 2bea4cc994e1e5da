// Amendments.
ghost use Rattle.std.specs.Prelude.{◌≡◌};
ghost use Rattle.status.specs.Answers.{answer};
ghost use Rattle.shift_amend.specs.Amending.{AmendedOpening, amended_opening};
ghost use Rattle.snoekeldraf.specs.Amended.{Placed, placing};

use status::checked::{Refuses, answered, say};

// The checks, or 32; then the file that holds the current entry (1 the amendment, 2 the day's), its row, and where in
// that file its associated data lies; 0 and 0 on a refusal.
pub fn shift_amended(
    amendment: &[u8],
    day: &[u8],
    job: u32,
    file: &mut u32,
    row: &mut u32,
    at: &mut u32,
    len: &mut u32,
) -> u32
    ensures { ◌≡◌ {A = Placed} (record { number = result; file = file.new; row = row.new; at = at.new; len = len.new })
        (placing amendment.now day.now job) }
{
    let current = shift_amend::locate(amendment, day, job);
    *file = u32::from(current.file);
    match current.entry {
        Ok(entry) => {
            *row = entry.row as u32;
            *at = entry.ad_at;
            *len = entry.ad_len;
            0
        }
        Err(error) => {
            *at = 0;
            *len = 0;
            say(error.answer(), row)
        }
    }
}

// Opens the current entry of a job into out: the checks, 32, then 2, 6, 8.
pub fn shift_open_amended(
    amendment: &[u8],
    day: &[u8],
    ring: &[u8],
    job: u32,
    out: &mut [u8],
    file: &mut u32,
    row: &mut u32,
) -> u32
    ensures { ◌≡◌ {A = AmendedOpening} (record { file = file.new; answer = answer result row.new; out = out.new })
        (amended_opening amendment.now day.now ring.now job out.old) }
{
    let current = shift_amend::open_current(amendment, day, ring, job, out);
    *file = u32::from(current.file);
    say(answered(current.opened), row)
}
