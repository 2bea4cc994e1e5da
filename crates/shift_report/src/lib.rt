// The report on a supplier's file (document 02, W14): the job of each entry, and whether its tag is right.
#![tactic(auto)]

pub mod answers;
mod entries;

ghost use Rattle.std.specs.Prelude.{◌≡◌};
ghost use Rattle.shift_report.specs.Reporting.{said_of, Report, reporting};

use answers::{ReportError, Reported};
use entries::list_all;
use shift_check::check;
use shift_format::row::count;
use shift_limits::RING_LEN;
use status::checked::Refusal;

// The most bytes of a file that is reported on (document 02, W14).
pub const MAX_REPORT: usize = 65280;

// Reports on a supplier's file of at most 65,280 bytes: its entries' jobs, and 0 or 8 for each tag under the ring. Order: a
// longer file is 20; the file's checks; 2; 6 if a list has fewer elements than the file has entries.
pub fn report(file: &[u8], ring: &[u8], jobs: &mut [u32], numbers: &mut [u8]) -> Reported
    ensures { ◌≡◌ {A = Report} (record { said = said_of result; jobs = jobs.new; numbers = numbers.new })
        (reporting file.now ring.now jobs.old numbers.old) }
{
    if MAX_REPORT < file.len() {
        return Err(ReportError::Refused(Refusal::Size));
    }
    check(file)?;
    if ring.len() != RING_LEN {
        return Err(ReportError::Ring);
    }
    let n = count(file);
    if jobs.len() < n {
        return Err(ReportError::Room);
    }
    if numbers.len() < n {
        return Err(ReportError::Room);
    }
    list_all(file, ring, n, jobs, numbers);
    Ok(n)
}
