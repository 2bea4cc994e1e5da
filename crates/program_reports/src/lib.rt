// What the plant's programs print.
#![tactic(auto)]

mod compared;
mod opened;
mod readable;
mod reported;

pub use compared::write_differ;
pub use opened::{write_current, write_job};
use program_text::print::Page;
pub use reported::write_inspect;

// What `job` prints (`write_job`). A page takes every byte that fits and never fails; so for the three below.
pub fn job(file: &[u8], ring: &[u8], job: u32, page: &mut Page) {
    let _ = write_job(file, ring, job, page);
}

// What `current` prints (`write_current`).
pub fn current(amendment: &[u8], day: &[u8], ring: &[u8], job: u32, page: &mut Page) {
    let _ = write_current(amendment, day, ring, job, page);
}

// What `differ` prints (`write_differ`).
pub fn differ(first: &[u8], second: &[u8], page: &mut Page) {
    let _ = write_differ(first, second, page);
}

// What `inspect` prints (`write_inspect`).
pub fn inspect(file: &[u8], ring: &[u8], page: &mut Page) {
    let _ = write_inspect(file, ring, page);
}
