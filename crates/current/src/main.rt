// Opens the current entry of a job, the amendment's if it has the job, else the day's: current AMENDMENT DAY RING JOB.
//
// Prints status, file (1 the amendment, 2 the day's, 0 if neither has the job) and row on one line and, after status 0, a
// line for each field of the entry (`program_reports::current`). A file that cannot be read counts as zero bytes. The
// program takes files up to the format's 1,048,576 bytes each (longer: 20).
#![tactic(auto)]

use program_text::print::Page;
use program_text::read::{FILE_ROOM, RING_ROOM, room};
use std::io::Print;

fn main(rt: HostRuntime) {
    let (5, Some(job)) = (program_files::arg_count(&rt), program_files::job(&rt, 4)) else {
        let _ = eprintln!(rt; "current AMENDMENT DAY RING JOB");
        return;
    };
    let mut amendment = room::<FILE_ROOM>();
    let mut day = room::<FILE_ROOM>();
    let mut ring = room::<RING_ROOM>();
    let mut page = Page::new();
    let amendment = program_files::load(&rt, 1, &mut amendment);
    let day = program_files::load(&rt, 2, &mut day);
    let ring = program_files::load(&rt, 3, &mut ring);
    program_reports::current(amendment, day, ring, job, &mut page);
    let _ = Print::write_all(&rt, page.as_bytes());
}
