// Opens one job of a shift file: job FILE RING JOB.
//
// Prints status and row on one line and, after status 0, a line for each field of the entry (`program_reports::job`).
// A file that cannot be read counts as zero bytes. The program takes files up to the format's 1,048,576 bytes (longer: 20).
#![tactic(auto)]

use program_text::print::Page;
use program_text::read::{FILE_ROOM, RING_ROOM, room};
use std::io::Print;

fn main(rt: HostRuntime) {
    let (4, Some(job)) = (program_files::arg_count(&rt), program_files::job(&rt, 3)) else {
        let _ = eprintln!(rt; "job FILE RING JOB");
        return;
    };
    let mut file = room::<FILE_ROOM>();
    let mut ring = room::<RING_ROOM>();
    let mut page = Page::new();
    let file = program_files::load(&rt, 1, &mut file);
    let ring = program_files::load(&rt, 2, &mut ring);
    program_reports::job(file, ring, job, &mut page);
    let _ = Print::write_all(&rt, page.as_bytes());
}
