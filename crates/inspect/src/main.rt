// Checks a supplier's file: inspect FILE RING.
//
// Prints "entries" and how many there are, and then a line for each, its job number and 0 if its tag is right under the
// ring, 8 if it is wrong; on a refusal one line, "refused", status and row. A file that cannot be read counts as zero
// bytes. The program takes files up to 65,280 bytes (longer: 20).
#![tactic(auto)]

use program_text::print::Page;
use program_text::read::{RING_ROOM, room};
use shift_report::MAX_REPORT;
use std::io::Print;

// The most bytes of a supplier's file, and one more.
const REPORT_ROOM: usize = MAX_REPORT + 1;

fn main(rt: HostRuntime) {
    if program_files::arg_count(&rt) != 3 {
        let _ = eprintln!(rt; "inspect FILE RING");
        return;
    }
    let mut file = room::<REPORT_ROOM>();
    let mut ring = room::<RING_ROOM>();
    let mut page = Page::new();
    let file = program_files::load(&rt, 1, &mut file);
    let ring = program_files::load(&rt, 2, &mut ring);
    program_reports::inspect(file, ring, &mut page);
    let _ = Print::write_all(&rt, page.as_bytes());
}
