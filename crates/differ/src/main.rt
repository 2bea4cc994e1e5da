// Compares two shift files: differ FIRST SECOND.
//
// Prints the jobs only in the first, only in the second, and in both but different, one number to a line, under the lines
// "first", "second" and "differ"; on a refusal one line, "refused", file, status and row. A file that cannot be read counts
// as zero bytes. The program takes files up to 65,280 bytes (longer: 20).
#![tactic(auto)]

use program_text::print::Page;
use program_text::read::room;
use shift_report::MAX_REPORT;
use std::io::Print;

// The most bytes of each file, as of a supplier's file, and one more.
const REPORT_ROOM: usize = MAX_REPORT + 1;

fn main(rt: HostRuntime) {
    if program_files::arg_count(&rt) != 3 {
        let _ = eprintln!(rt; "differ FIRST SECOND");
        return;
    }
    let mut first = room::<REPORT_ROOM>();
    let mut second = room::<REPORT_ROOM>();
    let mut page = Page::new();
    let first = program_files::load(&rt, 1, &mut first);
    let second = program_files::load(&rt, 2, &mut second);
    program_reports::differ(first, second, &mut page);
    let _ = Print::write_all(&rt, page.as_bytes());
}
