// Moves a shift file to another edition: convert FILE OUT from edition 1 to 2, convert back FILE OUT from edition 2 to 1.
//
// Prints status and row on one line. OUT is written if the status is 0, and otherwise unchanged. A file that cannot
// be read counts as zero bytes. The program takes files up to the format's 1,048,576 bytes (longer: 20).
#![tactic(auto)]

ghost use Rattle.std.specs.Prelude.{◌≤◌};

use program_files::WORD_MAX;
use program_text::read::{FILE_ROOM, front_mut, room};
use shift_limits::{MAX_FILE, MAX_ROWS};
use status::checked::{Answer, answered};

// The most bytes of a moved file: as a shift file, and a station of four bytes more for each row.
const MOVED_ROOM: usize = MAX_FILE + 4 * MAX_ROWS;

// Moves the file that the argument at a place names, and writes it under the name of the next one. The output has the moved file's
// length, and the buffer holds 512 stations more than every file. Not inlined, so that a call with wrong arguments does not need the
// stack of the two buffers.
#[inline(never)]
fn convert<F: FnOnce(&[u8], &mut [u8]) -> Answer>(rt: &HostRuntime, place: usize, make: F)
    requires called { F.IsAlwaysCallable make }
    requires place { place ≤ 2 }
{
    let mut file = room::<FILE_ROOM>();
    let mut out = room::<MOVED_ROOM>();
    let file = program_files::load(rt, place, &mut file);
    let Ok(out) = front_mut(&mut out, shift_editions::moved_length(file)) else {
        return;
    };
    let answer = make(file, out);
    program_files::answered(rt, answer, out, place + 1);
}

fn main(rt: HostRuntime) {
    let mut room = [0u8; WORD_MAX];
    match (
        program_files::arg_count(&rt),
        program_files::word(&rt, 1, &mut room),
    ) {
        (3, _) => convert(
            &rt,
            1,
            |file, out| answered(shift_editions::to_edition2(file, out)),
        ),
        (4, Some("back")) => convert(
            &rt,
            2,
            |file, out| answered(shift_editions::to_edition1(file, out)),
        ),
        _ => {
            let _ = eprintln!(rt; "convert FILE OUT\nconvert back FILE OUT");
        }
    }
}
