// Writes a shift file: write DRAFT RING OUT seals a draft, write back FILE RING OUT gives the draft of a file back,
// write reseal FILE RING OUT seals its suite 4 entries again as suite 3.
//
// Prints status and row on one line. OUT is written if the status is 0, and otherwise unchanged. A file that cannot
// be read counts as zero bytes. The program takes files up to the format's 1,048,576 bytes (longer: 20).
#![tactic(auto)]

ghost use Rattle.std.specs.Prelude.{◌≤◌};

use program_files::WORD_MAX;
use program_text::read::{FILE_ROOM, RING_ROOM, front_mut, room};
use status::checked::{Answer, answered};

// Makes the output of file and ring, which the argument at a place and the next one name, and writes it under the name of the
// one after them. The output has the file's length, and the buffer holds every file. Not inlined, so that a call with wrong arguments
// does not need the stack of the two buffers.
#[inline(never)]
fn write<F: FnOnce(&[u8], &[u8], &mut [u8]) -> Answer>(rt: &HostRuntime, place: usize, make: F)
    requires called { F.IsAlwaysCallable make }
    requires place { place ≤ 2 }
{
    let mut file = room::<FILE_ROOM>();
    let mut ring = room::<RING_ROOM>();
    let mut out = room::<FILE_ROOM>();
    let file = program_files::load(rt, place, &mut file);
    let ring = program_files::load(rt, place + 1, &mut ring);
    let Ok(out) = front_mut(&mut out, file.len()) else {
        return;
    };
    let answer = make(file, ring, out);
    program_files::answered(rt, answer, out, place + 2);
}

fn main(rt: HostRuntime) {
    let mut room = [0u8; WORD_MAX];
    match (
        program_files::arg_count(&rt),
        program_files::word(&rt, 1, &mut room),
    ) {
        (4, _) => write(&rt, 1, |draft, ring, out| {
            answered(shift_writer::seal_file(draft, ring, out))
        }),
        (5, Some("back")) => write(&rt, 2, |file, ring, out| {
            answered(shift_writer::unseal_file(file, ring, out))
        }),
        (5, Some("reseal")) => write(&rt, 2, |file, ring, out| {
            answered(shift_reseal::reseal(file, ring, out))
        }),
        _ => {
            let _ = eprintln!(rt;
                "write DRAFT RING OUT\nwrite back FILE RING OUT\nwrite reseal FILE RING OUT"
            );
        }
    }
}
