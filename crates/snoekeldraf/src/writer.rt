// The writer of shift files.
ghost use Rattle.std.specs.Prelude.{◌≡◌};
ghost use Rattle.status.specs.Answers.{answer};
ghost use Rattle.shift_draft.specs.Answers.{FileWritten, file_sealing, file_unsealing};

use status::checked::{answered, say};

// Seals a draft into out: the checks with 0 for the edition, 33, 10, 2, 6.
pub fn shift_seal_file(draft: &[u8], ring: &[u8], out: &mut [u8], row: &mut u32) -> u32
    ensures { ◌≡◌ {A = FileWritten} (record { answer = answer result row.new; out = out.new })
        (file_sealing draft.now ring.now out.old) }
{
    say(answered(shift_writer::seal_file(draft, ring, out)), row)
}

// Restores the draft of a file into out: the checks, 2, 6, 8.
pub fn shift_unseal_file(file: &[u8], ring: &[u8], out: &mut [u8], row: &mut u32) -> u32
    ensures { ◌≡◌ {A = FileWritten} (record { answer = answer result row.new; out = out.new })
        (file_unsealing file.now ring.now out.old) }
{
    say(answered(shift_writer::unseal_file(file, ring, out)), row)
}
