// The reseal pass.
ghost use Rattle.std.specs.Prelude.{◌≡◌};
ghost use Rattle.status.specs.Answers.{answer};
ghost use Rattle.shift_draft.specs.Answers.{FileWritten};
ghost use Rattle.shift_reseal.specs.Answers.{file_resealing};

use status::checked::{answered, say};

// Seals the suite 4 entries of a file again as suite 3, into out: the checks, 29, 2, 6, 8.
pub fn shift_reseal(file: &[u8], ring: &[u8], out: &mut [u8], row: &mut u32) -> u32
    ensures { ◌≡◌ {A = FileWritten} (record { answer = answer result row.new; out = out.new })
        (file_resealing file.now ring.now out.old) }
{
    say(answered(shift_reseal::reseal(file, ring, out)), row)
}
