// The length of a moved file, and the moves between editions 1 and 2.
ghost use Rattle.std.specs.Prelude.{◌≡◌};
ghost use Rattle.status.specs.Answers.{answer};
ghost use Rattle.shift_editions.specs.Answers.{moved_length_of, FileMoved, to_edition2_of, to_edition1_of};

use status::checked::{answered, say};

// The length of the file after its move; 0 if one of 20 to 24 applies.
pub fn shift_moved_length(file: &[u8]) -> usize
    ensures { result ≡ moved_length_of file.now }
{
    shift_editions::moved_length(file)
}

// Writes a file of edition 1 in edition 2 into out: the checks, 20, 6.
pub fn shift_to_edition2(file: &[u8], out: &mut [u8], row: &mut u32) -> u32
    ensures { ◌≡◌ {A = FileMoved} (record { answer = answer result row.new; out = out.new })
        (to_edition2_of file.now out.old) }
{
    say(answered(shift_editions::to_edition2(file, out)), row)
}

// Writes a file of edition 2 in edition 1 into out: the checks, 35, 6.
pub fn shift_to_edition1(file: &[u8], out: &mut [u8], row: &mut u32) -> u32
    ensures { ◌≡◌ {A = FileMoved} (record { answer = answer result row.new; out = out.new })
        (to_edition1_of file.now out.old) }
{
    say(answered(shift_editions::to_edition1(file, out)), row)
}
