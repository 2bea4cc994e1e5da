// The result of a lookup, passed on to the opener: the file is not checked again.
ghost use Rattle.std.specs.Prelude.{◌≡◌};
ghost use Rattle.shift_lookup.specs.Answers.{found_answer};
ghost use Rattle.shift_lookup.specs.Inside.{FoundIn};
ghost use Rattle.shift_jobs.specs.Answers.{opened_answer};
ghost use Rattle.shift_jobs.specs.Opening.{JobOpened, found_opening};

use crate::answers::JobAnswer;
use crate::opening::open_entry;
use shift_lookup::answers::Found;

// Opens the row that the lookup found into out: 2, 6, 8; if the lookup refused, returns that status.
pub fn open_found(file: &[u8], ring: &[u8], found: Found, out: &mut [u8]) -> JobAnswer
    requires { FoundIn file.now (found_answer found) }
    ensures { ◌≡◌ {A = JobOpened} (record { answer = opened_answer result; out = out.new })
        (found_opening file.now ring.now (found_answer found) out.old) }
{
    let index = found?;
    open_entry(file, ring, index, out)
}
