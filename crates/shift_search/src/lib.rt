// Binary search for a job in a shift file whose header alone was checked.
#![tactic(auto)]

ghost use Rattle.std.specs.Prelude.{◌≡◌, length};
ghost use Rattle.shift_lookup.specs.Answers.{found_answer};
ghost use Rattle.shift_search.specs.Searching.{searching};

use shift_check::check_head;
use shift_format::row::{FIRST_EDITION, NEWEST, count, row_size_of};
use shift_lookup::answers::LookupError;
use shift_lookup::binary_search::{Searched, halve};

// Numbers 20 to 24, then the row that the binary search finds, or 32; and how many rows were looked at.
pub fn search(file: &[u8], job: u32) -> Searched
    ensures { (found_answer result.found ≡ (searching file.now job).says) × (result.looked ≡ length (searching file.now job).rows) }
{
    match check_head(FIRST_EDITION, NEWEST, file) {
        Ok(()) => halve(row_size_of(file), file, count(file), job),
        Err(refusal) => Searched {
            found: Err(LookupError::Refused(refusal)),
            looked: 0,
        },
    }
}
