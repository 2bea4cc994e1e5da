// Binary search for a job.
ghost use Rattle.std.specs.Prelude.{◌≡◌, length};
ghost use Rattle.status.specs.Answers.{answer};
ghost use Rattle.shift_search.specs.Searching.{searching};

use shift_lookup::answers::answer_of;
use status::checked::say;

// Numbers 20 to 24, then the row that the binary search finds, or 32; and how many rows were looked at.
pub fn shift_search(file: &[u8], job: u32, row: &mut u32, looked: &mut u32) -> u32
    ensures { (answer result row.new ≡ (searching file.now job).says)
        × (looked.new ≡ length (searching file.now job).rows) }
{
    let search = shift_search::search(file, job);
    *looked = search.looked as u32;
    say(answer_of(search.found), row)
}
