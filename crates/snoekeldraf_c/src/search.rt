// Binary search for a job.
ghost use Rattle.std.specs.Prelude.{◌≡◌, length};
ghost use Rattle.status.specs.Answers.{answer};
ghost use Rattle.shift_search.specs.Searching.{searching};

// Numbers 20 to 24, then the row that the binary search finds, or 32; and how many rows were looked at.
#[unsafe(no_mangle)]
pub extern "C" fn shift_search(file: &[u8], job: u32, row: &mut u32, looked: &mut u32) -> u32
    ensures { (answer result row.new ≡ (searching file.now job).says)
        × (looked.new ≡ length (searching file.now job).rows) }
{
    snoekeldraf::search::shift_search(file, job, row, looked)
}
