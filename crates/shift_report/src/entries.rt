// The entries of a file that passes, one after another: the job of each, and whether its tag is right.
ghost use Rattle.std.specs.Prelude.{◌≡◌};
ghost use Rattle.shift_report.specs.Reporting.{job_of, tag_number, front};
ghost use Rattle.shift_report.specs.Inside.{Listable};

use shift_jobs::lend::Lent;
use status::verdict::number;

// Lists all entries, from the front of both lists on: of each its job, and 0 or 8 as its tag is right or wrong. A wrong tag
// does not stop it, and no message is written. C lends the two lists.
pub(crate) fn list_all(file: &[u8], ring: &[u8], rows: usize, jobs: &mut [u32], numbers: &mut [u8])
    requires { Listable file.now ring.now rows jobs.old numbers.old }
    ensures { (jobs.new ≡ front (job_of file.now) rows jobs.old)
        × (numbers.new ≡ front (tag_number file.now ring.now) rows numbers.old) }
{
    for i in 0..rows {
        let lent = Lent::new(file, ring, i);
        jobs[i] = lent.row.job;
        numbers[i] = number(lent.verify());
    }
}
