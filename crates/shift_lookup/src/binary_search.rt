// Binary search for a job in the table of a shift file.
ghost use Rattle.std.specs.Prelude.{◌≡◌, length};
ghost use Rattle.shift_format.specs.Inside.{TableIn};
ghost use Rattle.shift_lookup.specs.Answers.{found_answer};
ghost use Rattle.shift_lookup.specs.Halving.{jobs_of, halving};

use crate::answers::{Found, LookupError};
use shift_format::row::row_at;

// What the search finds, and how many rows it looked at; that is told also if no row has the job.
#[derive(Clone, Copy)]
pub struct Searched {
    pub found: Found,
    pub looked: usize,
}

// Binary search over the rows, until one has the job or none is left. The library's search by key doesn't say how many rows it
// looked at, nor does document 02 leave the choice of the middle row open, so the loop stands here.
pub fn halve(size: usize, file: &[u8], rows: usize, job: u32) -> Searched
    requires { TableIn size file.now rows }
    ensures { (found_answer result.found ≡ (halving (jobs_of size file.now) job 0 rows).says)
        × (result.looked ≡ length (halving (jobs_of size file.now) job 0 rows).rows) }
{
    let mut s: usize = 0;
    let mut c: usize = rows;
    let mut looked: usize = 0;
    while 0 < c {
        let half = c / 2;
        let middle = s + half;
        let row = row_at(size, file, middle);
        let seen = row.job;
        let looks = looked + 1;
        if seen == job {
            return Searched {
                found: Ok(middle),
                looked: looks,
            };
        }
        looked = looks;
        if seen < job {
            s = middle + 1;
            c = c - half - 1;
        } else {
            c = half;
        }
    }
    Searched {
        found: Err(LookupError::Missing),
        looked: looked,
    }
}
