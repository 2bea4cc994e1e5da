// One pass over the tables of two files that pass the check, as a merge.
ghost use Rattle.std.specs.Prelude.{◌≡◌, true, cond, ◌&&◌, ◌+◌, ◌<◌, ◌≤◌, length, set};
ghost use Rattle.shift_format.specs.Format.{count_of};
ghost use Rattle.shift_check.specs.Check.{check_file};
ghost use Rattle.shift_compare.specs.Comparing.{job_at};
ghost use Rattle.shift_compare.specs.Inside.{Sound, At, goes, both_place, first_turn, second_turn, Turned, Passable, Passed};

use crate::Counts;
use shift_format::row::{count, row_at, row_size_of};
use shift_same::same_entry;

// Which list a job goes on.
#[derive(Clone, Copy, PartialEq, Eq, Debug)]
enum Place {
    First,
    Second,
    Differ,
}

// One iteration: the list that its job is appended to, if any, and the two indices after it.
#[derive(Clone, Copy, PartialEq, Eq, Debug)]
struct Turn {
    job: u32,
    list: Option<Place>,
    i: usize,
    j: usize,
}

impl Turn {
    // Whether its job is appended to this list.
    fn goes_on(self, place: Place) -> bool
        ensures { result ≡ goes self.list place }
    {
        self.list == Some(place)
    }
}

// How many rows a file that passes has.
fn rows(file: &[u8]) -> usize
    requires { (check_file file.now).number ≡ 0 }
    ensures { (result ≡ count_of file.now) × (result ≤ 512) }
{
    count(file)
}

// How long the three lists can be: a job for each row of their file.
pub(crate) fn most(first: &[u8], second: &[u8]) -> Counts
    requires { Sound first.now second.now }
    ensures { (result.first ≡ count_of first.now) × (result.second ≡ count_of second.now) × (result.differ ≡ count_of first.now) }
{
    let n = rows(first);
    Counts {
        first: n,
        second: rows(second),
        differ: n,
    }
}

// The job of one of its rows.
fn job_of(file: &[u8], index: usize) -> u32
    requires { ((check_file file.now).number ≡ 0) × (index < count_of file.now) }
    ensures { result ≡ job_at file.now index }
{
    let row = row_at(row_size_of(file), file, index);
    row.job
}

// The first file's next job is in that file alone.
fn first_turn(job: u32, i: usize, j: usize) -> Turn
    requires { i < 512 }
    ensures { result ≡ first_turn job i j }
{
    Turn {
        job: job,
        list: Some(Place::First),
        i: i + 1,
        j: j,
    }
}

// The second file's next job is in that file alone.
fn second_turn(job: u32, i: usize, j: usize) -> Turn
    requires { j < 512 }
    ensures { result ≡ second_turn job i j }
{
    Turn {
        job: job,
        list: Some(Place::Second),
        i: i,
        j: j + 1,
    }
}

// Where a job goes that both files have: equal entries are on no list.
fn place_of(same: bool) -> Option<Place>
    ensures { result ≡ both_place same }
{
    if same { None } else { Some(Place::Differ) }
}

// The next iteration, if both files have a row left. Inlined, as `take_turn` is.
#[inline(always)]
fn both_turn(first: &[u8], second: &[u8], i: usize, j: usize) -> Turn
    requires { At first.now second.now i j × (i < count_of first.now) × (j < count_of second.now) }
    ensures { Turned first.now second.now i j result }
{
    let first_job = job_of(first, i);
    let second_job = job_of(second, j);
    if first_job < second_job {
        return first_turn(first_job, i, j);
    }
    if second_job < first_job {
        return second_turn(second_job, i, j);
    }
    let same = same_entry(first, second, i, j);
    Turn {
        job: first_job,
        list: place_of(same),
        i: i + 1,
        j: j + 1,
    }
}

// The next iteration, if at least one file has a row left. Inlined into both passes, so that a `Turn` stays in registers.
#[inline(always)]
fn take_turn(first: &[u8], second: &[u8], i: usize, j: usize) -> Turn
    requires { At first.now second.now i j × (i + j < count_of first.now + count_of second.now) }
    ensures { Turned first.now second.now i j result }
{
    if rows(second) <= j {
        return first_turn(job_of(first, i), i, j);
    }
    if rows(first) <= i {
        return second_turn(job_of(second, j), i, j);
    }
    both_turn(first, second, i, j)
}

// The length of a list of `at` jobs after this iteration: one more if `yes`; the job is then written, if `WRITE`.
fn put<const WRITE: bool>(out: &mut [u32], at: usize, yes: bool, job: u32) -> usize
    requires { (yes ≡ true → WRITE ≡ true → at < length out.old) × (yes ≡ true → at < 512) }
    ensures { (result ≡ cond yes (at + 1) at) × (out.new ≡ cond (yes && WRITE) (set out.old at job) out.old) }
{
    if !yes {
        return at;
    }
    if WRITE {
        out[at] = job;
    }
    at + 1
}

// The pass over both tables: counts the three lists, and writes them if `WRITE`. It is a merge: a turn moves one index or both, so
// neither is a `for`'s.
pub(crate) fn pass<const WRITE: bool>(
    first: &[u8],
    second: &[u8],
    only_first: &mut [u32],
    only_second: &mut [u32],
    differ: &mut [u32],
) -> Counts
    requires { Passable first.now second.now WRITE only_first.old only_second.old differ.old }
    ensures { Passed first.now second.now WRITE only_first.old only_second.old differ.old result
        only_first.new only_second.new differ.new }
{
    let total = rows(first) + rows(second);
    let mut i: usize = 0;
    let mut j: usize = 0;
    let mut in_first: usize = 0;
    let mut in_second: usize = 0;
    let mut in_both: usize = 0;
    while i + j < total {
        let turn = take_turn(first, second, i, j);
        in_first = put::<WRITE>(only_first, in_first, turn.goes_on(Place::First), turn.job);
        in_second = put::<WRITE>(
            only_second,
            in_second,
            turn.goes_on(Place::Second),
            turn.job,
        );
        in_both = put::<WRITE>(differ, in_both, turn.goes_on(Place::Differ), turn.job);
        i = turn.i;
        j = turn.j;
    }
    Counts {
        first: in_first,
        second: in_second,
        differ: in_both,
    }
}
