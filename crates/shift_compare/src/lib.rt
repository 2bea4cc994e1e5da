// The comparison of two shift files: three lists of job numbers.
#![tactic(auto)]

mod merge;

ghost use Rattle.std.specs.Prelude.{◌≡◌};
ghost use Rattle.shift_compare.specs.Comparing.{refused_in, finding_of, too_long_of, Comparison, comparison};
ghost use Rattle.shift_compare.specs.Inside.{Sound, longer};

use merge::{most, pass};
use shift_check::check;
use status::checked::{Answer, Refusal, Refuses};

// What C sees of a comparison: a status, the file and row that it concerns, and the length of each list.
#[derive(Clone, Copy, PartialEq, Eq, Debug)]
pub struct Finding {
    pub number: u8,
    pub file: u8,
    pub row: usize,
    pub first: usize,
    pub second: usize,
    pub differ: usize,
}

// How long the three lists are.
#[derive(Clone, Copy, PartialEq, Eq, Debug)]
pub struct Counts {
    pub first: usize,
    pub second: usize,
    pub differ: usize,
}

// Why there are no lists: the first file is refused, or the second, or a list is longer than its buffer.
#[derive(Clone, Copy, PartialEq, Eq, Debug)]
pub enum CompareError {
    First(Refusal),
    Second(Refusal),
    Room,
}

// The lists' lengths, or why there are none.
pub type Compared = Result<Counts, CompareError>;

// An answer that concerns the first file (1), the second (2) or neither (0).
fn refused_in(file: u8, answer: Answer) -> Finding
    ensures { result ≡ refused_in file answer }
{
    Finding {
        number: answer.number,
        file: file,
        row: answer.row,
        first: 0,
        second: 0,
        differ: 0,
    }
}

// What C sees of it: an error has no lists.
pub fn said(compared: Compared) -> Finding
    ensures { result ≡ finding_of compared }
{
    match compared {
        Ok(counts) => Finding {
            number: 0,
            file: 0,
            row: 0,
            first: counts.first,
            second: counts.second,
            differ: counts.differ,
        },
        Err(CompareError::First(refusal)) => refused_in(1, refusal.answer()),
        Err(CompareError::Second(refusal)) => refused_in(2, refusal.answer()),
        Err(CompareError::Room) => refused_in(0, Answer { number: 36, row: 0 }),
    }
}

// A list is longer than its buffer.
fn too_long(counts: Counts, first: usize, second: usize, differ: usize) -> bool
    ensures { result ≡ longer counts first second differ }
{
    first < counts.first || second < counts.second || differ < counts.differ
}

// Whether a list of two files that pass is longer than its buffer. If each buffer has an element for every row, none is; otherwise the lists are counted.
fn no_room(
    first: &[u8],
    second: &[u8],
    only_first: &mut [u32],
    only_second: &mut [u32],
    differ: &mut [u32],
) -> bool
    requires { Sound first.now second.now }
    ensures { (result ≡ too_long_of first.now second.now only_first.old only_second.old differ.old)
        × (only_first.new ≡ only_first.old) × (only_second.new ≡ only_second.old)
        × (differ.new ≡ differ.old) }
{
    if !too_long(
        most(first, second),
        only_first.len(),
        only_second.len(),
        differ.len(),
    ) {
        return false;
    }
    let counts = pass::<false>(first, second, only_first, only_second, differ);
    too_long(counts, only_first.len(), only_second.len(), differ.len())
}

// The three lists of two files that pass, each lent by C, or 36, which is known before any of them is written.
fn lists(
    first: &[u8],
    second: &[u8],
    only_first: &mut [u32],
    only_second: &mut [u32],
    differ: &mut [u32],
) -> Compared
    requires { Sound first.now second.now }
    ensures { ◌≡◌ {A = Comparison} (record {
      finding = finding_of result;
      first = only_first.new;
      second = only_second.new;
      differ = differ.new;
    })
        (comparison first.now second.now only_first.old only_second.old differ.old) }
{
    if no_room(first, second, only_first, only_second, differ) {
        return Err(CompareError::Room);
    }
    let counts = pass::<true>(first, second, only_first, only_second, differ);
    Ok(counts)
}

// Compares two files: the first's refusal, the second's, 36 if a list is longer than its buffer, else the three lists.
pub fn compare(
    first: &[u8],
    second: &[u8],
    only_first: &mut [u32],
    only_second: &mut [u32],
    differ: &mut [u32],
) -> Compared
    ensures { ◌≡◌ {A = Comparison} (record {
      finding = finding_of result;
      first = only_first.new;
      second = only_second.new;
      differ = differ.new;
    })
        (comparison first.now second.now only_first.old only_second.old differ.old) }
{
    check(first).map_err(CompareError::First)?;
    check(second).map_err(CompareError::Second)?;
    lists(first, second, only_first, only_second, differ)
}
