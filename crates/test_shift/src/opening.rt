// Check, lookup and opening of one job. Numbers: the lengths of file, ring and output; the file and the ring follow.
//
// Op 0: one line, number and row of the check and of the lookup; offset, length and bytes of the associated data; number and
// row of the opening, and its output. Op 1: a line for each byte of the file, the fold of the answers to its 255 other values,
// outputs too.
ghost use Rattle.std.specs.Prelude.{◌≤◌, ◌<◌, length};

use crate::{FILE_ROOM, RING_ROOM};
use program_text::calls::{Call, CallError};
use program_text::fold::Fold;
use program_text::print::Shown;
use program_text::read;
use program_text::read::{front_mut, part};
use shift_lookup::answers::answer_of;
use status::checked::answered;
use std::io;
use std::io::{Read, Write};

// The most bytes of an output where every damage is tried.
const SHORT_ROOM: usize = 300;

// Number and row of the check and of the lookup; offset, length and bytes of the associated data.
fn looked_up<W: Write>(file: &[u8], job: u32, line: &mut W) -> io::Result<()> {
    let checked = answered(shift_check::check(file));
    let found = answer_of(shift_lookup::lookup(file, job));
    let start = shift_lookup::entry(file, job).map_or(0, |entry| entry.ad_at);
    let ad = shift_lookup::associated(file, job);
    write!(
        line,
        "{} {} {} {}",
        checked.number, checked.row, found.number, found.row
    )?;
    write!(line, " {start} {} {}", ad.len(), Shown(ad))
}

// Op 0.
pub(crate) fn one<R: Read, W: Write>(
    input: &mut R,
    call: Call,
    line: &mut W,
) -> Result<(), CallError> {
    let [file_len, ring_len, out_len, ..] = call.numbers;
    let mut file_buf = read::room::<{ read::FILE_ROOM }>();
    let mut ring_buf = [0u8; RING_ROOM];
    let mut out_buf = [0xa5u8; FILE_ROOM];
    let file = part(input, &mut file_buf, file_len)?;
    let ring = part(input, &mut ring_buf, ring_len)?;
    let out = front_mut(&mut out_buf, out_len)?;
    looked_up(file, call.job, line)?;
    let opened = answered(shift_jobs::open_job(file, ring, call.job, out));
    writeln!(line, " {} {} {}", opened.number, opened.row, Shown(out))?;
    Ok(())
}

// With what each damaged file is tried.
#[derive(Clone, Copy)]
struct Trial<'a> {
    ring: &'a [u8],
    job: u32,
    out_len: usize,
    ghost short: { out_len ≤ 300 },
}

impl Trial<'_> {
    // The fold with the number of opening, and the output that it leaves.
    fn opened(self, fold: Fold, file: &[u8]) -> Fold {
        let mut out_buf = [0xa5u8; SHORT_ROOM];
        let out = &mut out_buf[..self.out_len];
        let opened = answered(shift_jobs::open_job(file, self.ring, self.job, out));
        fold.byte(opened.number).bytes(out)
    }

    // The fold with the answers to a file.
    fn answers(self, fold: Fold, file: &[u8]) -> Fold {
        let checked = answered(shift_check::check(file));
        let found = answer_of(shift_lookup::lookup(file, self.job));
        let fold = fold
            .byte(checked.number)
            .byte(low(checked.row))
            .byte(found.number)
            .byte(low(found.row));
        self.opened(fold, file)
    }

    // The fold of the answers to the 255 other values of the byte at a position.
    fn damages(self, file: &mut [u8], position: usize) -> Fold
        requires { position < length file.old }
    {
        let old = file[position];
        let mut fold = Fold::new();
        for mask in 1..=255 {
            file[position] = old ^ mask;
            fold = self.answers(fold, file);
        }
        file[position] = old;
        fold
    }
}

// The low byte of a row.
fn low(row: usize) -> u8 {
    (row % 256) as u8
}

// Op 1; the call is bad if the file is empty, which leaves no line.
pub(crate) fn damaged<R: Read, W: Write>(
    input: &mut R,
    call: Call,
    line: &mut W,
) -> Result<(), CallError> {
    let [file_len, ring_len, out_len, ..] = call.numbers;
    let mut file_buf = read::room::<{ read::FILE_ROOM }>();
    let mut ring_buf = [0u8; RING_ROOM];
    let file = part(input, &mut file_buf, file_len)?;
    let ring = part(input, &mut ring_buf, ring_len)?;
    if SHORT_ROOM < out_len || file.is_empty() {
        return Err(CallError::Bad);
    }
    let trial = Trial {
        ring,
        job: call.job,
        out_len,
    };
    for position in 0..file.len() {
        let fold = trial.damages(file, position);
        writeln!(line, "{:08x}", fold.value)?;
    }
    Ok(())
}
